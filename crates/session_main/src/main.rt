// The session program: a text on standard input, its listing on standard output. Document 01, 'Session
// program'. It reads its text as picture_main does: no crate below both has std's input.
#![tactic(auto)]

use scan::{Icons, Ram};
use session::{LONGEST, ROOM};
use std::io::{self, Read, Write};

fn main(rt: HostRuntime) -> io::Result<()> {
    let mut text = Vec::new(rt.alloc());
    // A byte more than the longest text, so that a longer one is seen to be too long.
    rt.stdin().take(LONGEST as u64 + 1).read_to_end(&mut text)?;
    let mut ram: Ram = [0; _];
    let mut icons: Icons = [0; _];
    let mut out = [0u8; ROOM];
    let ended = session::run(&text, &mut ram, &mut icons, &mut out);
    rt.stdout().write_all(&out[..ended.written])
}
