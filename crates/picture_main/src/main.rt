// The picture program: a session text on standard input, the panel at its end on standard output as a
// PGM picture. It reads its text as session_main does: no crate below both has std's input.
#![tactic(auto)]

use std::io::{self, Read, Write};

fn main(rt: HostRuntime) -> io::Result<()> {
    let mut text = Vec::new(rt.alloc());
    // A byte more than the longest text, so that a longer one is seen to be too long.
    rt.stdin()
        .take(session::LONGEST as u64 + 1)
        .read_to_end(&mut text)?;
    let mut out = [0u8; picture::LENGTH];
    let written = picture::draw(&text, &mut out);
    rt.stdout().write_all(&out[..written])
}
