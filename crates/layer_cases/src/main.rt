// Runs the fixed cases of clock, voltage and scan, a layer after another: the figures of document 01 are
// printed, with some answers of the setting finder, and the layer's list in data/ is replayed, which
// `oracle/run cases` made of the original's answers. A line is a kind, then the numbers of a case: what is
// asked, and what the original answers. A line that differs is named, also where a field cannot hold its
// number, and so is one that holds no case, behind which nothing is read; then the cases are counted. The
// file `stdout` holds all of this as it should be.
#![tactic(auto)]

mod clock_cases;
mod scan_cases;
mod voltage_cases;
mod words;

use replay::{Cases, Kind, Numbers, Replayed, replay_file};
use std::io;

// Whether ours answers as a case says. The last two kinds are the controller's, whose lists `cases` replays.
fn agrees(kind: Kind, w: &Numbers) -> bool {
    match kind {
        Kind::Micros => clock_cases::micros_agree(w),
        Kind::NewClock => clock_cases::new_agrees(w),
        Kind::Edges => clock_cases::edges_agree(w),
        Kind::MovedClock => clock_cases::moved_agrees(w),
        Kind::Voltages => voltage_cases::agrees(w),
        Kind::Scan => scan_cases::agrees(w),
        Kind::Start | Kind::Call => false,
    }
}

// The lines of a list: each is replayed by itself.
#[derive(Drop)]
struct Lines;

impl Cases for Lines {
    ghost use Rattle.std.specs.Prelude.{⊤};

    ghost gives = { λ lines list answer left. ⊤ };

    // Not in `replay` for both programs (tried): there it takes a closure, and asks of its caller that this may be called, which
    // no public function of this project may.
    fn replay<'a>(&mut self, list: &'a [u8]) -> Option<Replayed<'a>> {
        let mut w: Numbers = [0; _];
        let case = replay::read_case(list, &mut w)?;
        Some(Replayed {
            rest: case.rest,
            agrees: agrees(case.kind, &w),
        })
    }
}

fn main(rt: HostRuntime) -> io::Result<()> {
    clock_cases::figures(&rt)?;
    replay_file(&rt, "clock", "line", &mut Lines)?;
    voltage_cases::figures(&rt)?;
    replay_file(&rt, "voltage", "line", &mut Lines)?;
    replay_file(&rt, "scan", "line", &mut Lines)
}
