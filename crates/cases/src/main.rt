// Replays the fixed cases of controller and session: the two lists in data/, which `oracle/run cases` made
// of the original's answers. A list of the controller's calls has a case in each line: a kind, then numbers,
// what is asked and what the original answers (controller_cases.rt); session_cases.rt says what a session
// is. A case that differs is named by its number in the list, and so is one that is none, behind which
// nothing is read; then the cases are counted. The file `stdout` holds all of this as it should be.
#![tactic(auto)]

mod controller_cases;
mod session_cases;

use controller_cases::Machine;
use replay::replay_file;
use session_cases::Sessions;
use std::io;

fn main(rt: HostRuntime) -> io::Result<()> {
    replay_file(&rt, "controller", "number", &mut Machine::new())?;
    replay_file(&rt, "session", "number", &mut Sessions)
}
