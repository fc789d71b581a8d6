// The controller: bits, bytes and commands, supply and start-up wait, the checks of its state, and what
// the panel, the power board and the bench read of it. Document 01, 'Controller'.
#![tactic(auto)]

mod bits;
mod byte;
mod check;
mod command;
mod event;
mod fast;
mod look;
mod state;
mod supply;
mod update;

pub use bits::Received;
pub use check::Refusal;
pub use event::{Event, Stepped, Store};
pub use fast::FastStep;
pub use state::{Address, Nt7508, Power, Serial};
pub use update::Updated;
