// The session program on slices: a text of calls in, a listing of drives out. Document 01, 'Session
// program'.
#![tactic(auto)]

mod line;
mod listing;
mod session;
mod text;

pub use listing::put_refusal;
pub use session::{Ended, ROOM, Stop, Why, run};
pub use text::LONGEST;
