// The clock of the display controller: time as seconds and a fraction, the LCD rates, and a
// rational clock whose edges are counted and passed without a loop. Document 01, 'Clock'.
#![tactic(auto)]

mod check;
mod edges;
mod position;
mod rate;
mod rated;
mod time;
mod wide;

pub use check::Refusal;
pub use edges::{Clock, Passed};
pub use rate::Rate;
pub use time::{Duration, Time};
pub use wide::Wide;
