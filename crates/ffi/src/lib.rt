// The layers of the display controller for callers in other languages: numbers and arrays of words
// in and out, one module for each layer. `ffi_c` exports its public functions to them. A call that is
// turned down answers the number that document 01's table gives and changes no lent array; any other
// answers 0. Only a session goes on from line to line, and leaves what the lines before a refused one did.
#![tactic(auto)]

pub mod clock_words;
pub mod controller_words;
pub mod drive_words;
mod fast_words;
pub mod look_words;
pub mod scan_words;
pub mod session_words;
mod state_words;
pub mod voltage_words;
mod words;

pub use state_words::{Block, temperature_of};
