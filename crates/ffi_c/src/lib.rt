// The exports to C and Rust (include/nt7508.h). Each function calls the one of `ffi` that has its name, and states that
// one's clauses again, over what C has: a time is its seconds and fraction, a rate p / q, lent memory two arrays. What it
// does and what its words are is said there, in the module of the same name.
#![tactic(auto)]

mod clock_words;
mod controller_words;
mod drive_words;
mod look_words;
mod scan_words;
mod session_words;
mod voltage_words;
