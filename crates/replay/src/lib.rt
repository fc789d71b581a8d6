// Shared by the programs that replay the lists of the original's answers: the case of a line, the rules
// by which a list makes memory and sums up long answers, the replay of a list, and its tally.
#![tactic(auto)]

mod cases;
mod lists;
mod rules;
mod tally;

pub use cases::{Case, Kind, NoKind, Numbers, read_case};
pub use lists::{Cases, Replayed, replay_file, replay_list};
pub use rules::{added, fill, fill_memory, sum_of, sum_of_words};
pub use tally::Tally;
