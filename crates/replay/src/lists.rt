// A list is replayed: its cases one after another, each as the program replays it.
ghost use Rattle.std.specs.Prelude.{◌≡◌, ◌≤◌, ◌<◌, ℕ, List, length, IfOk, IfSome};
ghost use Rattle.replay.specs.Lists.{replayed_view, Replays, tally_of};

use crate::Tally;
use std::rt::Files;
use std::{fs, io};

// A case that was replayed: what follows it, and whether ours answers as it says.
#[derive(Clone, Copy, Debug, PartialEq, Eq)]
pub struct Replayed<'a> {
    pub rest: &'a [u8],
    pub agrees: bool,
}

// The cases of a list as a program replays them, and what one of them leaves for the next.
pub trait Cases {
    ghost use Rattle.std.specs.Prelude.{List, ℕ, Bool, Option, ◌<◌, length, IfSome};
    ghost use Rattle.replay.specs.Lists.{replayed_view};

    // Whether a list gives this case, if one, and leaves that for the next.
    ghost gives: { Self → List ℕ → Option (List ℕ × Bool) → Self → Type 0 };

    // Replays the case that a list starts with, if it starts with one.
    fn replay<'a>(&mut self, list: &'a [u8]) -> Option<Replayed<'a>>
        ensures case { gives self.old list.now (replayed_view result) self.new }
        ensures shorter { IfSome result (λ case. length case.rest.now < length list.now) };
}

// Replays a list. A case that differs is named by its number, as a `unit`, and so is one that is none,
// behind which nothing is read.
pub fn replay_list<C: Cases>(
    rt: &impl Print,
    list: &[u8],
    unit: &str,
    cases: &mut C,
) -> io::Result<Tally>
    ensures tally { IfOk result (λ t. (answers : _) × Replays C.gives answers cases.old list.now cases.new × (t ≡ tally_of answers)) }
    ensures cases { IfOk result (λ t. t.cases ≤ length list.now) }
    ensures differ { IfOk result (λ t. t.differ ≤ t.cases) }
{
    let mut tally = Tally::new();
    let mut rest = list;
    while !rest.is_empty() {
        let number = tally.cases + 1;
        let Some(case) = cases.replay(rest) else {
            println!(rt; "no case: {unit} {number}")?;
            break;
        };
        if !case.agrees {
            println!(rt; "differs: {unit} {number}")?;
        }
        tally = tally.counted(case.agrees);
        rest = case.rest;
    }
    Ok(tally)
}

// Replays the list of a file, and prints how many cases it has and how many of them differ.
pub fn replay_file<C: Cases>(
    rt: &(impl Files + Print + Alloc),
    path: &str,
    unit: &str,
    cases: &mut C,
) -> io::Result<()>
    ensures { IfOk result (λ _. (list : List ℕ) × (answers : _) × Replays C.gives answers cases.old list cases.new) }
{
    let list = fs::read(rt, path)?;
    let tally = replay_list(rt, &list, unit, cases)?;
    println!(rt; "{} cases, {} differ", tally.cases, tally.differ)
}
