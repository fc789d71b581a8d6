// The event that a byte gives to the listener, and the byte of lent memory that is to be stored.
ghost use Rattle.std.specs.Prelude.{◌≡◌};
ghost use Rattle.controller.specs.Event.{unstored as unstored_of};

use crate::state::Nt7508;
use clock::Time;

// A data byte with its page and column as they were, or a command with the parameter that it awaited. Each case has its
// moment among its fields: a struct of a moment and a kind would be two types, which a listener takes apart both.
#[derive(Clone, Copy, Debug, PartialEq, Eq)]
pub enum Event {
    Write {
        at: Time,
        page: u8,
        column: u16,
        value: u8,
    },
    Control {
        at: Time,
        command: u8,
        parameter: Option<u8>,
    },
}

// The byte of RAM or icons that a data byte sets. Two cases, as the two memories are lent apart.
#[derive(Clone, Copy, Debug, PartialEq, Eq)]
pub enum Store {
    Ram { at: usize, value: u8 },
    Icon { at: usize, value: u8 },
}

// The state after a byte, its event, if it gives one, and what is to be stored: the core of a byte reads
// memory and writes none, so that thin calls store it wherever the memory stands.
#[derive(Clone, Copy, Debug, PartialEq, Eq)]
pub struct Stepped {
    pub state: Nt7508,
    pub event: Option<Event>,
    pub store: Option<Store>,
}

// Nothing to tell and nothing to store.
pub(crate) fn unstored(state: Nt7508) -> Stepped
    ensures { result ≡ unstored_of state }
{
    Stepped {
        state,
        event: None,
        store: None,
    }
}
