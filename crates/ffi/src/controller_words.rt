// The calls that change the controller, over words. The state is a block of 75 words (state_words.rt),
// which the call changes in place; one that holds no state has number 20, before every other check.
// RAM and icons that a call writes stand apart: the C interface lends two arrays, and a struct of two `&mut` is no
// plainer, since a call that hands it on has to say what each of them is after it.
// An event is eight words: its kind (0 none, 1 data, 2 a command), the page, the column, the value of data or the
// command, whether it has a parameter, the parameter, and the seconds and fraction of its time; words that its kind
// does not have are 0.
ghost use Rattle.std.specs.Prelude.{◌≡◌, length, eqb};
ghost use Rattle.checks.specs.Checks.{row, unless_refused};
ghost use Rattle.controller.specs.State.{power_on};
ghost use Rattle.controller.specs.Check.{answered};
ghost use Rattle.controller.specs.declared.state.Nt7508.{Nt7508};
ghost use Rattle.controller.specs.Bits.{shift_in};
ghost use Rattle.ffi.specs.Words.{check_status};
ghost use Rattle.ffi.specs.StateWords.{state_of, state_words};
ghost use Rattle.ffi.specs.ControllerWords.{told_words, event_words, rising_on, shifted_on, selected_on, data_on, supplied_on, temperature_on, lost_on, met_on, updated_on, restored_on, ChangedOn};

use crate::fast_words::fast_byte;
use crate::state_words::{Block, held_mut, put_state, state_of};
use crate::words::{Words, optional_words};
use checks::Numbered;
use clock::Time;
use controller::{Event, Nt7508, Refusal};
use scan::Memory;

// The number of a block that holds no state. It is the C interface's own, which no layer's refusal has.
pub(crate) const NO_STATE: u64 = 20;

impl Words for Event {
    type Words = [u64; 8];

    ghost words = { told_words };

    fn words(self) -> [u64; 8] {
        match self {
            Event::Write {
                at,
                page,
                column,
                value,
            } => [
                1,
                u64::from(page),
                u64::from(column),
                u64::from(value),
                0,
                0,
                at.seconds,
                at.fraction,
            ],
            Event::Control {
                at,
                command,
                parameter,
            } => {
                let p = optional_words(parameter.map(u64::from));
                [
                    2,
                    0,
                    0,
                    u64::from(command),
                    p[0],
                    p[1],
                    at.seconds,
                    at.fraction,
                ]
            }
        }
    }
}

impl Words for Option<Event> {
    type Words = [u64; 8];

    ghost words = { event_words };

    fn words(self) -> [u64; 8] {
        match self {
            None => [0; 8],
            Some(event) => event.words(),
        }
    }
}

// A state goes out, and a refusal leaves what is there. Not by `put`: a block is filled where it lies, and of one
// that is made and copied the bounds of the parts were not proved (tried).
fn put_changed(answer: Result<Nt7508, Refusal>, block: &mut Block) -> u64
    ensures answers { (given : Nt7508) → result ≡ check_status (answered given answer).0 }
    ensures leaves { (given : Nt7508) → block.new ≡ unless_refused (answered given answer).0 (state_words (answered given answer).1) block.old }
{
    match answer {
        Ok(state) => {
            put_state(state, block);
            0
        }
        Err(refusal) => refusal.number(),
    }
}

// Changes the state of a block by a call. A block that holds none stays as it is, and so does one whose state the call
// refuses.
#[tactic(auto, using(crate::proofs::OnBlock::changes_none))]
fn change<F: FnOnce(Nt7508) -> Result<Nt7508, Refusal>>(state: &mut [u64], call: F) -> u64
    requires { F.IsAlwaysCallable call }
    ensures { ChangedOn (F.post call) state.old result state.new }
{
    let Some(block) = held_mut(state) else {
        return NO_STATE;
    };
    put_changed(call(state_of(block)), block)
}

// The state at power-on, into a block that holds anything.
pub fn nt7508_controller_new(state: &mut [u64]) -> u64
    ensures answers { result ≡ check_status (row 20 (eqb (length state.old) 75)) }
    ensures leaves { state.new ≡ unless_refused (row 20 (eqb (length state.old) 75)) (state_words power_on) state.old }
{
    let Some(block) = state.as_mut_array() else {
        return NO_STATE;
    };
    put_state(Nt7508::new(), block);
    0
}

// A group that does not take the fast path. A function of its own, since a function clears its locals at its start: here
// they are large, and cost a byte of the fast path 20 ns. Not by `put`, since the C interface lends an event beside the
// block.
fn shifted(
    block: &mut Block,
    bits: u8,
    count: u8,
    moment: Time,
    ram: &mut [u8],
    icons: &mut [u8],
    event: &mut [u64; 8],
) -> u64
    ensures answers { result ≡ check_status (shift_in (state_of block.old) bits count moment ram.old icons.old).0 }
    ensures leaves { block.new ≡ unless_refused (shift_in (state_of block.old) bits count moment ram.old icons.old).0 (state_words (shift_in (state_of block.old) bits count moment ram.old icons.old).1.state) block.old }
    ensures tells { event.new ≡ unless_refused (shift_in (state_of block.old) bits count moment ram.old icons.old).0 (event_words (shift_in (state_of block.old) bits count moment ram.old icons.old).1.event) event.old }
    ensures ram { ram.new ≡ (shift_in (state_of block.old) bits count moment ram.old icons.old).1.ram }
    ensures icons { icons.new ≡ (shift_in (state_of block.old) bits count moment ram.old icons.old).1.icons }
{
    match state_of(block).shift_in(bits, count, moment, ram, icons) {
        Ok(received) => {
            put_state(received.state, block);
            *event = received.event.words();
            0
        }
        Err(refusal) => refusal.number(),
    }
}

// One rising edge of the serial clock: a group of one.
pub fn nt7508_controller_rising(
    state: &mut [u64],
    bit: bool,
    moment: Time,
    ram: &mut [u8],
    icons: &mut [u8],
    event: &mut [u64; 8],
) -> u64
    ensures answers { result ≡ check_status (rising_on state.old bit moment ram.old icons.old).0 }
    ensures leaves { state.new ≡ unless_refused (rising_on state.old bit moment ram.old icons.old).0 (state_words (rising_on state.old bit moment ram.old icons.old).1.state) state.old }
    ensures tells { event.new ≡ unless_refused (rising_on state.old bit moment ram.old icons.old).0 (event_words (rising_on state.old bit moment ram.old icons.old).1.event) event.old }
    ensures ram { ram.new ≡ (rising_on state.old bit moment ram.old icons.old).1.ram }
    ensures icons { icons.new ≡ (rising_on state.old bit moment ram.old icons.old).1.icons }
{
    nt7508_controller_shift_in(state, u8::from(bit), 1, moment, ram, icons, event)
}

// A group of rising edges, the oldest the highest of `bits`.
pub fn nt7508_controller_shift_in(
    state: &mut [u64],
    bits: u8,
    count: u8,
    moment: Time,
    ram: &mut [u8],
    icons: &mut [u8],
    event: &mut [u64; 8],
) -> u64
    ensures answers { result ≡ check_status (shifted_on state.old bits count moment ram.old icons.old).0 }
    ensures leaves { state.new ≡ unless_refused (shifted_on state.old bits count moment ram.old icons.old).0 (state_words (shifted_on state.old bits count moment ram.old icons.old).1.state) state.old }
    ensures tells { event.new ≡ unless_refused (shifted_on state.old bits count moment ram.old icons.old).0 (event_words (shifted_on state.old bits count moment ram.old icons.old).1.event) event.old }
    ensures ram { ram.new ≡ (shifted_on state.old bits count moment ram.old icons.old).1.ram }
    ensures icons { icons.new ≡ (shifted_on state.old bits count moment ram.old icons.old).1.icons }
{
    let Some(block) = held_mut(state) else {
        return NO_STATE;
    };
    if fast_byte(block, bits, count, moment, ram, icons, event) {
        return 0;
    }
    shifted(block, bits, count, moment, ram, icons, event)
}

#[tactic(auto, using(crate::proofs::OnBlock::change_answers, crate::proofs::OnBlock::change_leaves))]
pub fn nt7508_controller_select(state: &mut [u64], on: bool) -> u64
    ensures answers { result ≡ check_status (selected_on state.old on).0 }
    ensures leaves { state.new ≡ unless_refused (selected_on state.old on).0 (state_words (selected_on state.old on).1) state.old }
{
    change(state, |before| before.select(on))
}

// The data line: data, or commands.
#[tactic(auto, using(crate::proofs::OnBlock::change_answers, crate::proofs::OnBlock::change_leaves))]
pub fn nt7508_controller_command_data(state: &mut [u64], on: bool) -> u64
    ensures answers { result ≡ check_status (data_on state.old on).0 }
    ensures leaves { state.new ≡ unless_refused (data_on state.old on).0 (state_words (data_on state.old on).1) state.old }
{
    change(state, |before| before.command_data(on))
}

#[tactic(auto, using(crate::proofs::OnBlock::change_answers, crate::proofs::OnBlock::change_leaves))]
pub fn nt7508_controller_set_supply(state: &mut [u64], millivolts: u16, moment: Time) -> u64
    ensures answers { result ≡ check_status (supplied_on state.old millivolts moment).0 }
    ensures leaves { state.new ≡ unless_refused (supplied_on state.old millivolts moment).0 (state_words (supplied_on state.old millivolts moment).1) state.old }
{
    change(state, |before| before.set_supply(millivolts, moment))
}

#[tactic(auto, using(crate::proofs::OnBlock::change_answers, crate::proofs::OnBlock::change_leaves))]
pub fn nt7508_controller_set_temperature(state: &mut [u64], millicelsius: i32) -> u64
    ensures answers { result ≡ check_status (temperature_on state.old millicelsius).0 }
    ensures leaves { state.new ≡ unless_refused (temperature_on state.old millicelsius).0 (state_words (temperature_on state.old millicelsius).1) state.old }
{
    change(state, |before| before.set_temperature(millicelsius))
}

// The loss of memory. Not by `change`, for the same reason as `nt7508_controller_restore`.
pub fn nt7508_controller_lose_volatile(state: &mut [u64], ram: &mut [u8], icons: &mut [u8]) -> u64
    ensures answers { result ≡ check_status (lost_on state.old ram.old icons.old).0 }
    ensures leaves { state.new ≡ unless_refused (lost_on state.old ram.old icons.old).0 (state_words (lost_on state.old ram.old icons.old).1.0) state.old }
    ensures ram { ram.new ≡ (lost_on state.old ram.old icons.old).1.1.0 }
    ensures icons { icons.new ≡ (lost_on state.old ram.old icons.old).1.1.1 }
{
    let Some(block) = held_mut(state) else {
        return NO_STATE;
    };
    put_changed(state_of(block).lose_volatile(ram, icons), block)
}

// The deadline call, which ends the wait at its exact time.
#[tactic(auto, using(crate::proofs::OnBlock::change_answers, crate::proofs::OnBlock::change_leaves))]
pub fn nt7508_controller_at_deadline(state: &mut [u64], moment: Time) -> u64
    ensures answers { result ≡ check_status (met_on state.old moment).0 }
    ensures leaves { state.new ≡ unless_refused (met_on state.old moment).0 (state_words (met_on state.old moment).1) state.old }
{
    change(state, |before| before.at_deadline(moment))
}

// The scan stays as counted to a moment, and how many pieces that took. Not by `change` or `put`, since the C interface
// lends a number beside the block.
pub fn nt7508_controller_update(state: &mut [u64], moment: Time, pieces: &mut u8) -> u64
    ensures answers { result ≡ check_status (updated_on state.old moment).0 }
    ensures leaves { state.new ≡ unless_refused (updated_on state.old moment).0 (state_words (updated_on state.old moment).1.0) state.old }
    ensures counts { pieces.new ≡ unless_refused (updated_on state.old moment).0 (updated_on state.old moment).1.1 pieces.old }
{
    let Some(block) = held_mut(state) else {
        return NO_STATE;
    };
    match state_of(block).update(moment) {
        Ok(updated) => {
            put_state(updated.state, block);
            *pieces = updated.pieces;
            0
        }
        Err(refusal) => refusal.number(),
    }
}

// A state that was saved elsewhere, with its RAM and icons, at a moment. Not by `change`: of a closure that has lent
// memory a proof knows nothing (tried).
pub fn nt7508_controller_restore(state: &mut [u64], moment: Time, memory: Memory<'_>) -> u64
    ensures answers { result ≡ check_status (restored_on state.old moment memory.entry.ram.now memory.entry.icons.now).0 }
    ensures leaves { state.new ≡ unless_refused (restored_on state.old moment memory.entry.ram.now memory.entry.icons.now).0 (state_words (restored_on state.old moment memory.entry.ram.now memory.entry.icons.now).1) state.old }
{
    let Some(block) = held_mut(state) else {
        return NO_STATE;
    };
    put_changed(state_of(block).restore(moment, memory), block)
}
