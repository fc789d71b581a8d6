// The fast path of a byte over words (fast.rt of `controller`): the state is put together from the words and taken
// apart again where it is used, each function here with one call, so that only the words that such a byte can
// change go back.
ghost use Rattle.std.specs.Prelude.{◌≡◌, true, cond, None};
ghost use Rattle.controller.specs.Event.{ram_after, icons_after};
ghost use Rattle.controller.specs.Bits.{shift_in};
ghost use Rattle.controller.specs.Fast.{fast_step, stored};
ghost use Rattle.ffi.specs.StateWords.{holds_state, state_of, state_words};
ghost use Rattle.ffi.specs.FastWords.{rest_zero, clock_zero, clock_put, latch_put, counters_put, line_put, fast_put};
ghost use Rattle.ffi.specs.ControllerWords.{told_words, event_words};

use crate::state_words::{Block, address_in, analog_in, display_in, power_in, scan_in, serial_in};
use crate::words::Words;
use clock::{Clock, Time};
use controller::{Address, FastStep, Nt7508};
use scan::Scan;

// Words that stay must be those of what the block holds. A word that fits its field is, but where something is
// not there its words are not read, and may be anything: they must be 0, as in all blocks of the library's own.
// So of a wait, of a saved column and of an awaited command.
fn rest_zero(w: &Block) -> bool
    ensures { result ≡ rest_zero w.now }
{
    (w[63] == 0) & (w[64] == 0) & ((w[67] != 0) | (w[68] == 0)) & ((w[73] != 0) | (w[74] == 0))
}

// So of a clock too. Most often it runs, and then its words are not looked at.
fn clock_zero(w: &Block) -> bool
    ensures { result ≡ clock_zero w.now }
{
    if w[0] != 0 {
        return true;
    }
    w[1..9] == [0; 8]
}

// The controller's answer for the state of a block. Not by `state_of`: that has other callers, so that it would not
// be compiled into this one (docs/SPEED.md).
#[tactic(auto, unfolding(crate::specs::StateWords::state_of))]
fn fast_step_of(
    w: &Block,
    byte: u8,
    moment: Time,
    ram: &mut [u8],
    icons: &mut [u8],
) -> Option<FastStep>
    ensures tells { result ≡ fast_step (state_of w.now) byte moment ram.old icons.old }
    ensures ram { ram.new ≡ ram_after (stored result) ram.old }
    ensures icons { icons.new ≡ icons_after (stored result) icons.old }
{
    let whole = Nt7508 {
        scan: scan_in(w),
        display: display_in(w),
        analog: analog_in(w),
        power: power_in(w),
        address: address_in(w),
        serial: serial_in(w),
    };
    whole.fast_byte(byte, moment, ram, icons)
}

// A clock that runs goes on: its last edge, fraction and ordinal change, its period stays.
fn put_clock(clock: Option<Clock>, words: &mut Block)
    ensures { words.new ≡ clock_put clock words.old }
{
    let Some(running) = clock else {
        return;
    };
    words[1] = running.at.seconds;
    words[2] = running.at.fraction;
    words[7] = running.fraction;
    words[8] = running.ordinal;
}

#[tactic(auto, unfolding(crate::specs::FastWords::latch_put))]
fn put_latch(scan: Scan, words: &mut Block)
    ensures { words.new ≡ latch_put scan words.old }
{
    words[11] = scan.latch.segments[0];
    words[12] = scan.latch.segments[1];
    words[13] = u64::from(scan.latch.latched);
}

#[tactic(auto, unfolding(crate::specs::FastWords::counters_put))]
fn put_counters(scan: Scan, words: &mut Block)
    ensures { words.new ≡ counters_put scan words.old }
{
    words[21] = u64::from(scan.row);
    words[22] = u64::from(scan.step);
    words[23] = u64::from(scan.frc);
    words[25] = u64::from(scan.inversion.count);
    words[26] = u64::from(scan.inversion.inverted);
}

// Page and column, and no bit is under way.
fn put_line(address: Address, words: &mut Block)
    ensures { words.new ≡ line_put address words.old }
{
    words[65] = u64::from(address.page);
    words[66] = u64::from(address.column_byte);
    words[71] = 0;
    words[72] = 0;
}

// The words that a byte of the fast path can change go out, and the event.
fn put_fast(step: FastStep, words: &mut Block, event: &mut [u64; 8])
    ensures leaves { words.new ≡ fast_put step words.old }
    ensures tells { event.new ≡ told_words step.event }
{
    put_clock(step.scan.ticking.clock, words);
    put_latch(step.scan, words);
    put_counters(step.scan, words);
    put_line(step.address, words);
    *event = step.event.words();
}

// Whether a group takes the fast path, and then its byte is taken. Two tests of words that stay, each with its branch: that
// is faster than one.
pub(crate) fn fast_byte(
    state: &mut Block,
    bits: u8,
    count: u8,
    moment: Time,
    ram: &mut [u8],
    icons: &mut [u8],
    event: &mut [u64; 8],
) -> bool
    requires { holds_state state.old ≡ true }
    ensures passes { cond result (shift_in (state_of state.old) bits count moment ram.old icons.old).0 None ≡ None }
    ensures leaves { state.new ≡ cond result (state_words (shift_in (state_of state.old) bits count moment ram.old icons.old).1.state) state.old }
    ensures tells { event.new ≡ cond result (event_words (shift_in (state_of state.old) bits count moment ram.old icons.old).1.event) event.old }
    ensures ram { ram.new ≡ cond result (shift_in (state_of state.old) bits count moment ram.old icons.old).1.ram ram.old }
    ensures icons { icons.new ≡ cond result (shift_in (state_of state.old) bits count moment ram.old icons.old).1.icons icons.old }
{
    if count != 8 {
        return false;
    }
    if !rest_zero(state) {
        return false;
    }
    if !clock_zero(state) {
        return false;
    }
    let Some(step) = fast_step_of(state, bits, moment, ram, icons) else {
        return false;
    };
    put_fast(step, state, event);
    true
}
