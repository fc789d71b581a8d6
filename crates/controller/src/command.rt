// Command bytes: each byte with the registers that it sets and what it sets them to, one group of registers
// at a time.
ghost use Rattle.std.specs.Prelude.{◌≡◌};
ghost use Rattle.controller.specs.Check.{between};
ghost use Rattle.controller.specs.Command.{display_after, analog_after, power_after, address_after, lines_of, display_with, analog_with, with_pending, acted as acted_of, command_step};
ghost use Rattle.controller.specs.State.{with_serial};

use crate::check::awaits;
use crate::event::{Event, Stepped, unstored};
use crate::state::{Address, ICON_PAGE, Nt7508, PALETTE, Power};
use clock::Time;

// Sets registers of every group again.
const RESET: u8 = 0xe2;

// The display registers after a byte that awaits no parameter.
#[tactic(auto, unfolding(crate::specs::Command::display_after))]
pub(crate) fn display_after(display: scan::Settings, byte: u8) -> scan::Settings
    ensures { result ≡ display_after display byte }
{
    let mut next = display;
    match byte {
        0xa0 | 0xa1 => next.segment_reverse = byte == 0xa1,
        0xa2 | 0xa3 => next.icon_enabled = byte == 0xa3,
        0xa4 | 0xa5 => next.entire_on = byte == 0xa5,
        0xa6 | 0xa7 => next.reverse = byte == 0xa7,
        0xc0..=0xcf => next.common_reverse = 0xc8 <= byte,
        0x90..=0x97 => next.gray_mode = byte % 8,
        0xe4 => next.inversion_lines = 0,
        RESET => {
            next.start_line = 0;
            next.gray_mode = 0;
            next.palette = PALETTE;
        }
        _ => {}
    }
    next
}

// The analog registers after such a byte.
#[tactic(auto, unfolding(crate::specs::Command::analog_after))]
fn analog_after(analog: voltage::Settings, byte: u8) -> voltage::Settings
    ensures { result ≡ analog_after analog byte }
{
    let mut next = analog;
    match byte {
        0x20..=0x27 => next.regulator = byte % 8,
        0x28..=0x2f => next.power_control = byte % 8,
        0x50..=0x57 => next.bias = byte % 8,
        0x64..=0x67 => next.booster = byte % 4,
        0x6c..=0x6f => next.booster = 8 + byte % 4,
        RESET => {
            next.contrast = 32;
            next.regulator = 0;
        }
        _ => {}
    }
    next
}

// The power's flags after such a byte.
#[tactic(auto, unfolding(crate::specs::Command::power_after))]
pub(crate) fn power_after(power: Power, byte: u8) -> Power
    ensures { result ≡ power_after power byte }
{
    let mut next = power;
    match byte {
        0xa8 | 0xa9 => next.power_save = byte == 0xa9,
        0xab => next.oscillator_enabled = true,
        0xae | 0xaf => next.display_on = byte == 0xaf,
        0xe1 => next.power_save = false,
        _ => {}
    }
    next
}

// EE: a saved column comes back, once.
#[tactic(auto, unfolding(crate::specs::Command::address_after, crate::specs::Command::column_or))]
fn column_back(address: Address) -> Address
    ensures { result ≡ address_after address 0xee }
{
    let Some(column_byte) = address.saved_column else {
        return address;
    };
    Address {
        page: address.page,
        column_byte,
        saved_column: None,
    }
}

// The address after such a byte.
#[tactic(auto, unfolding(crate::specs::Command::address_after))]
pub(crate) fn address_after(address: Address, byte: u8) -> Address
    ensures { result ≡ address_after address byte }
{
    let mut next = address;
    match byte {
        0x00..=0x0f => {
            next.column_byte = (address.column_byte / 32 % 8 * 16 + u16::from(byte)) * 2;
        }
        0x10..=0x17 => {
            next.column_byte = (u16::from(byte % 8) * 16 + address.column_byte / 2 % 16) * 2;
        }
        0xa3 => next.page = ICON_PAGE,
        0xb0..=0xbf => next.page = byte % 16,
        0xe0 => next.saved_column = Some(address.column_byte),
        RESET => {
            next.page = 0;
            next.column_byte = 0;
            next.saved_column = None;
        }
        0xee => next = column_back(address),
        _ => {}
    }
    next
}

// The parameters that set a duty; another leaves it. The scan tests a duty with the rest of a frame, and has no test
// of a duty by itself.
fn is_duty(byte: u8) -> bool
    ensures { result ≡ between 16 128 byte }
{
    (16..=128).contains(&byte)
}

// Line inversion from its parameter.
fn lines_of(byte: u8) -> u8
    ensures { result ≡ lines_of byte }
{
    if byte % 32 == 0 { 0 } else { byte % 32 + 2 }
}

// The display registers after a parameter and the command that awaited it.
#[tactic(auto, unfolding(crate::specs::Command::display_with))]
pub(crate) fn display_with(display: scan::Settings, command: u8, byte: u8) -> scan::Settings
    ensures { result ≡ display_with display command byte }
{
    let mut next = display;
    match command {
        0x40..=0x43 => next.start_line = byte % 128,
        0x44..=0x47 => next.initial_com = byte % 128,
        0x48..=0x4b if is_duty(byte) => next.duty = byte,
        0x4c..=0x4f => next.inversion_lines = lines_of(byte),
        0x88..=0x8f => next.palette[usize::from(command - 0x88)] = byte,
        0xf6 => next.oscillator_frequency = byte % 32,
        0xf7 => next.oscillator_control = byte % 4,
        _ => {}
    }
    next
}

// The analog registers after such a parameter.
#[tactic(auto, unfolding(crate::specs::Command::analog_with))]
fn analog_with(analog: voltage::Settings, command: u8, byte: u8) -> voltage::Settings
    ensures { result ≡ analog_with analog command byte }
{
    let mut next = analog;
    match command {
        0x81 => next.contrast = byte % 64,
        0xf1 => next.temperature_slope = byte % 2,
        0xf3 => next.contrast_trim = byte % 16,
        0xf4 => next.otp_control = byte % 4,
        _ => {}
    }
    next
}

// Every register after a byte that awaits no parameter.
#[tactic(auto, unfolding(crate::specs::Command::acted, crate::specs::State::with_serial))]
fn acted(state: Nt7508, byte: u8) -> Nt7508
    ensures { result ≡ acted_of state byte }
{
    let mut next = state;
    next.display = display_after(state.display, byte);
    next.analog = analog_after(state.analog, byte);
    next.power = power_after(state.power, byte);
    next.address = address_after(state.address, byte);
    with_pending(next, None)
}

#[tactic(auto, unfolding(crate::specs::State::with_serial))]
fn with_pending(state: Nt7508, pending: Option<u8>) -> Nt7508
    ensures { result ≡ with_serial state (with_pending state.serial pending) }
{
    let mut next = state;
    next.serial.pending = pending;
    next
}

// A command byte: the parameter that is awaited, a byte that awaits one, or any other.
pub(crate) fn command(state: Nt7508, byte: u8, now: Time) -> Stepped
    ensures { result ≡ command_step state state.serial.pending byte now }
{
    let Some(command) = state.serial.pending else {
        if awaits(byte) {
            return unstored(with_pending(state, Some(byte)));
        }
        return Stepped {
            state: acted(state, byte),
            event: Some(Event::Control {
                at: now,
                command: byte,
                parameter: None,
            }),
            store: None,
        };
    };
    let mut next = state;
    next.display = display_with(state.display, command, byte);
    next.analog = analog_with(state.analog, command, byte);
    Stepped {
        state: with_pending(next, None),
        event: Some(Event::Control {
            at: now,
            command,
            parameter: Some(byte),
        }),
        store: None,
    }
}
