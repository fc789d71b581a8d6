// A whole byte: what it does to the scan, by the settings before it and those after it, and its action.
// It reads lent memory and writes none: its answer says what is to be stored.
ghost use Rattle.std.specs.Prelude.{◌≡◌, true};
ghost use Rattle.checks.specs.Checks.{changed, left_by};
ghost use Rattle.scan.specs.Check.{answered as scan_answered, memory_ok, check_scan};
ghost use Rattle.scan.specs.Run.{byte_scan};
ghost use Rattle.controller.specs.Check.{number, valid_state};
ghost use Rattle.controller.specs.Event.{unstored as unstored_of};
ghost use Rattle.controller.specs.Byte.{conditions_of, next_column, store_of, data_step, page_sent, step_of, byte_taken};
ghost use Rattle.controller.specs.Closed.{display_then, power_then, running_by};

use crate::check::{Refusal, awaits};
use crate::command::{command, display_after, display_with, power_after};
use crate::event::{Event, Stepped, Store};
use crate::state::{Address, ICON_PAGE, Nt7508, Power, Serial, with_scan};
use checks::Checked;
use clock::Time;
use scan::{Conditions, Memory, Running, Scan};
use voltage::Supply;

// The conditions that decide whether the scan runs and the glass is driven.
pub(crate) fn conditions_of(power: Power) -> Conditions
    ensures { result ≡ conditions_of power }
{
    Conditions {
        display_on: power.display_on,
        oscillator_enabled: power.oscillator_enabled,
        supply: Supply {
            supply_millivolts: power.supply_millivolts,
            temperature_millicelsius: power.temperature_millicelsius,
            power_save: power.power_save,
            waiting: power.ready.is_some(),
        },
    }
}

// The column stops at 255.
pub(crate) fn next_column(address: Address) -> Address
    ensures { result ≡ next_column address }
{
    Address {
        column_byte: address.column_byte.saturating_add(1).min(255),
        ..address
    }
}

// The byte that a data byte sets. RAM has 16 pages of 256 bytes, and the icons one.
#[tactic(auto, unfolding(crate::specs::Byte::store_of))]
pub(crate) fn store_of(address: Address, byte: u8) -> Store
    ensures { result ≡ store_of address byte }
{
    let column = usize::from(address.column_byte % 256);
    if address.page == ICON_PAGE {
        return Store::Icon {
            at: column,
            value: byte % 2,
        };
    }
    Store::Ram {
        at: usize::from(address.page % 16) * 256 + column,
        value: byte,
    }
}

#[tactic(auto, unfolding(crate::specs::Byte::data_step, crate::specs::State::with_address))]
fn data(state: Nt7508, byte: u8, now: Time) -> Stepped
    ensures { result ≡ data_step state byte now }
{
    let address = state.address;
    let mut next = state;
    next.address = next_column(address);
    Stepped {
        state: next,
        event: Some(Event::Write {
            at: now,
            page: address.page,
            column: address.column_byte,
            value: byte,
        }),
        store: Some(store_of(address, byte)),
    }
}

// The page that a byte could alter, if it carries data.
pub(crate) fn page_sent(state: Nt7508) -> Option<u8>
    ensures { result ≡ page_sent state }
{
    state.serial.data.then_some(state.address.page)
}

#[tactic(auto, unfolding(crate::specs::Byte::step_of))]
fn step(state: Nt7508, byte: u8, now: Time) -> Stepped
    ensures { result ≡ step_of state byte now }
{
    if state.serial.data {
        return data(state, byte, now);
    }
    command(state, byte, now)
}

// The display registers after a byte.
#[tactic(auto, unfolding(crate::specs::Closed::display_then, crate::specs::Closed::display_by))]
fn display_then(serial: Serial, display: scan::Settings, byte: u8) -> scan::Settings
    ensures { result ≡ display_then serial display byte }
{
    if serial.data {
        return display;
    }
    let Some(command) = serial.pending else {
        if awaits(byte) {
            return display;
        }
        return display_after(display, byte);
    };
    display_with(display, command, byte)
}

// The power after a byte.
#[tactic(auto, unfolding(crate::specs::Closed::power_then, crate::specs::Closed::power_by))]
fn power_then(serial: Serial, power: Power, byte: u8) -> Power
    ensures { result ≡ power_then serial power byte }
{
    if serial.data || serial.pending.is_some() || awaits(byte) {
        return power;
    }
    power_after(power, byte)
}

// Whether a byte begins the scan, lets it run on or leaves it standing.
fn running_by(serial: Serial, power: Power, byte: u8) -> Running
    ensures { result ≡ running_by serial power byte }
{
    let before = conditions_of(power);
    let after = conditions_of(power_then(serial, power, byte));
    Running::after(before.runs(), after.runs())
}

// The scan after a byte. What is to be stored is not in lent memory yet: a data byte makes no scan
// begin, and only a scan that begins reads memory.
fn scan_by(state: Nt7508, byte: u8, moment: Time, memory: Memory<'_>) -> Result<Scan, scan::Refusal>
    ensures { scan_answered state.scan result ≡ byte_scan state.scan state.display (display_then state.serial state.display byte) moment (page_sent state) (running_by state.serial state.power byte) memory.entry.ram.now memory.entry.icons.now }
{
    state.scan.byte(
        state.display,
        display_then(state.serial, state.display, byte),
        moment,
        page_sent(state),
        running_by(state.serial, state.power, byte),
        memory,
    )
}

// A whole byte, or the refusal of the scan. The other checks have been made.
pub(crate) fn byte(
    state: Nt7508,
    byte: u8,
    moment: Checked<Time>,
    memory: Memory<'_>,
) -> Result<Stepped, Refusal>
    requires memory_value { memory_ok memory.ram.now memory.icons.now ≡ true }
    requires state_value { valid_state state ≡ true }
    ensures { left_by number (unstored_of state) result ≡ changed (check_scan state.scan) (byte_taken state byte moment.value memory.entry.ram.now memory.entry.icons.now) (unstored_of state) }
{
    let scan = scan_by(state, byte, moment.value, memory)?;
    Ok(step(with_scan(state, scan), byte, moment.value))
}
