// Selecting, the data line, supply, temperature, the start-up wait and the loss of memory.
ghost use Rattle.std.specs.Prelude.{◌≡◌, ◌+◌, true, None};
ghost use Rattle.clock.specs.Time.{raw, time_of, micros_raw};
ghost use Rattle.controller.specs.Check.{answered};
ghost use Rattle.controller.specs.Supply.{selected_as, fallen as fallen_of, chilled as chilled_of, cold_risen, warm_risen, risen as risen_of, switched as switched_of, railed as railed_of, select as select_of, command_data, set_temperature, set_supply, at_deadline, lost_by, lose_volatile};

use crate::byte::conditions_of;
use crate::check::{Refusal, check_memory, check_moment, supplied_at};
use crate::state::{Nt7508, Serial, with_scan};
use checks::{Check, Checked};
use clock::{Duration, Time};
use scan::Memory;

// The start-up wait after a cold rise, in microseconds.
const WAIT: u64 = 21;

// A change of selection drops the bits under way; an awaited parameter stays.
#[tactic(auto, unfolding(crate::specs::Supply::selected_as))]
fn selected_as(serial: Serial, on: bool) -> Serial
    ensures { result ≡ selected_as serial on }
{
    let mut next = serial;
    next.selected = on;
    if serial.selected != on {
        next.shift = 0;
        next.bits = 0;
    }
    next
}

// A fall counts the scan, stops its clock, deselects and drops the wait.
fn fallen(state: Checked<Nt7508>, now: Checked<Time>) -> Nt7508
    ensures { result ≡ fallen_of state.value now.value }
{
    let display = state.value.display;
    let scan = state.value.scan.fall(display, now.value).unwrap();
    let mut next = with_scan(state.value, scan);
    next.power.ready = None;
    next.serial = selected_as(state.value.serial, false);
    next
}

// Rail 0 marks cold.
#[tactic(auto, unfolding(crate::specs::State::with_power))]
fn chilled(state: Nt7508, millivolts: u16) -> Nt7508
    ensures { result ≡ chilled_of state millivolts }
{
    let mut next = state;
    next.power.cold |= millivolts == 0;
    next
}

// The end of the wait. A time in range is far from overflow.
fn wait_end(now: Checked<Time>) -> Time
    ensures { result ≡ time_of (raw now.value + micros_raw 21) }
{
    now.value.checked_add(Duration::from_micros(WAIT)).unwrap()
}

// A cold rise returns to power-on settings, keeps the temperature, stays cold and waits.
fn cold_risen(state: Nt7508, now: Checked<Time>) -> Nt7508
    ensures { result ≡ cold_risen state now.value }
{
    let mut first = Nt7508::new();
    first.power.temperature_millicelsius = state.power.temperature_millicelsius;
    first.power.cold = true;
    first.power.ready = Some(wait_end(now));
    first
}

// A warm rise keeps settings and updates the clock.
fn warm_risen(state: Checked<Nt7508>, now: Checked<Time>) -> Nt7508
    ensures { result ≡ warm_risen state.value now.value }
{
    let display = state.value.display;
    let runs = conditions_of(state.value.power).runs();
    let scan = state.value.scan.rise(display, now.value, runs).unwrap();
    with_scan(state.value, scan)
}

#[tactic(auto, unfolding(crate::specs::Supply::risen))]
fn risen(state: Checked<Nt7508>, now: Checked<Time>) -> Nt7508
    ensures { result ≡ risen_of state.value now.value }
{
    if state.value.power.cold {
        return cold_risen(state.value, now);
    }
    warm_risen(state, now)
}

// A fall where the supply ceases, cold at 0, a rise where it returns. The supply itself is not set yet.
fn switched(state: Checked<Nt7508>, millivolts: u16, now: Checked<Time>) -> Nt7508
    ensures { result ≡ switched_of state.value millivolts now.value }
{
    let on = supplied_at(millivolts);
    let supplied = state.value.power.supplied;
    if supplied & !on {
        return chilled(fallen(state, now), millivolts);
    }
    if on & !supplied {
        let value = chilled(state.value, millivolts);
        return risen(Checked { value }, now);
    }
    chilled(state.value, millivolts)
}

// The supply set, with what a fall or a rise does.
#[tactic(auto, unfolding(crate::specs::Supply::railed, crate::specs::State::with_power))]
fn railed(state: Checked<Nt7508>, millivolts: u16, now: Checked<Time>) -> Nt7508
    ensures { result ≡ railed_of state.value millivolts now.value }
{
    let mut next = switched(state, millivolts, now);
    next.power.supplied = supplied_at(millivolts);
    next.power.supply_millivolts = millivolts;
    next
}

impl Nt7508 {
    // The supply in millivolts.
    #[tactic(auto, unfolding(crate::specs::Supply::set_supply))]
    pub fn set_supply(self, millivolts: u16, now: Time) -> Result<Self, Refusal>
        ensures { answered self result ≡ set_supply self millivolts now }
    {
        check_moment(self, now)?;
        Ok(railed(Checked { value: self }, millivolts, Checked { value: now }))
    }

    // The deadline call, which ends the wait at its exact time.
    #[tactic(auto, unfolding(crate::specs::Supply::at_deadline, crate::specs::Supply::deadline_met, crate::specs::State::with_power))]
    pub fn at_deadline(self, now: Time) -> Result<Self, Refusal>
        ensures { answered self result ≡ at_deadline self now }
    {
        check_moment(self, now)?;
        let mut next = self;
        // Only a call at the exact time ends the wait, and only then is cold cleared.
        if self.power.ready == Some(now) {
            next.power.cold = false;
            next.power.ready = None;
        }
        Ok(next)
    }

    #[tactic(auto, unfolding(crate::specs::Supply::select, crate::specs::State::with_serial))]
    pub fn select(self, on: bool) -> Result<Self, Refusal>
        ensures { answered self result ≡ select_of self on }
    {
        self.check()?;
        let mut next = self;
        next.serial = selected_as(self.serial, on);
        Ok(next)
    }

    // The data line: data, or commands.
    #[tactic(auto, unfolding(crate::specs::Supply::command_data, crate::specs::State::with_serial))]
    pub fn command_data(self, on: bool) -> Result<Self, Refusal>
        ensures { answered self result ≡ command_data self on }
    {
        self.check()?;
        let mut next = self;
        next.serial.data = on;
        Ok(next)
    }

    #[tactic(auto, unfolding(crate::specs::Supply::set_temperature, crate::specs::State::with_power))]
    pub fn set_temperature(self, millicelsius: i32) -> Result<Self, Refusal>
        ensures { answered self result ≡ set_temperature self millicelsius }
    {
        self.check()?;
        let mut next = self;
        next.power.temperature_millicelsius = millicelsius;
        Ok(next)
    }

    // The loss of memory: RAM and icons all 0, and cold. The two are written, and stay apart, as `keep` of bits.rt
    // says.
    #[tactic(auto, unfolding(crate::specs::Supply::lose_volatile, crate::specs::State::with_power, crate::specs::Supply::zeros))]
    pub fn lose_volatile(self, ram: &mut [u8], icons: &mut [u8]) -> Result<Self, Refusal>
        ensures { lost_by self result ram.new icons.new ≡ lose_volatile self ram.old icons.old }
    {
        check_memory(self, Memory { ram, icons })?;
        ram.fill(0);
        icons.fill(0);
        let mut next = self;
        next.power.cold = true;
        Ok(next)
    }
}
