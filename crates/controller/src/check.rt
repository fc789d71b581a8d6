// The checks of the controller and the table's order: document 01, 'Where a call is turned down'.
// State, moment and memory stay three parameters, here and in the calls: some calls take a moment and no memory, some
// memory and no moment, some neither, and along a byte the state alone changes.
ghost use Rattle.std.specs.Prelude.{◌≡◌, true, IfOk};
ghost use Rattle.std.proofs.Props.{props};
ghost use Rattle.checks.specs.Checks.{refused_by};
ghost use Rattle.scan.specs.Check.{by_clock};
ghost use Rattle.controller.specs.Closed.{check_registers, check_but_scan, registers_ok};
ghost use Rattle.controller.specs.Check.{number as number_of, of_scan, refused, awaits as awaits_of, valid_pending, valid_serial, valid_saved, valid_address, supplied_at, valid_power, valid_state, check_state, clock_not_later, ready_not_earlier, restore_ok, group_ok, check_moment, check_memory, check_lent, check_group, check_image, check_restore};
ghost use Rattle.controller.specs.declared.check.Refusal.TheVariants.{State};

use crate::state::{Address, ICON_PAGE, Nt7508, Power, Serial};
use checks::{Check, Numbered};
use clock::{Clock, Time};
use scan::{Memory, Scan, image_ok};

// Why a call is turned down.
#[derive(Clone, Copy, Debug, PartialEq, Eq)]
pub enum Refusal {
    Memory,
    Image,
    Time,
    State,
    Scan,
    Clock,
    Restore,
    Group,
}

impl Numbered for Refusal {
    ghost number = { number_of };

    fn number(self) -> u64 {
        match self {
            Refusal::Time => 1,
            Refusal::Memory => 2,
            Refusal::State => 3,
            Refusal::Scan => 4,
            Refusal::Clock => 5,
            Refusal::Restore => 6,
            Refusal::Group => 7,
            Refusal::Image => 8,
        }
    }
}

// A refusal of the scan keeps its number.
impl From<scan::Refusal> for Refusal {
    ghost from_gives = { λ why e. e ≡ of_scan why };

    fn from(why: scan::Refusal) -> Refusal {
        match why {
            scan::Refusal::Memory => Refusal::Memory,
            scan::Refusal::Image => Refusal::Image,
            scan::Refusal::Time => Refusal::Time,
            scan::Refusal::Settings => Refusal::State,
            scan::Refusal::Scan => Refusal::Scan,
            scan::Refusal::Clock => Refusal::Clock,
        }
    }
}

// A refusal of the clock keeps the number that it has of the scan.
impl From<clock::Refusal> for Refusal {
    ghost from_gives = { λ why e. e ≡ of_scan (by_clock why) };

    fn from(why: clock::Refusal) -> Refusal {
        Refusal::from(scan::Refusal::from(why))
    }
}

// Voltages are turned down for their settings alone, which are the state's.
impl From<voltage::Refusal> for Refusal {
    ghost from_gives = { λ _ e. e ≡ State };

    fn from(why: voltage::Refusal) -> Refusal {
        match why {
            voltage::Refusal::Settings => Refusal::State,
        }
    }
}

// Whether a command byte awaits a parameter.
#[tactic(auto, unfolding(crate::specs::Check::awaits))]
pub(crate) fn awaits(byte: u8) -> bool
    ensures { result ≡ awaits_of byte }
{
    matches!(byte, 0x40..=0x4f | 0x81 | 0x88..=0x8f | 0xf1 | 0xf3 | 0xf4 | 0xf6 | 0xf7)
}

#[tactic(auto, unfolding(crate::specs::Check::valid_pending))]
fn valid_pending(pending: Option<u8>) -> bool
    ensures { result ≡ valid_pending pending }
{
    pending.is_none_or(awaits)
}

#[tactic(auto, unfolding(crate::specs::Check::valid_serial))]
fn valid_serial(serial: Serial) -> bool
    ensures { result ≡ valid_serial serial }
{
    (serial.bits < 8) & valid_pending(serial.pending)
}

#[tactic(auto, unfolding(crate::specs::Check::valid_saved))]
fn valid_saved(saved: Option<u16>) -> bool
    ensures { result ≡ valid_saved saved }
{
    saved.is_none_or(|column| column < 256)
}

#[tactic(auto, unfolding(crate::specs::Check::valid_address))]
fn valid_address(address: Address) -> bool
    ensures { result ≡ valid_address address }
{
    (address.page <= ICON_PAGE) & (address.column_byte < 256) & valid_saved(address.saved_column)
}

// Whether a supply counts as one. The scan grounds its electrodes from as many millivolts on, by a rule of its own.
pub(crate) fn supplied_at(millivolts: u16) -> bool
    ensures { result ≡ supplied_at millivolts }
{
    1650 <= millivolts
}

#[tactic(auto, unfolding(crate::specs::Check::valid_power))]
fn valid_power(power: Power) -> bool
    ensures { result ≡ valid_power power }
{
    power.supplied == supplied_at(power.supply_millivolts)
}

impl Nt7508 {
    // Number 3: `validate`'s conditions, and a pending byte that awaits a parameter. Inline, and so no state
    // need be put into memory for it on a byte's way.
    #[inline(always)]
    #[tactic(auto, unfolding(crate::specs::Check::valid_state))]
    pub(crate) fn valid(&self) -> bool
        ensures { result ≡ valid_state self.now }
    {
        valid_serial(self.serial)
            & valid_address(self.address)
            & self.display.valid()
            & self.analog.valid()
            & valid_power(self.power)
    }
}

// Numbers 3, 4 and 5.
impl Check for Nt7508 {
    type Refusal = Refusal;

    ghost refusal = { check_state };

    #[tactic(auto, unfolding(crate::specs::Check::check_state))]
    fn check(self) -> Result<(), Refusal> {
        if !self.valid() {
            return Err(Refusal::State);
        }
        self.scan.check()?;
        Ok(())
    }
}

// The checks of a call that takes a moment. Not inline: with two refusals in sight the compiler copies the answer of
// such a call once more.
#[inline(never)]
#[tactic(auto, using(crate::proofs::Checks::first_none), unfolding(crate::specs::Check::check_moment, crate::specs::Check::in_order))]
pub(crate) fn check_moment(state: Nt7508, now: Time) -> Result<(), Refusal>
    ensures { refused result ≡ check_moment state now }
{
    now.check()?;
    state.check()
}

// The checks of a call that takes lent memory.
#[tactic(auto, using(crate::proofs::Checks::first_none), unfolding(crate::specs::Check::check_memory, crate::specs::Check::in_order))]
pub(crate) fn check_memory(state: Nt7508, memory: Memory<'_>) -> Result<(), Refusal>
    ensures { refused result ≡ check_memory state memory.entry.ram.now memory.entry.icons.now }
{
    memory.check()?;
    state.check()
}

// The checks of a call that takes a moment, but for the scan's: numbers 1 and 3. Not inline: put into `update` it costs
// that call some 100 instructions, and a refusal with 5 a fifth of its time.
#[inline(never)]
#[tactic(auto, unfolding(crate::specs::Closed::check_registers))]
pub(crate) fn check_registers(state: &Nt7508, now: Time) -> Result<(), Refusal>
    ensures { refused result ≡ check_registers state.now now }
{
    now.check()?;
    if !state.valid() {
        return Err(Refusal::State);
    }
    Ok(())
}

// The checks of a call that takes both, but for the scan's: numbers 2, 1 and 3. Inline, with the tests themselves and not
// by `check_registers`: a drive then copies no state for them, and was 5 to 12 ns faster.
#[inline(always)]
#[tactic(auto, unfolding(crate::specs::Closed::check_registers, crate::specs::Closed::check_but_scan))]
pub(crate) fn check_but_scan(
    state: &Nt7508,
    moment: Time,
    memory: Memory<'_>,
) -> Result<(), Refusal>
    ensures { refused result ≡ check_but_scan state.now moment memory.entry.ram.now memory.entry.icons.now }
{
    memory.check()?;
    moment.check()?;
    if !state.valid() {
        return Err(Refusal::State);
    }
    Ok(())
}

// The checks of a call that takes both.
#[tactic(auto, using(crate::proofs::Checks::first_none), unfolding(crate::specs::Check::check_lent, crate::specs::Closed::check_but_scan, crate::specs::Check::in_order, crate::specs::Check::check_state))]
fn check_lent(state: &Nt7508, moment: Time, memory: Memory<'_>) -> Result<(), Refusal>
    ensures { refused result ≡ check_lent state.now moment memory.entry.ram.now memory.entry.icons.now }
{
    check_but_scan(state, moment, memory)?;
    state.scan.check()?;
    Ok(())
}

// A group of bits that passed number 7. The public calls take its two numbers apart, as C hands them.
#[derive(Clone, Copy)]
pub(crate) struct Group {
    pub(crate) bits: u8,
    pub(crate) count: u8,
    pub ghost fits: { group_ok bits count ≡ true } by { Prim.hlevel props },
}

// Number 7: a count up to 8, and no bit set at or above it.
fn group_ok(bits: u8, count: u8) -> bool
    ensures { result ≡ group_ok bits count }
{
    if count > 8 {
        return false;
    }
    u16::from(bits) < 1 << count
}

// The rows of a group of bits but for the scan's: numbers 2, 1, 3 and 7. Inline, as the state's check is. Not
// `check_but_scan(..).is_ok()`: a byte of the fast path takes 81 ns so, 116 by it, and 89 by it put inline.
#[inline(always)]
#[tactic(auto, unfolding(crate::specs::Closed::registers_ok))]
pub(crate) fn registers_ok(
    state: Nt7508,
    bits: u8,
    count: u8,
    moment: Time,
    memory: Memory<'_>,
) -> bool
    ensures { result ≡ registers_ok state bits count moment memory.entry.ram.now memory.entry.icons.now }
{
    memory.fits() & moment.in_range() & state.valid() & group_ok(bits, count)
}

// The checks of a group of bits, which answer the group.
#[tactic(auto, using(crate::proofs::Checks::group_chain))]
pub(crate) fn check_group(
    state: Nt7508,
    bits: u8,
    count: u8,
    moment: Time,
    memory: Memory<'_>,
) -> Result<Group, Refusal>
    ensures refuses { refused_by number_of result ≡ check_group state bits count moment memory.entry.ram.now memory.entry.icons.now }
    ensures keeps { IfOk result (λ group. (group.bits ≡ bits) × (group.count ≡ count)) }
{
    check_lent(&state, moment, memory)?;
    if !group_ok(bits, count) {
        return Err(Refusal::Group);
    }
    Ok(Group { bits, count })
}

// The checks of an image of so many bytes. The scan's check of this name is of settings, and this one of a whole state.
#[tactic(auto, using(crate::proofs::Checks::first_none), unfolding(crate::specs::Check::check_image, crate::specs::Check::in_order))]
pub(crate) fn check_image(state: Nt7508, memory: Memory<'_>, bytes: usize) -> Result<(), Refusal>
    ensures { refused result ≡ check_image state memory.entry.ram.now memory.entry.icons.now bytes }
{
    memory.check()?;
    if !image_ok(bytes) {
        return Err(Refusal::Image);
    }
    state.check()
}

#[tactic(auto, unfolding(crate::specs::Check::clock_not_later))]
fn clock_not_later(clock: Option<Clock>, now: Time) -> bool
    ensures { result ≡ clock_not_later clock now }
{
    clock.is_none_or(|running| running.at <= now)
}

#[tactic(auto, unfolding(crate::specs::Check::ready_not_earlier))]
fn ready_not_earlier(ready: Option<Time>, now: Time) -> bool
    ensures { result ≡ ready_not_earlier ready now }
{
    ready.is_none_or(|end| now <= end)
}

// Number 6.
#[tactic(auto, unfolding(crate::specs::Check::restore_ok))]
fn restore_ok(scan: Scan, ready: Option<Time>, now: Time) -> bool
    ensures { result ≡ restore_ok scan ready now }
{
    clock_not_later(scan.ticking.clock, now) & ready_not_earlier(ready, now)
}

// The checks of a state that is restored. Not inline: a state whose fields are read where it is copied is copied in parts.
#[inline(never)]
#[tactic(auto, using(crate::proofs::Checks::first_none), unfolding(crate::specs::Check::check_restore, crate::specs::Check::check_lent, crate::specs::Check::in_order))]
pub(crate) fn check_restore(state: &Nt7508, now: Time, memory: Memory<'_>) -> Result<(), Refusal>
    ensures { refused result ≡ check_restore state.now now memory.entry.ram.now memory.entry.icons.now }
{
    check_lent(state, now, memory)?;
    if !restore_ok(state.scan, state.power.ready, now) {
        return Err(Refusal::Restore);
    }
    Ok(())
}
