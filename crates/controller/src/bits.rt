// Bits clocked in: one rising edge of the serial clock, and a group of them. `take` checks, takes the
// bits and says what is to be stored; `rising` and `shift_in` store it in lent memory.
ghost use Rattle.std.specs.Prelude.{◌≡◌, true, false, ◌+◌, ◌*◌, ◌%◌, ◌^◌, ◌≤◌, ◌<◌};
ghost use Rattle.controller.specs.Event.{ram_after, icons_after};
ghost use Rattle.controller.specs.Bits.{taking as taking_of, with_bits, received, taken, rising as rising_of, shift_in};
ghost use Rattle.controller.specs.State.{with_serial};
ghost use Rattle.controller.specs.Closed.{registers_ok, completes as completes_of, Short};

use crate::byte::byte;
use crate::check::{Group, Refusal, check_group, registers_ok};
use crate::event::{Event, Stepped, Store, unstored};
use crate::state::Nt7508;
use checks::Checked;
use clock::Time;
use scan::Memory;

// The state after bits, and the event of the byte that they completed, if they did.
#[derive(Clone, Copy, Debug, PartialEq, Eq)]
pub struct Received {
    pub state: Nt7508,
    pub event: Option<Event>,
}

// Bits are taken only while selected, supplied and ready.
#[tactic(auto, unfolding(crate::specs::Bits::taking))]
fn taking(state: Nt7508) -> bool
    ensures { result ≡ taking_of state }
{
    state.serial.selected & state.power.supplied & state.power.ready.is_none()
}

#[tactic(auto, unfolding(crate::specs::State::with_serial))]
fn with_bits(state: Nt7508, shift: u8, bits: u8) -> Nt7508
    ensures { result ≡ with_serial state (with_bits state.serial shift bits) }
{
    let mut next = state;
    next.serial.shift = shift;
    next.serial.bits = bits;
    next
}

// A number with the bits of a group below it; eight bits remain.
#[tactic(auto, using(crate::proofs::Groups::group_count))]
fn joined(shift: u8, group: Group) -> u8
    ensures { result ≡ (shift * 2 ^ group.count + group.bits) % 256 }
{
    let high = u32::from(shift) << group.count;
    ((high + u32::from(group.bits)) % 256) as u8
}

// Bits that are taken and complete no byte.
fn grown(state: Nt7508, group: Group) -> Nt7508
    requires { state.serial.bits + group.count < 8 }
    ensures { result ≡ with_serial state (with_bits state.serial ((state.serial.shift * 2 ^ group.count + group.bits) % 256) (state.serial.bits + group.count)) }
{
    with_bits(
        state,
        joined(state.serial.shift, group),
        state.serial.bits + group.count,
    )
}

// Whether so many bits are taken and complete a byte.
#[tactic(auto, unfolding(crate::specs::Closed::completes))]
pub(crate) fn completes(state: Nt7508, count: u8) -> bool
    ensures { result ≡ completes_of state count }
{
    taking(state) & (8 <= u16::from(state.serial.bits) + u16::from(count))
}

// A group that completes no byte.
fn short(state: Nt7508, group: Group) -> Nt7508
    requires { completes_of state group.count ≡ false }
    ensures { Short state group.bits group.count result }
{
    if !taking(state) {
        return state;
    }
    grown(state, group)
}

// A group that completes a byte. Its checks have been made, but for the scan's. Not inline: it has large locals,
// which an edge that completes no byte would pay for too.
#[inline(never)]
fn whole(state: Nt7508, group: Group, moment: Time, memory: Memory<'_>) -> Result<Stepped, Refusal>
    requires registers { registers_ok state group.bits group.count moment memory.ram.now memory.icons.now ≡ true }
    requires count_value { completes_of state group.count ≡ true }
    ensures { taken state result memory.entry.ram.now memory.entry.icons.now ≡ shift_in state group.bits group.count moment memory.entry.ram.now memory.entry.icons.now }
{
    let needed = 8 - state.serial.bits;
    let rest = group.count - needed;
    let first = Group {
        bits: group.bits >> rest,
        count: needed,
    };
    let value = joined(state.serial.shift, first);
    let taken = Checked { value: moment };
    let mut stepped = byte(with_bits(state, 0, 0), value, taken, memory)?;
    let last = Group {
        bits: group.bits % (1 << rest),
        count: rest,
    };
    stepped.state = grown(stepped.state, last);
    Ok(stepped)
}

// Stores the byte in lent memory, if there is one to be stored. Memory that is written stays two slices here and
// in the calls below: of a struct of two `&mut` a clause would have to say `memory.exit.0.now` and
// `memory.exit.1.0.now`, and a call that hands it on would lose what it knew.
pub(crate) fn keep(store: Option<Store>, ram: &mut [u8], icons: &mut [u8])
    ensures ram_after { ram.new ≡ ram_after store ram.old }
    ensures icons_after { icons.new ≡ icons_after store icons.old }
{
    match store {
        None => {}
        Some(Store::Ram { at, value }) => {
            if at < ram.len() {
                ram[at] = value;
            }
        }
        Some(Store::Icon { at, value }) => {
            if at < icons.len() {
                icons[at] = value;
            }
        }
    }
}

impl Nt7508 {
    // `count` rising edges, the oldest the highest of `bits`. It reads lent memory and writes none.
    pub fn take(
        self,
        bits: u8,
        count: u8,
        moment: Time,
        memory: Memory<'_>,
    ) -> Result<Stepped, Refusal>
        ensures { taken self result memory.entry.ram.now memory.entry.icons.now ≡ shift_in self bits count moment memory.entry.ram.now memory.entry.icons.now }
    {
        if registers_ok(self, bits, count, moment, memory) & completes(self, count) {
            return whole(self, Group { bits, count }, moment, memory);
        }
        let group = check_group(self, bits, count, moment, memory)?;
        Ok(unstored(short(self, group)))
    }

    // `count` rising edges of the serial clock at once, the oldest the highest of `bits`.
    pub fn shift_in(
        self,
        bits: u8,
        count: u8,
        moment: Time,
        ram: &mut [u8],
        icons: &mut [u8],
    ) -> Result<Received, Refusal>
        ensures { received self result ram.new icons.new ≡ shift_in self bits count moment ram.old icons.old }
    {
        let stepped = self.take(bits, count, moment, Memory { ram, icons })?;
        keep(stepped.store, ram, icons);
        Ok(Received {
            state: stepped.state,
            event: stepped.event,
        })
    }

    // One rising edge of the serial clock.
    #[tactic(auto, using(crate::proofs::Groups::one_bit))]
    pub fn rising(
        self,
        bit: bool,
        moment: Time,
        ram: &mut [u8],
        icons: &mut [u8],
    ) -> Result<Received, Refusal>
        ensures { received self result ram.new icons.new ≡ rising_of self bit moment ram.old icons.old }
    {
        self.shift_in(u8::from(bit), 1, moment, ram, icons)
    }
}
