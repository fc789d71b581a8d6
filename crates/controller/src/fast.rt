// The fast path of a byte: eight bits at once with none under way, data or a command that sets the
// address or nothing, to a scan that goes on as it did. Only scan, address and memory change then, so
// that the other registers need not be handed over. Any other group goes by bits.rt.
ghost use Rattle.std.specs.Prelude.{◌≡◌};
ghost use Rattle.controller.specs.Event.{ram_after, icons_after};
ghost use Rattle.controller.specs.Fast.{addressing as addressing_of, keeps as keeps_of, registers_stay, fast_step_of, fast_step, stored};

use crate::bits::{completes, keep};
use crate::byte::{conditions_of, next_column, page_sent, store_of};
use crate::check::registers_ok;
use crate::command::address_after;
use crate::event::{Event, Store};
use crate::state::{Address, Nt7508, Serial};
use clock::Time;
use scan::{Memory, Running, Scan};

// What a byte of the fast path leaves: the scan and the address after it, its event, and the byte that is
// to be stored, if any.
#[derive(Clone, Copy, Debug, PartialEq, Eq)]
pub struct FastStep {
    pub scan: Scan,
    pub address: Address,
    pub event: Event,
    pub store: Option<Store>,
}

// Commands that set page or column, or nothing.
fn addressing(byte: u8) -> bool
    ensures { result ≡ addressing_of byte }
{
    matches!(byte, 0x00..=0x1f | 0xb0..=0xbf | 0xe3)
}

// A byte that leaves every register but the address as it is.
fn keeps(serial: Serial, byte: u8) -> bool
    ensures { result ≡ keeps_of serial byte }
{
    serial.data | (serial.pending.is_none() & addressing(byte))
}

// The step of a byte that leaves every register but the address, with the scan after it.
#[tactic(auto, unfolding(crate::specs::Fast::fast_step_of))]
fn fast_step(scan: Scan, serial: Serial, address: Address, byte: u8, now: Time) -> FastStep
    ensures { result ≡ fast_step_of scan serial address byte now }
{
    if serial.data {
        return FastStep {
            scan,
            address: next_column(address),
            event: Event::Write {
                at: now,
                page: address.page,
                column: address.column_byte,
                value: byte,
            },
            store: Some(store_of(address, byte)),
        };
    }
    FastStep {
        scan,
        address: address_after(address, byte),
        event: Event::Control {
            at: now,
            command: byte,
            parameter: None,
        },
        store: None,
    }
}

// The registers of a byte pass, it is whole, and it keeps them.
#[tactic(auto, unfolding(crate::specs::Fast::registers_stay))]
fn registers_stay(state: Nt7508, byte: u8, moment: Time, memory: Memory<'_>) -> bool
    ensures { result ≡ registers_stay state byte moment memory.entry.ram.now memory.entry.icons.now }
{
    registers_ok(state, byte, 8, moment, memory)
        & completes(state, 8)
        & (state.serial.bits == 0)
        & keeps(state.serial, byte)
}

impl Nt7508 {
    // A byte by the fast path; none, where it does not take it. It reads lent memory and writes none.
    fn fast_take(self, byte: u8, moment: Time, memory: Memory<'_>) -> Option<FastStep>
        ensures { result ≡ fast_step self byte moment memory.entry.ram.now memory.entry.icons.now }
    {
        if !registers_stay(self, byte, moment, memory) {
            return None;
        }
        let runs = conditions_of(self.power).runs();
        let scan = self.scan.fast_byte(
            self.display,
            moment,
            page_sent(self),
            Running::after(runs, runs),
            memory,
        )?;
        Some(fast_step(scan, self.serial, self.address, byte, moment))
    }

    // A byte by the fast path, eight rising edges at once, and what it stores; nothing is done with another. Memory
    // is written, and stays two slices, as `keep` of bits.rt says.
    pub fn fast_byte(
        self,
        byte: u8,
        moment: Time,
        ram: &mut [u8],
        icons: &mut [u8],
    ) -> Option<FastStep>
        ensures tells { result ≡ fast_step self byte moment ram.old icons.old }
        ensures ram { ram.new ≡ ram_after (stored result) ram.old }
        ensures icons { icons.new ≡ icons_after (stored result) icons.old }
    {
        let step = self.fast_take(byte, moment, Memory { ram, icons })?;
        keep(step.store, ram, icons);
        Some(step)
    }
}
