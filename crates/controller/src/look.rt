// The calls that read the controller and change nothing: voltages, drive, image, the edges until a byte
// completes, the end of the wait, the setting finder; and `restore`, which hands a state back.
ghost use Rattle.std.specs.Prelude.{◌≡◌, ◌<◌};
ghost use Rattle.controller.specs.Check.{answered};
ghost use Rattle.controller.specs.Look.{answered_voltages, voltages_of, answered_drive, drive_of, painted, render_of, effect_edges, answered_edges, serial_effect_edges, answered_deadline, deadline_of, SaysOf, restore as restore_of};

use crate::byte::conditions_of;
use crate::check::{Refusal, check_but_scan, check_image, check_restore};
use crate::state::{Nt7508, Serial};
use checks::Check;
use clock::Time;
use scan::{Driven, Memory};
use voltage::LcdVoltages;
use voltage::finder::Pair;

// Serial clock edges until the byte completes, from the clock's level.
#[tactic(auto, unfolding(crate::specs::Look::effect_edges))]
fn effect_edges(serial: Serial, high: bool) -> u8
    requires { serial.bits < 8 }
    ensures { result ≡ effect_edges serial high }
{
    if !serial.selected {
        return 16;
    }
    if high {
        return (8 - serial.bits) * 2;
    }
    (8 - serial.bits) * 2 - 1
}

impl Nt7508 {
    // V0 to V4 with the present settings.
    #[tactic(auto, unfolding(crate::specs::Look::voltages_of))]
    pub fn voltages(self) -> Result<LcdVoltages, Refusal>
        ensures { answered_voltages result ≡ voltages_of self }
    {
        self.check()?;
        let levels = voltage::voltages(self.analog, conditions_of(self.power).supply)?;
        Ok(levels)
    }

    // The drive at a moment, and the frame length of the scan shown.
    pub fn drive(self, moment: Time, memory: Memory<'_>) -> Result<Driven, Refusal>
        ensures { answered_drive result ≡ drive_of self moment memory.entry.ram.now memory.entry.icons.now }
    {
        check_but_scan(&self, moment, memory)?;
        // The scan's own call checks the scan.
        let driven = scan::drive::drive(
            self.scan,
            self.display,
            self.analog,
            conditions_of(self.power),
            moment,
            memory,
        )?;
        Ok(driven)
    }

    // The gray image of the glass, in 6,144 lent bytes.
    pub fn render(self, memory: Memory<'_>, pixels: &mut [u8]) -> Result<(), Refusal>
        ensures { painted result pixels.new ≡ render_of self memory.entry.ram.now memory.entry.icons.now pixels.old }
    {
        check_image(self, memory, pixels.len())?;
        let driven = conditions_of(self.power).driven();
        scan::render(self.display, driven, memory, pixels)?;
        Ok(())
    }

    // Serial clock edges until the byte completes, from the clock's level.
    #[tactic(auto, using(crate::proofs::Checks::bits_below), unfolding(crate::specs::Look::serial_effect_edges))]
    pub fn serial_effect_edges(self, high: bool) -> Result<u8, Refusal>
        ensures { answered_edges result ≡ serial_effect_edges self high }
    {
        self.check()?;
        Ok(effect_edges(self.serial, high))
    }

    // The end of the wait; none where there is no wait.
    #[tactic(auto, unfolding(crate::specs::Look::deadline_of))]
    pub fn deadline(self) -> Result<Option<Time>, Refusal>
        ensures { answered_deadline result ≡ deadline_of self }
    {
        self.check()?;
        Ok(self.power.ready)
    }

    // Some regulator and contrast whose target lies in a band, both ends in. The ends stay two numbers, as C hands
    // them: no call but voltage's finder, which takes them so too, reads them.
    pub fn find_setting(self, low: u32, high: u32) -> Result<Option<Pair>, Refusal>
        ensures { SaysOf self low high result }
    {
        self.check()?;
        let temperature = self.power.temperature_millicelsius;
        let found = voltage::finder::find_setting(self.analog, temperature, low, high)?;
        Ok(found)
    }

    // A state that was saved elsewhere, with its RAM and icons: handed back if no check turns it down.
    #[tactic(auto, unfolding(crate::specs::Look::restore))]
    pub fn restore(self, moment: Time, memory: Memory<'_>) -> Result<Self, Refusal>
        ensures { answered self result ≡ restore_of self moment memory.entry.ram.now memory.entry.icons.now }
    {
        check_restore(&self, moment, memory)?;
        Ok(self)
    }
}
