// The checks of settings, scan and lent memory, and the table's order: document 01, 'Where a call is
// turned down', numbers 2, 8, 1, 3, 4 and 5.
//
// Calls take scan, settings and moment as three parameters, and no struct of them: along one call the scan
// changes step by step, and a byte has two groups of settings, so that a struct would be taken apart and put
// together at each step, with a copy of the scan. The checks by call differ in what they ask:
// `check_moment` no memory, `check_lent` memory too, `check_image` memory and an image, but no scan or moment.
ghost use Rattle.std.specs.Prelude.{◌≡◌, IfOk};
ghost use Rattle.checks.specs.Checks.{row, first_of};
ghost use Rattle.scan.specs.Check.{number as number_of, by_clock, refused, lines_ok, valid_settings, settings_row, valid_frame, valid_inversion, valid_scan, check_scan, memory_ok, image_ok, check_moment, check_lent, check_image, check_but_clock};

use crate::image::IMAGE_BYTES;
use crate::memory::{Lent, Memory};
use crate::settings::{Frame, Settings, frame_of, rows_in};
use crate::state::{Inversion, Scan};
use checks::{Check, Numbered};
use clock::Time;

// Why a call is turned down.
#[derive(Clone, Copy, Debug, PartialEq, Eq)]
pub enum Refusal {
    Memory,
    Image,
    Time,
    Settings,
    Scan,
    Clock,
}

// The numbers of document 01's table.
impl Numbered for Refusal {
    ghost number = { number_of };

    fn number(self) -> u64 {
        match self {
            Refusal::Memory => 2,
            Refusal::Image => 8,
            Refusal::Time => 1,
            Refusal::Settings => 3,
            Refusal::Scan => 4,
            Refusal::Clock => 5,
        }
    }
}

// A rate that is no LCD rate is number 4, as a scan's other conditions are.
impl From<clock::Refusal> for Refusal {
    ghost from_gives = { λ why given. given ≡ by_clock why };

    fn from(why: clock::Refusal) -> Refusal {
        match why {
            clock::Refusal::Time => Refusal::Time,
            clock::Refusal::Rate => Refusal::Scan,
            clock::Refusal::Clock => Refusal::Clock,
        }
    }
}

// Inversion by frame, or every 3 to 33 lines.
fn lines_ok(lines: u8) -> bool
    ensures { result ≡ lines_ok lines }
{
    (lines == 0) | ((3 <= lines) & (lines <= 33))
}

impl Settings {
    // The conditions of `validate` on these registers: number 3.
    pub fn valid(self) -> bool
        ensures { result ≡ valid_settings self }
    {
        valid_frame(frame_of(self))
            & lines_ok(self.inversion_lines)
            & (self.gray_mode <= 7)
            & (self.oscillator_control <= 3)
            & (self.oscillator_frequency <= 31)
    }
}

// Whether the frame settings are in range.
fn valid_frame(frame: Frame) -> bool
    ensures { result ≡ valid_frame frame }
{
    (16 <= frame.duty)
        & (frame.duty <= 128)
        & (frame.initial_com < 128)
        & (frame.start_line < 128)
        & ((frame.frc_count == 3) | (frame.frc_count == 4))
}

fn valid_inversion(inversion: Inversion) -> bool
    ensures { result ≡ valid_inversion inversion }
{
    lines_ok(inversion.lines) & ((inversion.lines == 0) | (inversion.count < inversion.lines))
}

impl Scan {
    // A scan condition of `validate`, or a rate that is no LCD rate: number 4.
    pub(crate) fn valid(self) -> bool
        ensures { result ≡ valid_scan self }
    {
        self.ticking.rate.is_lcd()
            & valid_frame(self.frame)
            & ((self.pwm == 9) | (self.pwm == 12) | (self.pwm == 15))
            & (self.step < self.pwm)
            & (self.frc < self.frame.frc_count)
            & (u16::from(self.row) < rows_in(self.frame))
            & valid_inversion(self.inversion)
    }

    // Number 5, of a clock that runs: what is left of the scan's check past number 4.
    fn check_clock(self) -> Result<(), Refusal>
        ensures { first_of (row 4 (valid_scan self)) (refused result) ≡ check_scan self }
    {
        if let Some(clock) = self.ticking.clock {
            clock.check(self.ticking.rate)?;
        }
        Ok(())
    }
}

// Numbers 4 and 5.
impl Check for Scan {
    type Refusal = Refusal;

    ghost refusal = { check_scan };

    #[tactic(auto, unfolding(crate::specs::Check::check_scan))]
    fn check(self) -> Result<(), Refusal> {
        if !self.valid() {
            return Err(Refusal::Scan);
        }
        self.check_clock()
    }
}

// Number 3.
impl Check for Settings {
    type Refusal = Refusal;

    ghost refusal = { settings_row };

    fn check(self) -> Result<(), Refusal> {
        if !self.valid() {
            return Err(Refusal::Settings);
        }
        Ok(())
    }
}

// Number 8.
pub fn image_ok(bytes: usize) -> bool
    ensures { result ≡ image_ok bytes }
{
    bytes == IMAGE_BYTES
}

// The checks of a call that takes a moment, but for number 5: some calls ask the clock themselves.
// `settings_ok` says that number 3 does not apply. It is a bool and no refusal, since a drive and a byte have two
// groups of settings: both are asked at this one place in the table's order.
#[tactic(auto, unfolding(crate::specs::Check::check_but_clock, crate::specs::Check::in_order))]
pub(crate) fn check_but_clock(scan: Scan, settings_ok: bool, now: Time) -> Result<(), Refusal>
    ensures { refused result ≡ check_but_clock scan settings_ok now }
{
    now.check()?;
    if !settings_ok {
        return Err(Refusal::Settings);
    }
    if !scan.valid() {
        return Err(Refusal::Scan);
    }
    Ok(())
}

// The same with number 5. Inline: drives were 1 to 8 ns faster so.
#[inline(always)]
#[tactic(auto, using(std::proofs::lemmas::Result::err_from_is_err_and), unfolding(crate::specs::Check::check_moment, crate::specs::Check::check_but_clock, crate::specs::Check::check_scan, crate::specs::Check::in_order))]
pub(crate) fn check_moment(scan: Scan, settings_ok: bool, now: Time) -> Result<(), Refusal>
    ensures { refused result ≡ check_moment scan settings_ok now }
{
    check_but_clock(scan, settings_ok, now)?;
    scan.check_clock()
}

// The checks of a call that takes a moment and memory, and the memory that passed.
#[tactic(auto, using(std::proofs::lemmas::Result::err_from_is_err_and), unfolding(crate::specs::Check::check_lent, crate::specs::Check::check_moment, crate::specs::Check::in_order))]
pub(crate) fn check_lent<'a>(
    scan: Scan,
    settings_ok: bool,
    moment: Time,
    memory: Memory<'a>,
) -> Result<Lent<'a>, Refusal>
    ensures refuses { refused result ≡ check_lent scan settings_ok moment memory.entry.ram.now memory.entry.icons.now }
    ensures keeps { IfOk result (λ lent. (lent.ram.now ≡ memory.entry.ram.now) × (lent.icons.now ≡ memory.entry.icons.now)) }
{
    let lent = memory.lent()?;
    check_moment(scan, settings_ok, moment)?;
    Ok(lent)
}

// The checks of a call that takes memory and an image of so many bytes, and the memory that passed.
#[tactic(auto, using(std::proofs::lemmas::Result::err_from_is_err_and), unfolding(crate::specs::Check::check_image, crate::specs::Check::in_order))]
pub(crate) fn check_image<'a>(
    settings: Settings,
    memory: Memory<'a>,
    bytes: usize,
) -> Result<Lent<'a>, Refusal>
    ensures refuses { refused result ≡ check_image settings memory.entry.ram.now memory.entry.icons.now bytes }
    ensures keeps { IfOk result (λ lent. (lent.ram.now ≡ memory.entry.ram.now) × (lent.icons.now ≡ memory.entry.icons.now)) }
{
    let passed = memory.lent()?;
    if !image_ok(bytes) {
        return Err(Refusal::Image);
    }
    settings.check()?;
    Ok(passed)
}
