// The registers that counting, latch and image read, and what they say of the scan.
ghost use Rattle.std.specs.Prelude.{◌≡◌, ◌%◌, ◌==◌};
ghost use Rattle.scan.specs.Settings.{pwm_of, frc_count_of, frame_of, rows_in, rate_of};

use clock::Rate;

#[derive(Clone, Copy, Debug, PartialEq, Eq)]
pub struct Settings {
    pub start_line: u8,
    pub icon_enabled: bool,
    pub entire_on: bool,
    pub reverse: bool,
    pub segment_reverse: bool,
    pub common_reverse: bool,
    pub initial_com: u8,
    pub duty: u8,
    pub inversion_lines: u8,
    pub gray_mode: u8,
    pub palette: [u8; 8],
    pub oscillator_control: u8,
    pub oscillator_frequency: u8,
}

impl Settings {
    // Whether oscillator control leaves a scan its clock: bit 0 drops it.
    pub(crate) fn keeps_clock(self) -> bool
        ensures { result ≡ (self.oscillator_control % 2 == 0) }
    {
        self.oscillator_control % 2 == 0
    }
}

// The settings that a frame end takes, and the scan holds until the next.
#[derive(Clone, Copy, Debug, PartialEq, Eq)]
pub struct Frame {
    pub duty: u8,
    pub icon: bool,
    pub initial_com: u8,
    pub common_reverse: bool,
    pub start_line: u8,
    pub frc_count: u8,
}

// Quanta in a row, by the two low bits of the gray mode.
const PWM: [u8; 4] = [9, 9, 12, 15];

pub(crate) fn pwm_of(gray_mode: u8) -> u8
    ensures { result ≡ pwm_of gray_mode }
{
    PWM[usize::from(gray_mode % 4)]
}

pub(crate) fn frc_count_of(gray_mode: u8) -> u8
    ensures { result ≡ frc_count_of gray_mode }
{
    if gray_mode / 4 % 2 == 0 { 4 } else { 3 }
}

pub(crate) fn frame_of(settings: Settings) -> Frame
    ensures { result ≡ frame_of settings }
{
    Frame {
        duty: settings.duty,
        icon: settings.icon_enabled,
        initial_com: settings.initial_com,
        common_reverse: settings.common_reverse,
        start_line: settings.start_line,
        frc_count: frc_count_of(settings.gray_mode),
    }
}

pub(crate) fn rows_in(frame: Frame) -> u16
    ensures { result ≡ rows_in frame }
{
    if frame.icon {
        return u16::from(frame.duty) + 1;
    }
    u16::from(frame.duty)
}

// The rate of the settings and the rows of a frame.
pub(crate) fn rate_of(settings: Settings, frame: Frame) -> Rate
    ensures { result ≡ rate_of settings (rows_in frame) }
{
    Rate::lcd(
        settings.oscillator_control,
        settings.oscillator_frequency,
        rows_in(frame),
    )
}
