// The controller's state as a block of 75 words, a word for each field, in the order in which the
// groups declare them:
//   0 whether the scan's clock runs, 1 to 8 that clock (clock_words.rt), 9 and 10 the scan's rate
//   11 and 12 the segments of the latch, 13 latched
//   14 duty, 15 icon, 16 initial_com, 17 common_reverse, 18 start_line, 19 frc_count of the frame
//   20 pwm, 21 row, 22 step, 23 frc; 24 lines, 25 count, 26 inverted of the inversion
//   27 start_line, 28 icon_enabled, 29 entire_on, 30 reverse, 31 segment_reverse, 32 common_reverse,
//   33 initial_com, 34 duty, 35 inversion_lines, 36 gray_mode, 37 to 44 palette,
//   45 oscillator_control, 46 oscillator_frequency
//   47 contrast, 48 contrast_trim, 49 otp_control, 50 regulator, 51 power_control, 52 booster,
//   53 bias, 54 temperature_slope
//   55 display_on, 56 power_save, 57 oscillator_enabled, 58 supplied, 59 supply_millivolts,
//   60 temperature_millicelsius, counted from -2^31, 61 cold, 62 whether it waits, 63 and 64 until when
//   65 page, 66 column_byte, 67 whether a column is saved, 68 which
//   69 selected, 70 data, 71 shift, 72 bits, 73 whether a command awaits a parameter, 74 which
// Yes is 1 and no is 0. What is not there has words of 0, and is not read.
ghost use Rattle.std.specs.Prelude.{◌≡◌, true, false, MatchOption};
ghost use Rattle.std.specs.Borrow.{sem, LendsIf, Array, u64};
ghost use Rattle.ffi.specs.StateWords.{flags_fit, bytes_fit, wider_fit, holds_state, clock_in, scan_in, display_in, analog_in, temperature_of, ready_in, power_in, saved_in, address_in, pending_in, serial_in, state_of, scan_part, display_part, analog_part, temperature_word, power_part, address_part, serial_part, state_words};

use crate::scan_words::{running_of, running_words};
use crate::words::{Words, optional_words};
use clock::{Clock, Rate, Time};
use controller::{Address, Nt7508, Power, Serial};
use scan::{Frame, Inversion, Latch, Scan, Ticking};

// The words of a state.
pub type Block = [u64; 75];

// Each word fits its field: a yes or no, a byte, or what is wider. Tests of one kind stand together, for the
// compiler joins them: some 15 ns, where iterators over tables of places took 55 (tried).
fn flags_fit(w: &Block) -> bool
    ensures { result ≡ flags_fit w.now }
{
    (w[0] < 2)
        & (w[13] < 2)
        & (w[15] < 2)
        & (w[17] < 2)
        & (w[26] < 2)
        & (w[28] < 2)
        & (w[29] < 2)
        & (w[30] < 2)
        & (w[31] < 2)
        & (w[32] < 2)
        & (w[55] < 2)
        & (w[56] < 2)
        & (w[57] < 2)
        & (w[58] < 2)
        & (w[61] < 2)
        & (w[62] < 2)
        & (w[67] < 2)
        & (w[69] < 2)
        & (w[70] < 2)
        & (w[73] < 2)
}

fn bytes_fit(w: &Block) -> bool
    ensures { result ≡ bytes_fit w.now }
{
    (w[14] < 256)
        & (w[16] < 256)
        & (w[18] < 256)
        & (w[19] < 256)
        & (w[20] < 256)
        & (w[21] < 256)
        & (w[22] < 256)
        & (w[23] < 256)
        & (w[24] < 256)
        & (w[25] < 256)
        & (w[27] < 256)
        & (w[33] < 256)
        & (w[34] < 256)
        & (w[35] < 256)
        & (w[36] < 256)
        & (w[37] < 256)
        & (w[38] < 256)
        & (w[39] < 256)
        & (w[40] < 256)
        & (w[41] < 256)
        & (w[42] < 256)
        & (w[43] < 256)
        & (w[44] < 256)
        & (w[45] < 256)
        & (w[46] < 256)
        & (w[47] < 256)
        & (w[48] < 256)
        & (w[49] < 256)
        & (w[50] < 256)
        & (w[51] < 256)
        & (w[52] < 256)
        & (w[53] < 256)
        & (w[54] < 256)
        & (w[65] < 256)
        & (w[71] < 256)
        & (w[72] < 256)
        & (w[74] < 256)
}

fn wider_fit(w: &Block) -> bool
    ensures { result ≡ wider_fit w.now }
{
    (w[59] < 65536) & (w[60] < 4294967296) & (w[66] < 65536) & (w[68] < 65536)
}

// Whether a block holds a state: each word fits its field.
fn fits(w: &Block) -> bool
    ensures { result ≡ holds_state w.now }
{
    flags_fit(w) & bytes_fit(w) & wider_fit(w)
}

// Words as a block that holds a state: they have its length and fit their fields.
pub(crate) fn held(words: &[u64]) -> Option<&Block>
    ensures { MatchOption result (holds_state words.now ≡ false) (λ block. (holds_state words.now ≡ true) × (block.now ≡ words.now)) }
{
    let block = words.as_array()?;
    fits(block).then_some(block)
}

pub(crate) fn held_mut(words: &mut [u64]) -> Option<&mut Block>
    ensures is { MatchOption result (holds_state words.old ≡ false) (λ block. (holds_state words.old ≡ true) × (block.now ≡ words.old)) }
    ensures* writes_back { sem 𝓛 (LendsIf (Array u64 0) (Array u64 0) words.entry result (λ after. after) words.old) }
{
    held(words)?;
    words.as_mut_array()
}

#[tactic(auto, unfolding(crate::specs::StateWords::clock_in))]
fn clock_in(w: &Block) -> Option<Clock>
    ensures { result ≡ clock_in w.now }
{
    let words = [w[1], w[2], w[3], w[4], w[5], w[6], w[7], w[8]];
    running_of(w[0], &words)
}

// A word that fits its field keeps its value under `%`, which lets a proof see that `as` loses nothing.
#[tactic(auto, unfolding(crate::specs::StateWords::scan_in))]
pub(crate) fn scan_in(w: &Block) -> Scan
    ensures { result ≡ scan_in w.now }
{
    Scan {
        ticking: Ticking {
            clock: clock_in(w),
            rate: Rate {
                numerator: w[9],
                denominator: w[10],
            },
        },
        latch: Latch {
            segments: [w[11], w[12]],
            latched: w[13] != 0,
        },
        frame: Frame {
            duty: (w[14] % 256) as u8,
            icon: w[15] != 0,
            initial_com: (w[16] % 256) as u8,
            common_reverse: w[17] != 0,
            start_line: (w[18] % 256) as u8,
            frc_count: (w[19] % 256) as u8,
        },
        pwm: (w[20] % 256) as u8,
        row: (w[21] % 256) as u8,
        step: (w[22] % 256) as u8,
        frc: (w[23] % 256) as u8,
        inversion: Inversion {
            lines: (w[24] % 256) as u8,
            count: (w[25] % 256) as u8,
            inverted: w[26] != 0,
        },
    }
}

pub(crate) fn display_in(w: &Block) -> scan::Settings
    ensures { result ≡ display_in w.now }
{
    scan::Settings {
        start_line: (w[27] % 256) as u8,
        icon_enabled: w[28] != 0,
        entire_on: w[29] != 0,
        reverse: w[30] != 0,
        segment_reverse: w[31] != 0,
        common_reverse: w[32] != 0,
        initial_com: (w[33] % 256) as u8,
        duty: (w[34] % 256) as u8,
        inversion_lines: (w[35] % 256) as u8,
        gray_mode: (w[36] % 256) as u8,
        palette: [
            (w[37] % 256) as u8,
            (w[38] % 256) as u8,
            (w[39] % 256) as u8,
            (w[40] % 256) as u8,
            (w[41] % 256) as u8,
            (w[42] % 256) as u8,
            (w[43] % 256) as u8,
            (w[44] % 256) as u8,
        ],
        oscillator_control: (w[45] % 256) as u8,
        oscillator_frequency: (w[46] % 256) as u8,
    }
}

pub(crate) fn analog_in(w: &Block) -> voltage::Settings
    ensures { result ≡ analog_in w.now }
{
    voltage::Settings {
        contrast: (w[47] % 256) as u8,
        contrast_trim: (w[48] % 256) as u8,
        otp_control: (w[49] % 256) as u8,
        regulator: (w[50] % 256) as u8,
        power_control: (w[51] % 256) as u8,
        booster: (w[52] % 256) as u8,
        bias: (w[53] % 256) as u8,
        temperature_slope: (w[54] % 256) as u8,
    }
}

// A temperature from its number counted from the lowest.
pub fn temperature_of(word: u64) -> i32
    ensures { result ≡ temperature_of word }
{
    ((word % 4294967296) as i64 - 2147483648) as i32
}

#[tactic(auto, unfolding(crate::specs::StateWords::ready_in))]
fn ready_in(w: &Block) -> Option<Time>
    ensures { result ≡ ready_in w.now }
{
    (w[62] != 0).then_some(Time {
        seconds: w[63],
        fraction: w[64],
    })
}

pub(crate) fn power_in(w: &Block) -> Power
    ensures { result ≡ power_in w.now }
{
    Power {
        display_on: w[55] != 0,
        power_save: w[56] != 0,
        oscillator_enabled: w[57] != 0,
        supplied: w[58] != 0,
        supply_millivolts: (w[59] % 65536) as u16,
        temperature_millicelsius: temperature_of(w[60]),
        cold: w[61] != 0,
        ready: ready_in(w),
    }
}

#[tactic(auto, unfolding(crate::specs::StateWords::saved_in))]
fn saved_in(w: &Block) -> Option<u16>
    ensures { result ≡ saved_in w.now }
{
    (w[67] != 0).then_some((w[68] % 65536) as u16)
}

#[tactic(auto, unfolding(crate::specs::StateWords::address_in))]
pub(crate) fn address_in(w: &Block) -> Address
    ensures { result ≡ address_in w.now }
{
    Address {
        page: (w[65] % 256) as u8,
        column_byte: (w[66] % 65536) as u16,
        saved_column: saved_in(w),
    }
}

#[tactic(auto, unfolding(crate::specs::StateWords::pending_in))]
fn pending_in(w: &Block) -> Option<u8>
    ensures { result ≡ pending_in w.now }
{
    (w[73] != 0).then_some((w[74] % 256) as u8)
}

#[tactic(auto, unfolding(crate::specs::StateWords::serial_in))]
pub(crate) fn serial_in(w: &Block) -> Serial
    ensures { result ≡ serial_in w.now }
{
    Serial {
        selected: w[69] != 0,
        data: w[70] != 0,
        shift: (w[71] % 256) as u8,
        bits: (w[72] % 256) as u8,
        pending: pending_in(w),
    }
}

// The state of a block.
#[tactic(auto, unfolding(crate::specs::StateWords::state_of))]
pub(crate) fn state_of(w: &Block) -> Nt7508
    ensures { result ≡ state_of w.now }
{
    Nt7508 {
        scan: scan_in(w),
        display: display_in(w),
        analog: analog_in(w),
        power: power_in(w),
        address: address_in(w),
        serial: serial_in(w),
    }
}

fn scan_part(scan: Scan) -> [u64; 27]
    ensures { result ≡ scan_part scan }
{
    let c = running_words(scan.ticking.clock);
    [
        c[0],
        c[1],
        c[2],
        c[3],
        c[4],
        c[5],
        c[6],
        c[7],
        c[8],
        scan.ticking.rate.numerator,
        scan.ticking.rate.denominator,
        scan.latch.segments[0],
        scan.latch.segments[1],
        u64::from(scan.latch.latched),
        u64::from(scan.frame.duty),
        u64::from(scan.frame.icon),
        u64::from(scan.frame.initial_com),
        u64::from(scan.frame.common_reverse),
        u64::from(scan.frame.start_line),
        u64::from(scan.frame.frc_count),
        u64::from(scan.pwm),
        u64::from(scan.row),
        u64::from(scan.step),
        u64::from(scan.frc),
        u64::from(scan.inversion.lines),
        u64::from(scan.inversion.count),
        u64::from(scan.inversion.inverted),
    ]
}

#[tactic(auto, unfolding(crate::specs::StateWords::display_part))]
fn display_part(display: scan::Settings) -> [u64; 20]
    ensures { result ≡ display_part display }
{
    let p = display.palette;
    [
        u64::from(display.start_line),
        u64::from(display.icon_enabled),
        u64::from(display.entire_on),
        u64::from(display.reverse),
        u64::from(display.segment_reverse),
        u64::from(display.common_reverse),
        u64::from(display.initial_com),
        u64::from(display.duty),
        u64::from(display.inversion_lines),
        u64::from(display.gray_mode),
        u64::from(p[0]),
        u64::from(p[1]),
        u64::from(p[2]),
        u64::from(p[3]),
        u64::from(p[4]),
        u64::from(p[5]),
        u64::from(p[6]),
        u64::from(p[7]),
        u64::from(display.oscillator_control),
        u64::from(display.oscillator_frequency),
    ]
}

fn analog_part(analog: voltage::Settings) -> [u64; 8]
    ensures { result ≡ analog_part analog }
{
    [
        u64::from(analog.contrast),
        u64::from(analog.contrast_trim),
        u64::from(analog.otp_control),
        u64::from(analog.regulator),
        u64::from(analog.power_control),
        u64::from(analog.booster),
        u64::from(analog.bias),
        u64::from(analog.temperature_slope),
    ]
}

fn temperature_word(temperature: i32) -> u64
    ensures { result ≡ temperature_word temperature }
{
    (i64::from(temperature) + 2147483648) as u64
}

fn power_part(power: Power) -> [u64; 10]
    ensures { result ≡ power_part power }
{
    let r = power.ready.words();
    [
        u64::from(power.display_on),
        u64::from(power.power_save),
        u64::from(power.oscillator_enabled),
        u64::from(power.supplied),
        u64::from(power.supply_millivolts),
        temperature_word(power.temperature_millicelsius),
        u64::from(power.cold),
        r[0],
        r[1],
        r[2],
    ]
}

#[tactic(auto, unfolding(crate::specs::StateWords::address_part))]
fn address_part(address: Address) -> [u64; 4]
    ensures { result ≡ address_part address }
{
    let s = optional_words(address.saved_column.map(u64::from));
    [
        u64::from(address.page),
        u64::from(address.column_byte),
        s[0],
        s[1],
    ]
}

#[tactic(auto, unfolding(crate::specs::StateWords::serial_part))]
fn serial_part(serial: Serial) -> [u64; 6]
    ensures { result ≡ serial_part serial }
{
    let p = optional_words(serial.pending.map(u64::from));
    [
        u64::from(serial.selected),
        u64::from(serial.data),
        u64::from(serial.shift),
        u64::from(serial.bits),
        p[0],
        p[1],
    ]
}

// A state into a block.
pub(crate) fn put_state(state: Nt7508, out: &mut Block)
    ensures { out.new ≡ state_words state }
{
    out[..27].copy_from_slice(&scan_part(state.scan));
    out[27..47].copy_from_slice(&display_part(state.display));
    out[47..55].copy_from_slice(&analog_part(state.analog));
    out[55..65].copy_from_slice(&power_part(state.power));
    out[65..69].copy_from_slice(&address_part(state.address));
    out[69..].copy_from_slice(&serial_part(state.serial));
}
