// The scan over words and bytes. The settings are twenty bytes, in the order in which the original
// declares them, the palette taking eight. A scan is 13 words: whether its clock runs, the clock's
// eight words, the rate, and the two words of the latch; and 14 bytes: its other fields in the
// original's order. The two stand apart, since the C interface lends two arrays. A yes or no is a byte or word other than
// 0, or 0.
ghost use Rattle.std.specs.Prelude.{◌≡◌, length};
ghost use Rattle.checks.specs.Checks.{unless_refused};
ghost use Rattle.scan.specs.Check.{answered, check_image};
ghost use Rattle.scan.specs.declared.state.Scan.{Scan};
ghost use Rattle.scan.specs.Image.{rendered};
ghost use Rattle.ffi.specs.Words.{check_status};
ghost use Rattle.ffi.specs.ScanWords.{settings_of, running_of, running_words, scan_of, scan_words, scan_bytes, counted_of, before_of, after_of, fallen_of};

use crate::clock_words::clock_of;
use crate::words::{Words, status};
use checks::Numbered;
use clock::{Clock, Rate, Time};
use scan::{Frame, Inversion, Latch, Memory, Refusal, Running, Scan, Settings, Ticking};

pub(crate) fn settings_of(b: &[u8; 20]) -> Settings
    ensures { result ≡ settings_of b.now }
{
    Settings {
        start_line: b[0],
        icon_enabled: b[1] != 0,
        entire_on: b[2] != 0,
        reverse: b[3] != 0,
        segment_reverse: b[4] != 0,
        common_reverse: b[5] != 0,
        initial_com: b[6],
        duty: b[7],
        inversion_lines: b[8],
        gray_mode: b[9],
        palette: [b[10], b[11], b[12], b[13], b[14], b[15], b[16], b[17]],
        oscillator_control: b[18],
        oscillator_frequency: b[19],
    }
}

pub(crate) fn running_of(running: u64, words: &[u64; 8]) -> Option<Clock>
    ensures { result ≡ running_of running words.now }
{
    (running != 0).then_some(clock_of(words))
}

pub(crate) fn scan_of(w: &[u64; 13], b: &[u8; 14]) -> Scan
    ensures { result ≡ scan_of w.now b.now }
{
    let words = [w[1], w[2], w[3], w[4], w[5], w[6], w[7], w[8]];
    Scan {
        ticking: Ticking {
            clock: running_of(w[0], &words),
            rate: Rate {
                numerator: w[9],
                denominator: w[10],
            },
        },
        latch: Latch {
            segments: [w[11], w[12]],
            latched: b[13] != 0,
        },
        frame: Frame {
            duty: b[0],
            icon: b[1] != 0,
            initial_com: b[2],
            common_reverse: b[3] != 0,
            start_line: b[4],
            frc_count: b[6],
        },
        pwm: b[5],
        row: b[7],
        step: b[8],
        frc: b[9],
        inversion: Inversion {
            lines: b[10],
            count: b[11],
            inverted: b[12] != 0,
        },
    }
}

// A clock that is stopped has no words of its own.
pub(crate) fn running_words(clock: Option<Clock>) -> [u64; 9]
    ensures { result ≡ running_words clock }
{
    match clock {
        Some(running) => {
            let c = running.words();
            [1, c[0], c[1], c[2], c[3], c[4], c[5], c[6], c[7]]
        }
        None => [0; 9],
    }
}

fn scan_words(scan: Scan) -> [u64; 13]
    ensures { result ≡ scan_words scan }
{
    let c = running_words(scan.ticking.clock);
    [
        c[0],
        c[1],
        c[2],
        c[3],
        c[4],
        c[5],
        c[6],
        c[7],
        c[8],
        scan.ticking.rate.numerator,
        scan.ticking.rate.denominator,
        scan.latch.segments[0],
        scan.latch.segments[1],
    ]
}

fn scan_bytes(scan: Scan) -> [u8; 14]
    ensures { result ≡ scan_bytes scan }
{
    [
        scan.frame.duty,
        u8::from(scan.frame.icon),
        scan.frame.initial_com,
        u8::from(scan.frame.common_reverse),
        scan.frame.start_line,
        scan.pwm,
        scan.frame.frc_count,
        scan.row,
        scan.step,
        scan.frc,
        scan.inversion.lines,
        scan.inversion.count,
        u8::from(scan.inversion.inverted),
        u8::from(scan.latch.latched),
    ]
}

// A scan goes out, and a refusal leaves what is there. Not by `put`, since the C interface lends two arrays.
fn put_scan(answer: Result<Scan, Refusal>, words: &mut [u64; 13], bytes: &mut [u8; 14]) -> u64
    ensures answers { (given : Scan) → result ≡ check_status (answered given answer).0 }
    ensures words { (given : Scan) → words.new ≡ unless_refused (answered given answer).0 (scan_words (answered given answer).1) words.old }
    ensures bytes { (given : Scan) → bytes.new ≡ unless_refused (answered given answer).0 (scan_bytes (answered given answer).1) bytes.old }
{
    match answer {
        Ok(scan) => {
            *words = scan_words(scan);
            *bytes = scan_bytes(scan);
            0
        }
        Err(refusal) => refusal.number(),
    }
}

// The scan counted to a moment, in place, and how many pieces that took. Not by `put`, since the C interface lends a number
// beside the scan's two arrays.
pub fn nt7508_scan_count_to(
    settings: &[u8; 20],
    words: &mut [u64; 13],
    bytes: &mut [u8; 14],
    moment: Time,
    pieces: &mut u8,
) -> u64
    ensures answers { result ≡ check_status (counted_of words.old bytes.old settings.now moment).0 }
    ensures counts { pieces.new ≡ unless_refused (counted_of words.old bytes.old settings.now moment).0 (counted_of words.old bytes.old settings.now moment).1.1 pieces.old }
    ensures words { words.new ≡ unless_refused (counted_of words.old bytes.old settings.now moment).0 (scan_words (counted_of words.old bytes.old settings.now moment).1.0) words.old }
    ensures bytes { bytes.new ≡ unless_refused (counted_of words.old bytes.old settings.now moment).0 (scan_bytes (counted_of words.old bytes.old settings.now moment).1.0) bytes.old }
{
    match scan_of(words, bytes).count_to(settings_of(settings), moment) {
        Ok(counted) => {
            *pieces = counted.pieces;
            *words = scan_words(counted.scan);
            *bytes = scan_bytes(counted.scan);
            0
        }
        Err(refusal) => refusal.number(),
    }
}

// The scan as a data byte for a page, or a command, has to find it at a moment, in place.
pub fn nt7508_scan_before_byte(
    memory: Memory<'_>,
    settings: &[u8; 20],
    words: &mut [u64; 13],
    bytes: &mut [u8; 14],
    moment: Time,
    sent: bool,
    page: u8,
) -> u64
    ensures answers { result ≡ check_status (before_of words.old bytes.old settings.now moment sent page memory.entry.ram.now memory.entry.icons.now).0 }
    ensures words { words.new ≡ unless_refused (before_of words.old bytes.old settings.now moment sent page memory.entry.ram.now memory.entry.icons.now).0 (scan_words (before_of words.old bytes.old settings.now moment sent page memory.entry.ram.now memory.entry.icons.now).1) words.old }
    ensures bytes { bytes.new ≡ unless_refused (before_of words.old bytes.old settings.now moment sent page memory.entry.ram.now memory.entry.icons.now).0 (scan_bytes (before_of words.old bytes.old settings.now moment sent page memory.entry.ram.now memory.entry.icons.now).1) bytes.old }
{
    let before = scan_of(words, bytes);
    let present = settings_of(settings);
    put_scan(
        before.before_byte(present, moment, sent.then_some(page), memory),
        words,
        bytes,
    )
}

// The scan after a byte or a warm rise at a moment, in place, by whether it ran before and runs after.
pub fn nt7508_scan_after_byte(
    memory: Memory<'_>,
    settings: &[u8; 20],
    words: &mut [u64; 13],
    bytes: &mut [u8; 14],
    moment: Time,
    was_running: bool,
    running: bool,
) -> u64
    ensures answers { result ≡ check_status (after_of words.old bytes.old settings.now moment was_running running memory.entry.ram.now memory.entry.icons.now).0 }
    ensures words { words.new ≡ unless_refused (after_of words.old bytes.old settings.now moment was_running running memory.entry.ram.now memory.entry.icons.now).0 (scan_words (after_of words.old bytes.old settings.now moment was_running running memory.entry.ram.now memory.entry.icons.now).1) words.old }
    ensures bytes { bytes.new ≡ unless_refused (after_of words.old bytes.old settings.now moment was_running running memory.entry.ram.now memory.entry.icons.now).0 (scan_bytes (after_of words.old bytes.old settings.now moment was_running running memory.entry.ram.now memory.entry.icons.now).1) bytes.old }
{
    let before = scan_of(words, bytes);
    let present = settings_of(settings);
    let runs = Running::after(was_running, running);
    put_scan(
        before.after_byte(present, moment, runs, memory),
        words,
        bytes,
    )
}

// The scan after a fall of the supply at a moment, in place.
pub fn nt7508_scan_fall(
    settings: &[u8; 20],
    words: &mut [u64; 13],
    bytes: &mut [u8; 14],
    moment: Time,
) -> u64
    ensures answers { result ≡ check_status (fallen_of words.old bytes.old settings.now moment).0 }
    ensures words { words.new ≡ unless_refused (fallen_of words.old bytes.old settings.now moment).0 (scan_words (fallen_of words.old bytes.old settings.now moment).1) words.old }
    ensures bytes { bytes.new ≡ unless_refused (fallen_of words.old bytes.old settings.now moment).0 (scan_bytes (fallen_of words.old bytes.old settings.now moment).1) bytes.old }
{
    let before = scan_of(words, bytes);
    put_scan(before.fall(settings_of(settings), moment), words, bytes)
}

// The gray image, where the glass is driven or not.
pub fn nt7508_scan_render(
    memory: Memory<'_>,
    image: &mut [u8],
    settings: &[u8; 20],
    driven: bool,
) -> u64
    ensures answers { result ≡ check_status (check_image (settings_of settings.now) memory.entry.ram.now memory.entry.icons.now (length image.old)) }
    ensures leaves { image.new ≡ rendered (settings_of settings.now) driven memory.entry.ram.now memory.entry.icons.now image.old }
{
    status(scan::render(settings_of(settings), driven, memory, image))
}
