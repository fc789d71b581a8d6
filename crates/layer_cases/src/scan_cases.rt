// Cases of the scan. Kind 6 is a state, its memory and a moment, then the answers:
//   settings (20): start_line icon_enabled entire_on reverse segment_reverse common_reverse
//     initial_com duty inversion_lines gray_mode palette (8) oscillator_control oscillator_frequency
//   analog (8), from 20: contrast regulator power_control booster bias slope trim otp
//   scan, words (13), from 28: whether its clock runs; at.s at.f whole.s whole.f remainder
//     denominator fraction ordinal; the rate p q; the two words of the latch
//   scan, bytes (14), from 41: duty icon initial_com common_reverse start_line pwm frc_count row step
//     frc inversion_lines inversion_count inverted latched
//   conditions (7), from 55: display_on oscillator_enabled supply (mV) temperature (millidegrees C,
//     from 0 up) power_save waiting, and whether all this is driven
//   memory (2), from 62: a b: RAM byte i is (a i + b) mod 251, icon byte i is (a i + b + 1) mod 251
//   moment (2), from 64: seconds fraction
//   answers, from 66: the scan counted to the moment, words (13) and bytes (14); the pieces of
//     document 01's rule; the drive (12), from 94: common (129 none) segments (2) inverted grounded
//     target pump v0 v1 v2 v3 v4 (2^32 none); the sum of its electrodes, common n and segment n for n
//     from 0 to 255; the sum of the image. A sum starts at 0, and each number x makes it
//     (31 sum + x) mod 2^32.
use crate::words::bytes_of;
use clock::Time;
use ffi::drive_words::{
    NO_COMMON, nt7508_scan_common_microvolts, nt7508_scan_drive, nt7508_scan_segment_microvolts,
};
use ffi::scan_words::{nt7508_scan_count_to, nt7508_scan_render};
use replay::{Numbers, added, fill_memory, sum_of};
use scan::{Conditions, IMAGE_BYTES, Icons, Memory, Ram};
use voltage::Supply;

// What a line asks, memory apart.
#[derive(Clone, Copy)]
struct Request {
    settings: [u8; 20],
    analog: [u8; 8],
    words: [u64; 13],
    bytes: [u8; 14],
    conditions: Conditions,
    driven: bool,
    moment: Time,
}

// What a line asks, if its fields can hold the numbers.
fn request_of(w: &Numbers) -> Option<Request> {
    let mut words = [0; 13];
    words.copy_from_slice(&w[28..41]);
    Some(Request {
        settings: bytes_of(&w[..20])?,
        analog: bytes_of(&w[20..28])?,
        words,
        bytes: bytes_of(&w[41..55])?,
        conditions: Conditions {
            display_on: w[55] != 0,
            oscillator_enabled: w[56] != 0,
            supply: Supply {
                supply_millivolts: u16::try_from(w[57]).ok()?,
                temperature_millicelsius: i32::try_from(w[58]).ok()?,
                power_save: w[59] != 0,
                waiting: w[60] != 0,
            },
        },
        driven: w[61] != 0,
        moment: Time {
            seconds: w[64],
            fraction: w[65],
        },
    })
}

fn count_agrees(request: &Request, w: &Numbers) -> bool {
    let mut words = request.words;
    let mut bytes = request.bytes;
    let mut pieces = 0;
    let number = nt7508_scan_count_to(
        &request.settings,
        &mut words,
        &mut bytes,
        request.moment,
        &mut pieces,
    );
    (number == 0)
        & (words[..] == w[66..79])
        & (Some(bytes) == bytes_of(&w[79..93]))
        & (u64::from(pieces) == w[93])
}

// The sum of commons and segments 0 to 255; beyond the last of either there is none.
fn electrodes(drive: &[u64; 12]) -> u64 {
    (0u8..=255).fold(0, |sum, n| {
        let sum = added(sum, nt7508_scan_common_microvolts(drive, n));
        added(sum, nt7508_scan_segment_microvolts(drive, n))
    })
}

// The frame of a line, by its counted scan: duty x PWM, and 0 where no common is driven.
fn frame_of(w: &Numbers) -> u64 {
    let pwm = w[84];
    if (w[94] == NO_COMMON) | ![9, 12, 15].contains(&pwm) {
        return 0;
    }
    pwm * (w[79] % 256)
}

fn drive_agrees(request: &Request, memory: Memory<'_>, w: &Numbers) -> bool {
    let mut drive = [0; 12];
    let mut frame = 0;
    let number = nt7508_scan_drive(
        memory,
        &request.words,
        &request.bytes,
        &request.settings,
        &request.analog,
        request.conditions,
        request.moment,
        &mut drive,
        &mut frame,
    );
    (number == 0)
        & (drive[..] == w[94..106])
        & (u64::from(frame) == frame_of(w))
        & (electrodes(&drive) == w[106])
}

fn image_agrees(request: &Request, memory: Memory<'_>, w: &Numbers) -> bool {
    let mut image = [0; IMAGE_BYTES];
    let number = nt7508_scan_render(memory, &mut image, &request.settings, request.driven);
    (number == 0) & (sum_of(&image) == w[107])
}

// Whether ours answers as a line says.
pub(crate) fn agrees(w: &Numbers) -> bool {
    let Some(request) = request_of(w) else {
        return false;
    };
    let mut ram: Ram = [0; _];
    let mut icons: Icons = [0; _];
    fill_memory(w[62], w[63], &mut ram, &mut icons);
    let memory = Memory {
        ram: &ram,
        icons: &icons,
    };
    count_agrees(&request, w)
        & drive_agrees(&request, memory, w)
        & image_agrees(&request, memory, w)
}
