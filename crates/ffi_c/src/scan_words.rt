// The scan over words and bytes.
ghost use Rattle.std.specs.Prelude.{◌≡◌, length};
ghost use Rattle.checks.specs.Checks.{unless_refused};
ghost use Rattle.scan.specs.Check.{check_image};
ghost use Rattle.scan.specs.Image.{rendered};
ghost use Rattle.ffi.specs.Words.{check_status};
ghost use Rattle.ffi.specs.ClockWords.{time};
ghost use Rattle.ffi.specs.ScanWords.{settings_of, scan_words, scan_bytes, counted_of, before_of, after_of, fallen_of};

use clock::Time;
use scan::Memory;

#[unsafe(no_mangle)]
pub extern "C" fn nt7508_scan_count_to(
    settings: &[u8; 20],
    words: &mut [u64; 13],
    bytes: &mut [u8; 14],
    seconds: u64,
    fraction: u64,
    pieces: &mut u8,
) -> u64
    ensures answers { result ≡ check_status (counted_of words.old bytes.old settings.now (time seconds fraction)).0 }
    ensures counts { pieces.new ≡ unless_refused (counted_of words.old bytes.old settings.now (time seconds fraction)).0 (counted_of words.old bytes.old settings.now (time seconds fraction)).1.1 pieces.old }
    ensures words { words.new ≡ unless_refused (counted_of words.old bytes.old settings.now (time seconds fraction)).0 (scan_words (counted_of words.old bytes.old settings.now (time seconds fraction)).1.0) words.old }
    ensures bytes { bytes.new ≡ unless_refused (counted_of words.old bytes.old settings.now (time seconds fraction)).0 (scan_bytes (counted_of words.old bytes.old settings.now (time seconds fraction)).1.0) bytes.old }
{
    ffi::scan_words::nt7508_scan_count_to(
        settings,
        words,
        bytes,
        Time { seconds, fraction },
        pieces,
    )
}

#[unsafe(no_mangle)]
pub extern "C" fn nt7508_scan_before_byte(
    ram: &[u8],
    icons: &[u8],
    settings: &[u8; 20],
    words: &mut [u64; 13],
    bytes: &mut [u8; 14],
    seconds: u64,
    fraction: u64,
    sent: bool,
    page: u8,
) -> u64
    ensures answers { result ≡ check_status (before_of words.old bytes.old settings.now (time seconds fraction) sent page ram.now icons.now).0 }
    ensures words { words.new ≡ unless_refused (before_of words.old bytes.old settings.now (time seconds fraction) sent page ram.now icons.now).0 (scan_words (before_of words.old bytes.old settings.now (time seconds fraction) sent page ram.now icons.now).1) words.old }
    ensures bytes { bytes.new ≡ unless_refused (before_of words.old bytes.old settings.now (time seconds fraction) sent page ram.now icons.now).0 (scan_bytes (before_of words.old bytes.old settings.now (time seconds fraction) sent page ram.now icons.now).1) bytes.old }
{
    ffi::scan_words::nt7508_scan_before_byte(
        Memory { ram, icons },
        settings,
        words,
        bytes,
        Time { seconds, fraction },
        sent,
        page,
    )
}

#[unsafe(no_mangle)]
pub extern "C" fn nt7508_scan_after_byte(
    ram: &[u8],
    icons: &[u8],
    settings: &[u8; 20],
    words: &mut [u64; 13],
    bytes: &mut [u8; 14],
    seconds: u64,
    fraction: u64,
    was_running: bool,
    running: bool,
) -> u64
    ensures answers { result ≡ check_status (after_of words.old bytes.old settings.now (time seconds fraction) was_running running ram.now icons.now).0 }
    ensures words { words.new ≡ unless_refused (after_of words.old bytes.old settings.now (time seconds fraction) was_running running ram.now icons.now).0 (scan_words (after_of words.old bytes.old settings.now (time seconds fraction) was_running running ram.now icons.now).1) words.old }
    ensures bytes { bytes.new ≡ unless_refused (after_of words.old bytes.old settings.now (time seconds fraction) was_running running ram.now icons.now).0 (scan_bytes (after_of words.old bytes.old settings.now (time seconds fraction) was_running running ram.now icons.now).1) bytes.old }
{
    ffi::scan_words::nt7508_scan_after_byte(
        Memory { ram, icons },
        settings,
        words,
        bytes,
        Time { seconds, fraction },
        was_running,
        running,
    )
}

#[unsafe(no_mangle)]
pub extern "C" fn nt7508_scan_fall(
    settings: &[u8; 20],
    words: &mut [u64; 13],
    bytes: &mut [u8; 14],
    seconds: u64,
    fraction: u64,
) -> u64
    ensures answers { result ≡ check_status (fallen_of words.old bytes.old settings.now (time seconds fraction)).0 }
    ensures words { words.new ≡ unless_refused (fallen_of words.old bytes.old settings.now (time seconds fraction)).0 (scan_words (fallen_of words.old bytes.old settings.now (time seconds fraction)).1) words.old }
    ensures bytes { bytes.new ≡ unless_refused (fallen_of words.old bytes.old settings.now (time seconds fraction)).0 (scan_bytes (fallen_of words.old bytes.old settings.now (time seconds fraction)).1) bytes.old }
{
    ffi::scan_words::nt7508_scan_fall(settings, words, bytes, Time { seconds, fraction })
}

#[unsafe(no_mangle)]
pub extern "C" fn nt7508_scan_render(
    ram: &[u8],
    icons: &[u8],
    image: &mut [u8],
    settings: &[u8; 20],
    driven: bool,
) -> u64
    ensures answers { result ≡ check_status (check_image (settings_of settings.now) ram.now icons.now (length image.old)) }
    ensures leaves { image.new ≡ rendered (settings_of settings.now) driven ram.now icons.now image.old }
{
    ffi::scan_words::nt7508_scan_render(Memory { ram, icons }, image, settings, driven)
}
