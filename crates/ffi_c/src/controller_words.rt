// The calls that change the controller, over words.
ghost use Rattle.std.specs.Prelude.{◌≡◌, length, eqb};
ghost use Rattle.checks.specs.Checks.{row, unless_refused};
ghost use Rattle.controller.specs.State.{power_on};
ghost use Rattle.ffi.specs.Words.{check_status};
ghost use Rattle.ffi.specs.ClockWords.{time};
ghost use Rattle.ffi.specs.StateWords.{state_words};
ghost use Rattle.ffi.specs.ControllerWords.{event_words, rising_on, shifted_on, selected_on, data_on, supplied_on, temperature_on, lost_on, met_on, updated_on, restored_on};

use clock::Time;
use scan::Memory;

#[unsafe(no_mangle)]
pub extern "C" fn nt7508_controller_new(state: &mut [u64]) -> u64
    ensures answers { result ≡ check_status (row 20 (eqb (length state.old) 75)) }
    ensures leaves { state.new ≡ unless_refused (row 20 (eqb (length state.old) 75)) (state_words power_on) state.old }
{
    ffi::controller_words::nt7508_controller_new(state)
}

#[unsafe(no_mangle)]
pub extern "C" fn nt7508_controller_rising(
    state: &mut [u64],
    bit: bool,
    seconds: u64,
    fraction: u64,
    ram: &mut [u8],
    icons: &mut [u8],
    event: &mut [u64; 8],
) -> u64
    ensures answers { result ≡ check_status (rising_on state.old bit (time seconds fraction) ram.old icons.old).0 }
    ensures leaves { state.new ≡ unless_refused (rising_on state.old bit (time seconds fraction) ram.old icons.old).0 (state_words (rising_on state.old bit (time seconds fraction) ram.old icons.old).1.state) state.old }
    ensures tells { event.new ≡ unless_refused (rising_on state.old bit (time seconds fraction) ram.old icons.old).0 (event_words (rising_on state.old bit (time seconds fraction) ram.old icons.old).1.event) event.old }
    ensures ram { ram.new ≡ (rising_on state.old bit (time seconds fraction) ram.old icons.old).1.ram }
    ensures icons { icons.new ≡ (rising_on state.old bit (time seconds fraction) ram.old icons.old).1.icons }
{
    ffi::controller_words::nt7508_controller_rising(
        state,
        bit,
        Time { seconds, fraction },
        ram,
        icons,
        event,
    )
}

#[unsafe(no_mangle)]
pub extern "C" fn nt7508_controller_shift_in(
    state: &mut [u64],
    bits: u8,
    count: u8,
    seconds: u64,
    fraction: u64,
    ram: &mut [u8],
    icons: &mut [u8],
    event: &mut [u64; 8],
) -> u64
    ensures answers { result ≡ check_status (shifted_on state.old bits count (time seconds fraction) ram.old icons.old).0 }
    ensures leaves { state.new ≡ unless_refused (shifted_on state.old bits count (time seconds fraction) ram.old icons.old).0 (state_words (shifted_on state.old bits count (time seconds fraction) ram.old icons.old).1.state) state.old }
    ensures tells { event.new ≡ unless_refused (shifted_on state.old bits count (time seconds fraction) ram.old icons.old).0 (event_words (shifted_on state.old bits count (time seconds fraction) ram.old icons.old).1.event) event.old }
    ensures ram { ram.new ≡ (shifted_on state.old bits count (time seconds fraction) ram.old icons.old).1.ram }
    ensures icons { icons.new ≡ (shifted_on state.old bits count (time seconds fraction) ram.old icons.old).1.icons }
{
    ffi::controller_words::nt7508_controller_shift_in(
        state,
        bits,
        count,
        Time { seconds, fraction },
        ram,
        icons,
        event,
    )
}

#[unsafe(no_mangle)]
pub extern "C" fn nt7508_controller_select(state: &mut [u64], on: bool) -> u64
    ensures answers { result ≡ check_status (selected_on state.old on).0 }
    ensures leaves { state.new ≡ unless_refused (selected_on state.old on).0 (state_words (selected_on state.old on).1) state.old }
{
    ffi::controller_words::nt7508_controller_select(state, on)
}

#[unsafe(no_mangle)]
pub extern "C" fn nt7508_controller_command_data(state: &mut [u64], on: bool) -> u64
    ensures answers { result ≡ check_status (data_on state.old on).0 }
    ensures leaves { state.new ≡ unless_refused (data_on state.old on).0 (state_words (data_on state.old on).1) state.old }
{
    ffi::controller_words::nt7508_controller_command_data(state, on)
}

#[unsafe(no_mangle)]
pub extern "C" fn nt7508_controller_set_supply(
    state: &mut [u64],
    millivolts: u16,
    seconds: u64,
    fraction: u64,
) -> u64
    ensures answers { result ≡ check_status (supplied_on state.old millivolts (time seconds fraction)).0 }
    ensures leaves { state.new ≡ unless_refused (supplied_on state.old millivolts (time seconds fraction)).0 (state_words (supplied_on state.old millivolts (time seconds fraction)).1) state.old }
{
    ffi::controller_words::nt7508_controller_set_supply(
        state,
        millivolts,
        Time { seconds, fraction },
    )
}

#[unsafe(no_mangle)]
pub extern "C" fn nt7508_controller_set_temperature(state: &mut [u64], millicelsius: i32) -> u64
    ensures answers { result ≡ check_status (temperature_on state.old millicelsius).0 }
    ensures leaves { state.new ≡ unless_refused (temperature_on state.old millicelsius).0 (state_words (temperature_on state.old millicelsius).1) state.old }
{
    ffi::controller_words::nt7508_controller_set_temperature(state, millicelsius)
}

#[unsafe(no_mangle)]
pub extern "C" fn nt7508_controller_lose_volatile(
    state: &mut [u64],
    ram: &mut [u8],
    icons: &mut [u8],
) -> u64
    ensures answers { result ≡ check_status (lost_on state.old ram.old icons.old).0 }
    ensures leaves { state.new ≡ unless_refused (lost_on state.old ram.old icons.old).0 (state_words (lost_on state.old ram.old icons.old).1.0) state.old }
    ensures ram { ram.new ≡ (lost_on state.old ram.old icons.old).1.1.0 }
    ensures icons { icons.new ≡ (lost_on state.old ram.old icons.old).1.1.1 }
{
    ffi::controller_words::nt7508_controller_lose_volatile(state, ram, icons)
}

#[unsafe(no_mangle)]
pub extern "C" fn nt7508_controller_at_deadline(
    state: &mut [u64],
    seconds: u64,
    fraction: u64,
) -> u64
    ensures answers { result ≡ check_status (met_on state.old (time seconds fraction)).0 }
    ensures leaves { state.new ≡ unless_refused (met_on state.old (time seconds fraction)).0 (state_words (met_on state.old (time seconds fraction)).1) state.old }
{
    ffi::controller_words::nt7508_controller_at_deadline(state, Time { seconds, fraction })
}

#[unsafe(no_mangle)]
pub extern "C" fn nt7508_controller_update(
    state: &mut [u64],
    seconds: u64,
    fraction: u64,
    pieces: &mut u8,
) -> u64
    ensures answers { result ≡ check_status (updated_on state.old (time seconds fraction)).0 }
    ensures leaves { state.new ≡ unless_refused (updated_on state.old (time seconds fraction)).0 (state_words (updated_on state.old (time seconds fraction)).1.0) state.old }
    ensures counts { pieces.new ≡ unless_refused (updated_on state.old (time seconds fraction)).0 (updated_on state.old (time seconds fraction)).1.1 pieces.old }
{
    ffi::controller_words::nt7508_controller_update(state, Time { seconds, fraction }, pieces)
}

#[unsafe(no_mangle)]
pub extern "C" fn nt7508_controller_restore(
    state: &mut [u64],
    seconds: u64,
    fraction: u64,
    ram: &[u8],
    icons: &[u8],
) -> u64
    ensures answers { result ≡ check_status (restored_on state.old (time seconds fraction) ram.now icons.now).0 }
    ensures leaves { state.new ≡ unless_refused (restored_on state.old (time seconds fraction) ram.now icons.now).0 (state_words (restored_on state.old (time seconds fraction) ram.now icons.now).1) state.old }
{
    ffi::controller_words::nt7508_controller_restore(
        state,
        Time { seconds, fraction },
        Memory { ram, icons },
    )
}
