// The calls that look at the controller and change nothing, over words.
ghost use Rattle.std.specs.Prelude.{◌≡◌};
ghost use Rattle.checks.specs.Checks.{unless_refused};
ghost use Rattle.ffi.specs.Words.{check_status, status, stored};
ghost use Rattle.ffi.specs.ClockWords.{time, deadline_words};
ghost use Rattle.ffi.specs.DriveWords.{drive_words};
ghost use Rattle.ffi.specs.VoltageWords.{voltage_words};
ghost use Rattle.ffi.specs.ControllerWords.{driven_on, rendered_on, voltages_on, edges_on, deadline_on, FoundOn};

use clock::Time;
use scan::Memory;

#[unsafe(no_mangle)]
pub extern "C" fn nt7508_controller_drive(
    state: &[u64],
    seconds: u64,
    fraction: u64,
    ram: &[u8],
    icons: &[u8],
    out: &mut [u64; 12],
    frame: &mut u16,
) -> u64
    ensures answers { result ≡ check_status (driven_on state.now (time seconds fraction) ram.now icons.now).0 }
    ensures leaves { out.new ≡ unless_refused (driven_on state.now (time seconds fraction) ram.now icons.now).0 (drive_words (driven_on state.now (time seconds fraction) ram.now icons.now).1.0) out.old }
    ensures frames { frame.new ≡ unless_refused (driven_on state.now (time seconds fraction) ram.now icons.now).0 (driven_on state.now (time seconds fraction) ram.now icons.now).1.1 frame.old }
{
    ffi::look_words::nt7508_controller_drive(
        state,
        Time { seconds, fraction },
        Memory { ram, icons },
        out,
        frame,
    )
}

#[unsafe(no_mangle)]
pub extern "C" fn nt7508_controller_render(
    state: &[u64],
    ram: &[u8],
    icons: &[u8],
    image: &mut [u8],
) -> u64
    ensures answers { result ≡ check_status (rendered_on state.now ram.now icons.now image.old).0 }
    ensures leaves { image.new ≡ (rendered_on state.now ram.now icons.now image.old).1 }
{
    ffi::look_words::nt7508_controller_render(state, Memory { ram, icons }, image)
}

#[unsafe(no_mangle)]
pub extern "C" fn nt7508_controller_voltages(state: &[u64], out: &mut [u64; 7]) -> u64
    ensures answers { result ≡ status (voltages_on state.now) }
    ensures leaves { out.new ≡ stored voltage_words (voltages_on state.now) out.old }
{
    ffi::look_words::nt7508_controller_voltages(state, out)
}

#[unsafe(no_mangle)]
pub extern "C" fn nt7508_controller_serial_effect_edges(
    state: &[u64],
    high: bool,
    out: &mut u8,
) -> u64
    ensures answers { result ≡ status (edges_on state.now high) }
    ensures leaves { out.new ≡ stored (λ n. n) (edges_on state.now high) out.old }
{
    ffi::look_words::nt7508_controller_serial_effect_edges(state, high, out)
}

#[unsafe(no_mangle)]
pub extern "C" fn nt7508_controller_deadline(state: &[u64], out: &mut [u64; 3]) -> u64
    ensures answers { result ≡ status (deadline_on state.now) }
    ensures leaves { out.new ≡ stored deadline_words (deadline_on state.now) out.old }
{
    ffi::look_words::nt7508_controller_deadline(state, out)
}

#[unsafe(no_mangle)]
pub extern "C" fn nt7508_controller_find_setting(
    state: &[u64],
    low: u32,
    high: u32,
    out: &mut [u64; 3],
) -> u64
    ensures { FoundOn state.now low high out.old result out.new }
{
    ffi::look_words::nt7508_controller_find_setting(state, low, high, out)
}
