// The calls that look at the controller and change nothing, over words. The state is a block of 75
// words (state_words.rt); one that holds no state has number 20, before every other check. A drive is
// 12 words and a frame length (drive_words.rt), voltages are seven and a pair that is found three
// (voltage_words.rt).
ghost use Rattle.std.specs.Prelude.{◌≡◌};
ghost use Rattle.checks.specs.Checks.{unless_refused};
ghost use Rattle.ffi.specs.Words.{check_status, status, stored};
ghost use Rattle.ffi.specs.DriveWords.{drive_words};
ghost use Rattle.ffi.specs.VoltageWords.{voltage_words};
ghost use Rattle.ffi.specs.ClockWords.{deadline_words};
ghost use Rattle.ffi.specs.ControllerWords.{driven_on, rendered_on, voltages_on, edges_on, deadline_on, FoundOn, LookedOn};

use crate::controller_words::NO_STATE;
use crate::drive_words::put_drive;
use crate::state_words::{held, state_of};
use crate::words::{Words, put, status};
use clock::Time;
use controller::{Nt7508, Refusal};
use scan::Memory;

// The words of what a call finds in the state of a block. They stay as they are where the block holds none, and where the
// call refuses.
#[tactic(auto, using(crate::proofs::OnBlock::looks_none))]
fn look<T: Words, F: FnOnce(Nt7508) -> Result<T, Refusal>>(
    state: &[u64],
    out: &mut T::Words,
    call: F,
) -> u64
    requires { F.IsAlwaysCallable call }
    ensures { LookedOn T.words (F.post call) state.now out.old result out.new }
{
    let Some(block) = held(state) else {
        return NO_STATE;
    };
    put(call(state_of(block)), out)
}

// The drive at a moment, and the frame length of the scan shown (duty x PWM; 0 where undriven). Drive and image are not
// by `look`: of a closure that has lent memory a proof knows nothing (tried in controller_words.rt).
pub fn nt7508_controller_drive(
    state: &[u64],
    moment: Time,
    memory: Memory<'_>,
    out: &mut [u64; 12],
    frame: &mut u16,
) -> u64
    ensures answers { result ≡ check_status (driven_on state.now moment memory.entry.ram.now memory.entry.icons.now).0 }
    ensures leaves { out.new ≡ unless_refused (driven_on state.now moment memory.entry.ram.now memory.entry.icons.now).0 (drive_words (driven_on state.now moment memory.entry.ram.now memory.entry.icons.now).1.0) out.old }
    ensures frames { frame.new ≡ unless_refused (driven_on state.now moment memory.entry.ram.now memory.entry.icons.now).0 (driven_on state.now moment memory.entry.ram.now memory.entry.icons.now).1.1 frame.old }
{
    let Some(block) = held(state) else {
        return NO_STATE;
    };
    put_drive(state_of(block).drive(moment, memory), out, frame)
}

// The gray image.
pub fn nt7508_controller_render(state: &[u64], memory: Memory<'_>, image: &mut [u8]) -> u64
    ensures answers { result ≡ check_status (rendered_on state.now memory.entry.ram.now memory.entry.icons.now image.old).0 }
    ensures leaves { image.new ≡ (rendered_on state.now memory.entry.ram.now memory.entry.icons.now image.old).1 }
{
    let Some(block) = held(state) else {
        return NO_STATE;
    };
    status(state_of(block).render(memory, image))
}

// Target, pump and V0 to V4.
#[tactic(auto, using(crate::proofs::OnBlock::look_answers, crate::proofs::OnBlock::look_leaves))]
pub fn nt7508_controller_voltages(state: &[u64], out: &mut [u64; 7]) -> u64
    ensures answers { result ≡ status (voltages_on state.now) }
    ensures leaves { out.new ≡ stored voltage_words (voltages_on state.now) out.old }
{
    look(state, out, |held| held.voltages())
}

// Edges of the serial clock until the byte completes, from the clock's level.
#[tactic(auto, using(crate::proofs::OnBlock::look_answers, crate::proofs::OnBlock::look_leaves))]
pub fn nt7508_controller_serial_effect_edges(state: &[u64], high: bool, out: &mut u8) -> u64
    ensures answers { result ≡ status (edges_on state.now high) }
    ensures leaves { out.new ≡ stored (λ n. n) (edges_on state.now high) out.old }
{
    look(state, out, |held| held.serial_effect_edges(high))
}

// The end of the wait: whether there is one, its seconds and fraction.
#[tactic(auto, using(crate::proofs::OnBlock::look_answers, crate::proofs::OnBlock::look_leaves))]
pub fn nt7508_controller_deadline(state: &[u64], out: &mut [u64; 3]) -> u64
    ensures answers { result ≡ status (deadline_on state.now) }
    ensures leaves { out.new ≡ stored deadline_words (deadline_on state.now) out.old }
{
    look(state, out, |held| held.deadline())
}

// Whether a pair of regulator and contrast has its target in the band, and one that has.
#[tactic(auto, using(crate::proofs::OnBlock::look_finds))]
pub fn nt7508_controller_find_setting(state: &[u64], low: u32, high: u32, out: &mut [u64; 3]) -> u64
    ensures { FoundOn state.now low high out.old result out.new }
{
    look(state, out, |held| held.find_setting(low, high))
}
