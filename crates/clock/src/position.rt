// A time and the part of a fraction unit above it as one number, in 1 / numerator fraction units.
ghost use Rattle.std.specs.Prelude.{◌≡◌, ◌+◌, ◌*◌, ◌<◌};
ghost use Rattle.clock.specs.Time.{raw};
ghost use Rattle.clock.specs.Wide.{wide_of};

use crate::rate::Rate;
use crate::time::Time;
use crate::wide::{Wide, mul_add};
use checks::Checked;

#[tactic(auto, using(crate::proofs::Checks::lcd_passed, crate::proofs::Checks::time_passed))]
pub(crate) fn position_of(at: Checked<Time>, fraction: u64, rate: Checked<Rate>) -> Wide
    requires { fraction < rate.value.numerator }
    ensures { result ≡ wide_of (raw at.value * rate.value.numerator + fraction) }
{
    mul_add(Wide::from(at.value), rate.value.numerator, fraction)
}
