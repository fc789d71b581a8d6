// The supplies of the LCD (document 01, 'Voltage' and 'Setting finder'): the settings that the
// rules read, the types of the answers, and `voltages`. The settings' check stands in check.rt, the
// target in target.rt, the pump and V0 to V4 in levels.rt, the setting finder in finder.rt.
#![tactic(auto)]

ghost use Rattle.std.specs.Prelude.{◌≡◌};
ghost use Rattle.voltage.specs.Voltage.{off};
ghost use Rattle.voltage.specs.Answers.{answered, answer_of};

use checks::Checked;

mod check;
pub mod finder;
mod levels;
mod target;

pub use check::Refusal;

// The controller's settings that the voltages read, under the names that the controller has.
#[derive(Clone, Copy, Debug, PartialEq, Eq)]
pub struct Settings {
    pub contrast: u8,
    pub regulator: u8,
    pub power_control: u8,
    pub booster: u8,
    pub bias: u8,
    pub temperature_slope: u8,
    pub contrast_trim: u8,
    pub otp_control: u8,
}

// The inputs of the voltages besides the settings. `waiting` is the wait after a cold rise of the supply.
#[derive(Clone, Copy, Debug, PartialEq, Eq)]
pub struct Supply {
    pub temperature_millicelsius: i32,
    pub supply_millivolts: u16,
    pub power_save: bool,
    pub waiting: bool,
}

// The pump, the target, and V0 to V4, in microvolts; None is a supply that is absent (not driven within
// the documented conditions). Levels that are read one after another lie apart: in pairs they would be
// loaded before both are stored, which stalls.
#[derive(Clone, Copy, Debug, PartialEq, Eq)]
pub struct LcdVoltages {
    pub pump: Option<u32>,
    pub target: u32,
    pub v0: Option<u32>,
    pub v2: Option<u32>,
    pub v4: Option<u32>,
    pub v1: Option<u32>,
    pub v3: Option<u32>,
}

impl LcdVoltages {
    // Nothing is driven.
    pub const OFF: LcdVoltages = LcdVoltages {
        pump: None,
        target: 0,
        v0: None,
        v1: None,
        v2: None,
        v3: None,
        v4: None,
    };
}

// Ties the constant to its definition.
fn off_voltages() -> LcdVoltages
    ensures { result ≡ off }
{
    LcdVoltages::OFF
}

// The steady supplies under these settings, or the refusal of settings out of their range.
#[tactic(auto, unfolding(crate::specs::Answers::answer_of))]
pub fn voltages(settings: Settings, supply: Supply) -> Result<LcdVoltages, Refusal>
    ensures { answered result ≡ answer_of settings supply }
{
    let settings = Checked::new(settings)?;
    Ok(levels::voltages_of(settings, supply))
}
