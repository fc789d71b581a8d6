// The check of the settings: number 3 of document 01's table.
ghost use Rattle.std.specs.Prelude.{◌≡◌};
ghost use Rattle.voltage.specs.Check.{number as number_of, valid_booster, valid_settings, settings_row};

use crate::Settings;
use crate::target::has_bit;
use checks::{Check, Numbered};

// Why a call is turned down: `number` of specs/Check.antt gives it its number.
#[derive(Clone, Copy, Debug, PartialEq, Eq)]
pub enum Refusal {
    Settings,
}

impl Numbered for Refusal {
    ghost number = { number_of };

    fn number(self) -> u64 {
        match self {
            Refusal::Settings => 3,
        }
    }
}

// Of the booster's bits only 0, 1 and 3 are assigned.
fn valid_booster(booster: u8) -> bool
    ensures { result ≡ valid_booster booster }
{
    (booster <= 11) & !has_bit(booster, 2)
}

impl Settings {
    // Whether every setting is in the range that the controller's `validate` demands.
    #[tactic(auto, unfolding(crate::specs::Check::valid_settings))]
    pub fn valid(self) -> bool
        ensures { result ≡ valid_settings self }
    {
        (self.contrast <= 63)
            & (self.regulator <= 7)
            & (self.power_control <= 7)
            & valid_booster(self.booster)
            & (self.bias <= 7)
            & (self.temperature_slope <= 1)
            & (self.contrast_trim <= 15)
            & (self.otp_control <= 3)
    }
}

// Number 3.
impl Check for Settings {
    type Refusal = Refusal;

    ghost refusal = { settings_row };

    fn check(self) -> Result<(), Refusal> {
        if !self.valid() {
            return Err(Refusal::Settings);
        }
        Ok(())
    }
}
