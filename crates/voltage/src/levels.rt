// The pump and V0 to V4. Conditions are joined by `&`: each is a plain test, and without branches
// the code has the shape of the rule.
ghost use Rattle.std.specs.Prelude.{◌≡◌, ◌≤◌, ◌<◌};
ghost use Rattle.voltage.specs.Voltage.{works_at, multiple, level_at, pump_present, pump, above, v0_present, share, voltages};

use crate::target::{has_bit, target_of};
use crate::{LcdVoltages, Settings, Supply};
use checks::Checked;

// Whether the analog part works at this temperature.
fn works_at(temperature: i32) -> bool
    ensures { result ≡ works_at temperature }
{
    (-30_000 <= temperature) & (temperature <= 85_000)
}

// How many times the supply the pump gives.
fn multiple_of(booster: u8) -> u32
    ensures { result ≡ multiple booster }
{
    let more = if has_bit(booster, 3) { 4 } else { 0 };
    (3 + u32::from(booster % 4) + more).min(8)
}

#[tactic(auto, unfolding(crate::specs::Voltage::pump_present))]
fn pump_present(power_control: u8, supply: Supply) -> bool
    ensures { result ≡ pump_present power_control supply }
{
    has_bit(power_control, 2)
        & (2400 <= supply.supply_millivolts)
        & (supply.supply_millivolts <= 3600)
        & works_at(supply.temperature_millicelsius)
        & !supply.power_save
        & !supply.waiting
}

#[tactic(auto, unfolding(crate::specs::Voltage::pump))]
fn pump_of(settings: Settings, supply: Supply) -> Option<u32>
    ensures { result ≡ pump settings supply }
{
    let microvolts = u32::from(supply.supply_millivolts) * 1000 * multiple_of(settings.booster);
    pump_present(settings.power_control, supply).then_some(microvolts)
}

fn is_above(level: Option<u32>, limit: u64) -> bool
    ensures { result ≡ above level limit }
{
    level.is_some_and(|v| limit < u64::from(v))
}

// Whether the pump can feed V0 at the target.
#[tactic(auto, unfolding(crate::specs::Voltage::v0_present))]
fn v0_present(power_control: u8, target: u32, pump: Option<u32>) -> bool
    ensures { result ≡ v0_present power_control target pump }
{
    has_bit(power_control, 1)
        & (4_000_000 <= target)
        & (target <= 15_000_000)
        & is_above(pump, u64::from(target) + 3_000_000)
}

// f of n parts of the target, to the nearest.
#[tactic(auto, unfolding(crate::specs::Voltage::share))]
fn share_of(target: u32, n: u8, f: u8) -> u32
    requires n_nonzero { 0 < n }
    requires f_bound { f ≤ n }
    ensures { result ≡ share target n f }
{
    let parts = u64::from(n);
    ((u64::from(target) * u64::from(f) + parts / 2) / parts) as u32
}

fn share_level(present: bool, target: u32, n: u8, f: u8) -> Option<u32>
    requires n_nonzero { 0 < n }
    requires f_bound { f ≤ n }
    ensures { result ≡ level_at present (share target n f) }
{
    // A division is slow, so it is done for a level that is present only.
    present.then(|| share_of(target, n, f))
}

pub(crate) fn voltages_of(settings: Checked<Settings>, supply: Supply) -> LcdVoltages
    ensures { result ≡ voltages settings.value supply }
{
    let target = target_of(settings, supply.temperature_millicelsius);
    let settings = settings.value;
    let pump = pump_of(settings, supply);
    let present = v0_present(settings.power_control, target, pump);
    let divided = present & has_bit(settings.power_control, 0);
    let n = settings.bias + 5;
    LcdVoltages {
        pump,
        target,
        v0: present.then_some(target),
        v1: share_level(divided, target, n, n - 1),
        v2: share_level(divided, target, n, n - 2),
        v3: share_level(divided, target, n, 2),
        v4: share_level(divided, target, n, 1),
    }
}
