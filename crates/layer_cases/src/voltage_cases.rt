// Cases of the voltages: what is answered in the cases P1 to P5 of document 01, 'Edge figures', some
// answers of the setting finder, and one kind of lines.
use crate::words::bytes_of;
use ffi::voltage_words::nt7508_voltages;
use replay::Numbers;
use std::io;
use voltage::finder::Pair;
use voltage::{LcdVoltages, Settings, Supply};

// All of the power control on, slope 0, no trim.
fn settings(regulator: u8, contrast: u8, booster: u8, bias: u8) -> Settings {
    Settings {
        contrast,
        contrast_trim: 0,
        otp_control: 0,
        regulator,
        power_control: 7,
        booster,
        bias,
        temperature_slope: 0,
    }
}

fn supply(supply_millivolts: u16, temperature_millicelsius: i32) -> Supply {
    Supply {
        supply_millivolts,
        temperature_millicelsius,
        power_save: false,
        waiting: false,
    }
}

fn level(rt: &impl Print, level: Option<u32>) -> io::Result<()> {
    match level {
        Some(microvolts) => print!(rt; " {microvolts}"),
        None => print!(rt; " -"),
    }
}

// The pump, the target, and V0 to V4.
fn show(rt: &impl Print, v: LcdVoltages) -> io::Result<()> {
    for shown in [v.pump, Some(v.target), v.v0, v.v1, v.v2, v.v3, v.v4] {
        level(rt, shown)?;
    }
    println!(rt; "")
}

fn case(rt: &impl Print, name: &str, settings: Settings, supply: Supply) -> io::Result<()> {
    print!(rt; "{name}")?;
    match voltage::voltages(settings, supply) {
        Ok(v) => show(rt, v),
        Err(_) => println!(rt; " refused"),
    }
}

// The pair that the finder answers for a band, at 25,000 millidegrees.
fn find(rt: &impl Print, low: u32, high: u32) -> io::Result<()> {
    print!(rt; "find")?;
    match voltage::finder::find_setting(settings(0, 0, 0, 0), 25000, low, high) {
        Ok(
            Some(
                Pair {
                    regulator,
                    contrast,
                },
            ),
        ) => println!(rt; " {regulator} {contrast}"),
        Ok(None) => println!(rt; " none"),
        Err(_) => println!(rt; " refused"),
    }
}

pub(crate) fn figures(rt: &impl Print) -> io::Result<()> {
    println!(rt; "case pump target v0 v1 v2 v3 v4")?;
    print!(rt; "OFF")?;
    show(rt, LcdVoltages::OFF)?;
    case(rt, "P1", settings(0, 32, 0, 0), supply(3000, 25000))?;
    case(rt, "P2", settings(0, 32, 0, 0), supply(3000, 20000))?;
    case(rt, "P3", settings(7, 61, 11, 0), supply(3600, 25000))?;
    case(rt, "P3", settings(7, 62, 11, 0), supply(3600, 25000))?;
    case(rt, "P4", settings(1, 53, 0, 0), supply(3000, 25000))?;
    case(rt, "P4", settings(1, 53, 0, 0), supply(3001, 25000))?;
    case(rt, "P5", settings(1, 53, 0, 7), supply(3001, 25000))?;
    case(rt, "regulator", settings(8, 53, 0, 7), supply(3001, 25000))?;
    find(rt, 4117000, 4117000)?;
    find(rt, 15000000, 15047999)?;
    find(rt, 4117000, 4116999)
}

// A yes is 1, and a no 0.
fn flag_of(word: u64) -> Option<bool> {
    (word < 2).then_some(word == 1)
}

// The answer to what a line asks, if its fields can hold the numbers.
fn answer(w: &Numbers) -> Option<[u64; 7]> {
    let settings = bytes_of(&w[..8])?;
    let supply = Supply {
        supply_millivolts: u16::try_from(w[8]).ok()?,
        temperature_millicelsius: ffi::temperature_of(u64::from(u32::try_from(w[9]).ok()?)),
        power_save: flag_of(w[10])?,
        waiting: flag_of(w[11])?,
    };
    let mut out = [0; 7];
    (nt7508_voltages(&settings, supply, &mut out) == 0).then_some(out)
}

// Kind 5: contrast regulator power_control booster bias slope trim otp, supply (mV) temperature
// (millidegrees C, and 2^31) power_save waiting | target pump v0 v1 v2 v3 v4 (microvolts, 2^32 none)
pub(crate) fn agrees(w: &Numbers) -> bool {
    answer(w).is_some_and(|voltages| voltages[..] == w[12..19])
}
