// The controller's state, in groups: what the serial line holds, where data goes, the display and
// analog registers, the power, and the scan. RAM and icons are lent by the caller.
ghost use Rattle.std.specs.Prelude.{◌≡◌};
ghost use Rattle.controller.specs.State.{power_on, with_scan};

use clock::Time;
use scan::Scan;

// The palette at power-on and after a reset.
pub(crate) const PALETTE: [u8; 8] = [0, 0, 0, 0, 255, 255, 255, 255];

// The page whose bytes are the icons; those below it are RAM's.
pub(crate) const ICON_PAGE: u8 = 16;

// The serial line: whether it is selected and carries data, the bits of the byte under way, and a
// command byte that awaits its parameter.
#[derive(Clone, Copy, Debug, PartialEq, Eq)]
pub struct Serial {
    pub selected: bool,
    pub data: bool,
    pub shift: u8,
    pub bits: u8,
    pub pending: Option<u8>,
}

// Where the next data byte goes, and a column that was put aside.
#[derive(Clone, Copy, Debug, PartialEq, Eq)]
pub struct Address {
    pub page: u8,
    pub column_byte: u16,
    pub saved_column: Option<u16>,
}

// The flags that commands set, the supply, and the end of the start-up wait while it lasts.
#[derive(Clone, Copy, Debug, PartialEq, Eq)]
pub struct Power {
    pub display_on: bool,
    pub power_save: bool,
    pub oscillator_enabled: bool,
    pub supplied: bool,
    pub supply_millivolts: u16,
    pub temperature_millicelsius: i32,
    pub cold: bool,
    pub ready: Option<Time>,
}

#[derive(Clone, Copy, Debug, PartialEq, Eq)]
pub struct Nt7508 {
    pub scan: Scan,
    pub display: scan::Settings,
    pub analog: voltage::Settings,
    pub power: Power,
    pub address: Address,
    pub serial: Serial,
}

impl Nt7508 {
    // The controller at power-on.
    #[tactic(auto, unfolding(crate::specs::State::power_on))]
    pub fn new() -> Self
        ensures { result ≡ power_on }
    {
        Self {
            scan: Scan::new(),
            display: scan::Settings {
                start_line: 0,
                icon_enabled: false,
                entire_on: false,
                reverse: false,
                segment_reverse: false,
                common_reverse: false,
                initial_com: 0,
                duty: 128,
                inversion_lines: 0,
                gray_mode: 0,
                palette: PALETTE,
                oscillator_control: 0,
                oscillator_frequency: 0,
            },
            analog: voltage::Settings {
                contrast: 32,
                contrast_trim: 0,
                otp_control: 0,
                regulator: 0,
                power_control: 0,
                booster: 0,
                bias: 7,
                temperature_slope: 0,
            },
            power: Power {
                display_on: false,
                power_save: false,
                oscillator_enabled: false,
                supplied: true,
                supply_millivolts: 3000,
                temperature_millicelsius: 20_000,
                cold: false,
                ready: None,
            },
            address: Address {
                page: 0,
                column_byte: 0,
                saved_column: None,
            },
            serial: Serial {
                selected: false,
                data: false,
                shift: 0,
                bits: 0,
                pending: None,
            },
        }
    }
}

// The state with another scan.
#[tactic(auto, unfolding(crate::specs::State::with_scan))]
pub(crate) fn with_scan(state: Nt7508, scan: Scan) -> Nt7508
    ensures { result ≡ with_scan state scan }
{
    Nt7508 { scan, ..state }
}
