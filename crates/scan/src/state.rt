// The scan's own state, in groups: what one rule treats together is one struct.
ghost use Rattle.std.specs.Prelude.{◌≡◌, Some};
ghost use Rattle.clock.specs.Edges.{started};
ghost use Rattle.scan.specs.State.{with_ticking, power_on};

use crate::settings::Frame;
use checks::Checked;
use clock::{Clock, Rate, Time};

// The clock of the scan, where it runs, and the scan's rate.
#[derive(Clone, Copy, Debug, PartialEq, Eq)]
pub struct Ticking {
    pub clock: Option<Clock>,
    pub rate: Rate,
}

// The output latch. `segments` holds it where `latched`; elsewhere it is that of the present memory
// and settings. The C interface shows `segments` there too, so that this is no Option.
#[derive(Clone, Copy, Debug, PartialEq, Eq)]
pub struct Latch {
    pub segments: [u64; 2],
    pub latched: bool,
}

// The polarity, and the rows since it last changed where it changes every `lines` rows. `lines` 0 is
// inversion by frame: that is how the register codes it, and what the C interface shows, so that this is no Option.
#[derive(Clone, Copy, Debug, PartialEq, Eq)]
pub struct Inversion {
    pub lines: u8,
    pub count: u8,
    pub inverted: bool,
}

// The scan: the settings in force since the last frame or row end, the counters, and the
// output latch.
#[derive(Clone, Copy, Debug, PartialEq, Eq)]
pub struct Scan {
    pub ticking: Ticking,
    pub latch: Latch,
    pub frame: Frame,
    pub pwm: u8,
    pub row: u8,
    pub step: u8,
    pub frc: u8,
    pub inversion: Inversion,
}

// A clock that starts at a moment: such a moment and such a rate are not refused.
pub(crate) fn start_clock(at: Checked<Time>, rate: Checked<Rate>) -> Option<Clock>
    ensures { result ≡ Some (started at.value rate.value) }
{
    Clock::new(at.value, rate.value).ok()
}

// The scan with another clock and rate.
pub(crate) fn with_ticking(scan: Scan, clock: Option<Clock>, rate: Rate) -> Scan
    ensures { result ≡ with_ticking scan (record { clock = clock; rate = rate }) }
{
    // Not `Scan { ticking, ..scan }`: that copies field by field, and a byte takes some ns more.
    let mut next = scan;
    next.ticking = Ticking { clock, rate };
    next
}

impl Scan {
    // The scan of a controller that has not run yet.
    pub fn new() -> Self
        ensures { result ≡ power_on }
    {
        Self {
            ticking: Ticking {
                clock: None,
                rate: Rate {
                    numerator: 129024,
                    denominator: 1,
                },
            },
            latch: Latch {
                segments: [0; 2],
                latched: true,
            },
            frame: Frame {
                duty: 128,
                icon: false,
                initial_com: 0,
                common_reverse: false,
                start_line: 0,
                frc_count: 4,
            },
            pwm: 9,
            row: 0,
            step: 0,
            frc: 0,
            inversion: Inversion {
                lines: 0,
                count: 0,
                inverted: false,
            },
        }
    }
}
