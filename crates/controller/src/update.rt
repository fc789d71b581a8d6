// The update call: the scan stays as counted to a moment.
ghost use Rattle.std.specs.Prelude.{◌≡◌};
ghost use Rattle.controller.specs.Update.{answered_update, update as update_of};

use crate::check::{Refusal, check_registers};
use crate::state::{Nt7508, with_scan};
use clock::Time;

// The state with its scan counted to the moment, and how many pieces that took. The scan's `Counted` is the same of a
// scan: of one generic type callers could no more read `scan` and `state` by these names.
#[derive(Clone, Copy, Debug, PartialEq, Eq)]
pub struct Updated {
    pub state: Nt7508,
    pub pieces: u8,
}

impl Nt7508 {
    // Counts the scan to a moment for good. No other call answers otherwise for it.
    pub fn update(self, now: Time) -> Result<Updated, Refusal>
        ensures { answered_update self result ≡ update_of self now }
    {
        check_registers(&self, now)?;
        // The scan's own call checks the scan.
        let counted = self.scan.count_to(self.display, now)?;
        Ok(Updated {
            state: with_scan(self, counted.scan),
            pieces: counted.pieces,
        })
    }
}
