// A whole byte's effect on the scan, in one call with one check of the scan. Document 01, 'Scan'.
ghost use Rattle.std.specs.Prelude.{◌≡◌};
ghost use Rattle.scan.specs.Check.{answered};
ghost use Rattle.scan.specs.Latch.{retained as retained_of};
ghost use Rattle.scan.specs.Run.{updated as updated_of, byte_scan};

use crate::check::{Refusal, check_lent};
use crate::count::latest;
use crate::latch::{latch_retained, stays_shown};
use crate::memory::{Lent, Memory};
use crate::run::{Running, updated};
use crate::settings::Settings;
use crate::state::Scan;
use checks::Checked;
use clock::Time;

// A counted scan after a byte: its latch retained by the settings before it, then updated by those after
// it.
fn altered(
    scan: Checked<Scan>,
    before: Settings,
    after: Checked<Settings>,
    moment: Checked<Time>,
    page: Option<u8>,
    running: Running,
    lent: Lent<'_>,
) -> Scan
    ensures { result ≡ updated_of (retained_of scan.value before page lent.entry.ram.now lent.entry.icons.now) after.value moment.value running lent.entry.ram.now lent.entry.icons.now }
{
    // Not `retained`: that copies the scan once more, and a byte takes 1 to 2 ns more.
    if stays_shown(scan.value, page) {
        return updated(scan, after, moment, running, lent);
    }
    let retained = Checked {
        value: latch_retained(scan.value, before, lent),
    };
    updated(retained, after, moment, running, lent)
}

impl Scan {
    // The scan after a byte that found `before` and left `after`.
    pub fn byte(
        self,
        before: Settings,
        after: Settings,
        moment: Time,
        page: Option<u8>,
        running: Running,
        memory: Memory<'_>,
    ) -> Result<Scan, Refusal>
        ensures { answered self result ≡ byte_scan self before after moment page running memory.entry.ram.now memory.entry.icons.now }
    {
        let lent = check_lent(self, before.valid() & after.valid(), moment, memory)?;
        let moment = Checked { value: moment };
        let counted = latest(Checked { value: self }, Checked { value: before }, moment);
        let after = Checked { value: after };
        Ok(altered(counted, before, after, moment, page, running, lent))
    }
}
