// The session program over words (crates/session). What a session ends with is two words: how many
// bytes of the listing it wrote, and the line of its refusal, 0 where there is none. RAM and icons stand apart, as in
// controller_words.rt.
ghost use Rattle.std.specs.Prelude.{◌≡◌, [], ◌∷◌};
ghost use Rattle.session.specs.Session.{refused_at};
ghost use Rattle.ffi.specs.SessionWords.{refusal_number, refusal_line, answered, session_on};

use crate::controller_words::NO_STATE;
use crate::state_words::put_state;
use checks::Numbered;
use session::Stop;

// Not by `put`: the words go out with a refusal too. `as`, since std has no `From<usize>` for u64; a length fits.
fn put_end(written: usize, end: Result<(), Stop>, ended: &mut [u64; 2]) -> u64
    ensures answers { result ≡ refusal_number (refused_at end) }
    ensures leaves { ended.new ≡ written ∷ refusal_line (refused_at end) ∷ [] }
{
    match end {
        Ok(()) => {
            *ended = [written as u64, 0];
            0
        }
        Err(stop) => {
            *ended = [written as u64, stop.line];
            stop.why.number()
        }
    }
}

// Runs a text from power-on on lent memory and prints its listing into lent bytes. The block, which
// may hold anything, RAM and icons get what the session left, also where a line is refused.
pub fn nt7508_session(
    text: &[u8],
    state: &mut [u64],
    ram: &mut [u8],
    icons: &mut [u8],
    listing: &mut [u8],
    ended: &mut [u64; 2],
) -> u64
    ensures { answered result state.new ram.new icons.new listing.new ended.new ≡ session_on text.now state.old ram.old icons.old listing.old ended.old }
{
    let Some(block) = state.as_mut_array() else {
        return NO_STATE;
    };
    let answer = session::run(text, ram, icons, listing);
    put_state(answer.state, block);
    put_end(answer.written, answer.end, ended)
}
