// Sessions. In their list each is a line of seven numbers, then the bytes of its text, then those of the
// listing that the session program over the original prints. The numbers:
//   how many bytes the text has, and the listing; the number and the line of the refusal, or 0 0; the sums
//   of the block, of RAM and of icons after it, which are made as in kind 8 (controller_cases.rt)
use crate::controller_cases::Machine;
use ffi::session_words::nt7508_session;
use replay::{Cases, Replayed};
use session::ROOM;

// Room for a listing. A function of its own, so that its length is known from its type: where the array was made in
// `agrees`, the check of that function did not end.
fn room() -> [u8; ROOM] {
    [0; ROOM]
}

// Runs a text on lent memory, and answers whether it goes as the numbers and the listing say.
fn agrees(w: &[u64; 7], text: &[u8], listing: &[u8]) -> bool {
    let mut machine = Machine::new();
    let mut out = room();
    let mut ended = [0u64; 2];
    let number = nt7508_session(
        text,
        &mut machine.block,
        &mut machine.ram,
        &mut machine.icons,
        &mut out,
        &mut ended,
    );
    (number == w[2])
        & (ended[1] == w[3])
        & (ended[0] == listing.len() as u64)
        & out.starts_with(listing)
        & machine.has_sums([w[4], w[5], w[6]])
}

// The sessions of a list: each is run by itself.
#[derive(Drop)]
pub(crate) struct Sessions;

impl Cases for Sessions {
    ghost use Rattle.std.specs.Prelude.{⊤};

    ghost gives = { λ sessions list answer left. ⊤ };

    fn replay<'a>(&mut self, list: &'a [u8]) -> Option<Replayed<'a>> {
        let mut w = [0u64; 7];
        let texts = decimal::read_line(list, &mut w)?;
        // `as`, since std has no `From<u64>` for usize; both have 64 bits.
        let (text, listings) = texts.split_at_checked(w[0] as usize)?;
        let (listing, rest) = listings.split_at_checked(w[1] as usize)?;
        Some(Replayed {
            rest,
            agrees: agrees(&w, text, listing),
        })
    }
}
