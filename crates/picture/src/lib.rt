// The panel at the end of a session as a PGM picture in lent bytes.
#![tactic(auto)]

ghost use Rattle.std.specs.Prelude.{◌≡◌, map};
ghost use Rattle.decimal.specs.Print.{put};
ghost use Rattle.session.specs.Session.{refused_at};
ghost use Rattle.picture.specs.Picture.{gray_of, picture_of, shown_at, drawn, written};

use checks::{Checked, Numbered};
use controller::Nt7508;
use decimal::Writer;
use scan::{IMAGE_BYTES, Icons, Memory, Ram};
use session::{Stop, put_refusal};

// The bytes of a picture; a refusal's line has fewer.
pub const LENGTH: usize = 6157;

fn gray_of(level: u8) -> u8
    ensures { result ≡ gray_of level }
{
    255 - level
}

// Puts the grays of an image.
#[tactic(auto, using(crate::proofs::Drawing::grays_next, crate::proofs::Drawing::grays_done))]
fn put_grays(w: &mut Writer<'_>, image: &[u8])
    ensures same { w.new.out.ghost_name ≡ w.old.out.ghost_name }
    ensures puts { (w.new.out.now, w.new.at) ≡ put (w.old.out.now, w.old.at) (map gray_of image.now) }
{
    for &level in image {
        w.put_byte(gray_of(level));
    }
}

// Puts the picture of a controller and its memory. A state that passed its checks is not refused an image, and
// neither is memory whose types tell its lengths: so it comes as two arrays, and not as `Memory`.
fn put_picture(w: &mut Writer<'_>, state: Checked<Nt7508>, ram: &Ram, icons: &Icons)
    ensures same { w.new.out.ghost_name ≡ w.old.out.ghost_name }
    ensures puts { (w.new.out.now, w.new.at) ≡ put (w.old.out.now, w.old.at) (picture_of (record { state = state.value; ram = ram.now; icons = icons.now })) }
{
    let mut image = [0u8; IMAGE_BYTES];
    state
        .value
        .render(Memory { ram, icons }, &mut image)
        .unwrap();
    w.put_bytes(b"P5\n96 64\n255\n");
    put_grays(w, &image);
}

// Puts what a session ended with: its picture, or the line of its refusal. (A function of its own: where
// the listing's array stands beside a writer, the proof did not close.)
fn put_end(
    out: &mut [u8],
    end: Result<(), Stop>,
    state: Checked<Nt7508>,
    ram: &Ram,
    icons: &Icons,
) -> usize
    ensures { (out.new, result) ≡ put (out.old, 0) (shown_at (refused_at end) (record { state = state.value; ram = ram.now; icons = icons.now })) }
{
    let mut w = Writer::new(out);
    if let Err(stop) = end {
        put_refusal(&mut w, stop.why.number(), stop.line);
        return w.at;
    }
    put_picture(&mut w, state, ram, icons);
    w.at
}

// Runs a text from power-on with memory 0 and draws the panel at its end, or, where it is refused, writes
// the line of the refusal. Answers how many of the lent bytes were written.
pub fn draw(text: &[u8], out: &mut [u8; LENGTH]) -> usize
    ensures { (out.new, result) ≡ written out.old (drawn text.now) }
{
    let mut ram: Ram = [0; _];
    let mut icons: Icons = [0; _];
    let mut listing = [0u8; session::ROOM];
    let ended = session::run(text, &mut ram, &mut icons, &mut listing);
    put_end(out, ended.end, Checked { value: ended.state }, &ram, &icons)
}
