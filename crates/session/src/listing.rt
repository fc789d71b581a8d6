// The listing: a line for each drive, and one for a refusal.
ghost use Rattle.std.specs.Prelude.{◌≡◌, [], ◌∷◌};
ghost use Rattle.decimal.specs.Print.{put};
ghost use Rattle.session.specs.Listing.{listing_names, field_text, inverted_field, lit_of, frame_field, row_of, drive_line, refusal_line};

use decimal::Writer;
use scan::Driven;

// The fields that are printed of a drive. (A drive itself is larger, by the segments that are only counted.)
#[derive(Clone, Copy, Debug, PartialEq, Eq)]
pub struct Row {
    pub lit: u64,
    pub common: Option<u8>,
    pub inverted: bool,
    pub v0: Option<u32>,
    pub frame: u16,
}

// Puts the names line.
pub(crate) fn put_names(w: &mut Writer<'_>)
    ensures same { w.new.out.ghost_name ≡ w.old.out.ghost_name }
    ensures puts { (w.new.out.now, w.new.at) ≡ put (w.old.out.now, w.old.at) listing_names }
{
    w.put_bytes(b"us common inverted v0 lit frame\n");
}

// Puts a field, a number or `-`, and the byte behind it.
fn put_field(w: &mut Writer<'_>, field: Option<u64>, end: u8)
    ensures same { w.new.out.ghost_name ≡ w.old.out.ghost_name }
    ensures puts { (w.new.out.now, w.new.at) ≡ put (w.old.out.now, w.old.at) (field_text field end) }
{
    match field {
        Some(n) => w.put_number(n),
        None => w.put_byte(b'-'),
    }
    w.put_byte(end);
}

fn inverted_field(inverted: bool) -> Option<u64>
    ensures { result ≡ inverted_field inverted }
{
    Some(u64::from(inverted))
}

// How many segments are active in the two words.
fn lit_in(low: u64, high: u64) -> u64
    ensures { result ≡ lit_of (low ∷ high ∷ []) }
{
    u64::from(low.count_ones()) + u64::from(high.count_ones())
}

fn frame_field(common: Option<u8>, frame: u16) -> Option<u64>
    ensures { result ≡ frame_field common frame }
{
    common.map(|_| u64::from(frame))
}

// The fields that are printed of a drive.
pub(crate) fn row_of(driven: Driven) -> Row
    ensures { result ≡ row_of driven.drive driven.frame }
{
    let drive = driven.drive;
    Row {
        lit: lit_in(drive.segments[0], drive.segments[1]),
        common: drive.common,
        inverted: drive.inverted,
        v0: drive.voltages.v0,
        frame: driven.frame,
    }
}

// Puts the line of a drive.
pub(crate) fn put_drive(w: &mut Writer<'_>, us: u64, row: Row)
    ensures same { w.new.out.ghost_name ≡ w.old.out.ghost_name }
    ensures puts { (w.new.out.now, w.new.at) ≡ put (w.old.out.now, w.old.at) (drive_line us row) }
{
    put_field(w, Some(us), b' ');
    put_field(w, row.common.map(u64::from), b' ');
    put_field(w, inverted_field(row.inverted), b' ');
    put_field(w, row.v0.map(u64::from), b' ');
    put_field(w, Some(row.lit), b' ');
    put_field(w, frame_field(row.common, row.frame), b'\n');
}

// Puts the line of a refusal.
pub fn put_refusal(w: &mut Writer<'_>, number: u64, line: u64)
    ensures same { w.new.out.ghost_name ≡ w.old.out.ghost_name }
    ensures puts { (w.new.out.now, w.new.at) ≡ put (w.old.out.now, w.old.at) (refusal_line number line) }
{
    w.put_bytes(b"refused ");
    put_field(w, Some(number), b' ');
    w.put_bytes(b"line ");
    put_field(w, Some(line), b'\n');
}
