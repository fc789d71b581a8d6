// The two planes of a row: its bits, the shade that two of them show, and the planes packed, eight
// segments at a time. Eight bits are read as one number and shifted together, so that a word of
// segments takes few instructions.
ghost use Rattle.std.specs.Prelude.{◌≡◌, ◌+◌, ◌/◌, ◌%◌, ◌<◌, ◌≤◌};
ghost use Rattle.scan.specs.Shade.{column_of, page_of};
ghost use Rattle.scan.specs.Planes.{row_bits, AreBits, planes_in, shown_shade, eight_from, planes_from};

use crate::memory::Ram;
use crate::settings::Settings;

// The bits of a row, one of each of the 256 bytes that it stands in.
#[derive(Drop)]
pub(crate) struct RowBits {
    bits: [u8; 256],
    ghost are_bits: { AreBits bits },
}

impl RowBits {
    // The bits of the row that stands at `place` in the bytes of a page, or of the icons.
    pub(crate) fn new(part: &[u8; 256], place: u8) -> RowBits
        requires { place < 8 }
        ensures { result.bits ≡ row_bits part.now place }
    {
        let mut bits = [0; 256];
        // `part` by index: of what is written through a `zip` a proof knows nothing. Array `map` was tried, and
        // the proof did not close: it says of each element only what some call of the closure gives, and not
        // that `place` is still the same at that call.
        for (at, bit) in bits.iter_mut().enumerate() {
            *bit = (part[at] >> place) % 2;
        }
        RowBits { bits }
    }

    // The bits of a row of RAM: eight rows stand in the 256 bytes of a page.
    pub(crate) fn of_ram(ram: &Ram, row: u8) -> RowBits
        requires { row < 128 }
        ensures { result.bits ≡ row_bits (page_of ram.now (row / 8)) (row % 8) }
    {
        let at = usize::from(row / 8) * 256;
        RowBits::new(ram[at..at + 256].as_array().unwrap(), row % 8)
    }

    // The two bits of a segment as a number, the high one in its column's first byte.
    pub(crate) fn planes(&self, reversed: bool, segment: usize) -> usize
        requires { segment < 128 }
        ensures value { result ≡ planes_in self.now.bits (column_of reversed segment) }
        ensures upper_bound { result < 4 }
    {
        let column = if reversed { 127 - segment } else { segment };
        usize::from(2 * self.bits[2 * column] + self.bits[2 * column + 1])
    }

    // Eight bits as digits of base 256.
    fn eight(&self, from: usize) -> u64
        requires { from + 8 ≤ 256 }
        ensures exact { result ≡ eight_from self.now.bits from }
        ensures small { result ≤ 72340172838076673 }
    {
        u64::from_le_bytes(self.bits[from..from + 8].try_into().unwrap())
    }

    // The planes of eight segments, the high plane in the lower byte: each of the four digits of base
    // 2^16 has a bit of a plane in each of its four parts, and they are shifted together. In the order of
    // the columns a digit counts twice as much as the one below it, against it half as much.
    pub(crate) fn eight_planes(&self, reversed: bool, segment: usize) -> u64
        requires { segment + 8 ≤ 128 }
        ensures { result ≡ planes_from self.now.bits reversed segment }
    {
        if reversed {
            let at = 240 - 2 * segment;
            let digits = self.eight(at + 8) + self.eight(at) * 16;
            let pairs = digits * 2 + digits / 0x1_0000;
            (pairs * 4 + pairs / 0x1_0000_0000) % 0x1_0000
        } else {
            let at = 2 * segment;
            let digits = self.eight(at) + self.eight(at + 8) * 16;
            let pairs = digits + digits / 0x8000;
            (pairs + pairs / 0x4000_0000) % 0x1_0000
        }
    }
}

// The shade that the two bits of a segment show, by their number.
pub(crate) fn shown_shade(settings: Settings, planes: u8) -> u8
    ensures { result ≡ shown_shade settings planes }
{
    if settings.entire_on {
        3
    } else if settings.reverse {
        3u8.saturating_sub(planes)
    } else {
        planes
    }
}
