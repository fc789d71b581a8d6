// Prints bytes and unsigned decimals into lent bytes. What is behind their end is left out; a place
// never passes that end.
ghost use Rattle.std.specs.Prelude.{◌≡◌};
ghost use Rattle.decimal.specs.Print.{decimal, put_byte, put};

use itoa::Buffer;

// Lent bytes, and the place where the next byte is put. (Each call also says that the bytes are still
// those that were lent: by that their lender knows what they hold after it.)
#[derive(Drop)]
pub struct Writer<'a> {
    pub out: &'a mut [u8],
    pub at: usize,
}

impl<'a> Writer<'a> {
    // Starts at the first byte.
    pub fn new(out: &'a mut [u8]) -> Writer<'a>
        ensures same { result.out.ghost_name ≡ out.entry.ghost_name }
        ensures starts { result.out.now ≡ out.old }
        ensures at { result.at ≡ 0 }
    {
        Writer { out, at: 0 }
    }

    // Puts a byte.
    pub fn put_byte(&mut self, byte: u8)
        ensures same { self.new.out.ghost_name ≡ self.old.out.ghost_name }
        ensures puts { (self.new.out.now, self.new.at) ≡ put_byte (self.old.out.now, self.old.at) byte }
    {
        if self.at < self.out.len() {
            self.out[self.at] = byte;
            self.at += 1;
        }
    }

    // Puts bytes one behind another.
    pub fn put_bytes(&mut self, bytes: &[u8])
        ensures same { self.new.out.ghost_name ≡ self.old.out.ghost_name }
        ensures puts { (self.new.out.now, self.new.at) ≡ put (self.old.out.now, self.old.at) bytes.now }
    {
        for &byte in bytes {
            self.put_byte(byte);
        }
    }

    // Puts the digits of a number.
    pub fn put_number(&mut self, n: u64)
        ensures same { self.new.out.ghost_name ≡ self.old.out.ghost_name }
        ensures puts { (self.new.out.now, self.new.at) ≡ put (self.old.out.now, self.old.at) (decimal n) }
    {
        let mut digits = Buffer::new();
        self.put_bytes(digits.format(n).as_bytes());
    }
}
