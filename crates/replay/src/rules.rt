// The rules of a list: memory stands there as two numbers, and a long answer as its sum.
ghost use Rattle.std.specs.Prelude.{◌≡◌, ◌+◌, ◌%◌};
ghost use Rattle.replay.specs.Rules.{added as added_to, sum_of, sum_of_words, filled};

// One number more in a sum.
pub fn added(sum: u64, x: u64) -> u64
    ensures { result ≡ added_to sum x }
{
    (31 * (sum % 4294967296) + x % 4294967296) % 4294967296
}

pub fn sum_of(bytes: &[u8]) -> u64
    ensures { result ≡ sum_of bytes.now }
{
    bytes
        .iter()
        .fold(0, |sum, &byte| added(sum, u64::from(byte)))
}

// The sum of the halves of words, the high half of each first.
pub fn sum_of_words(words: &[u64]) -> u64
    ensures { result ≡ sum_of_words words.now }
{
    words.iter().fold(
        0,
        |sum, word| added(added(sum, word / 4294967296), word % 4294967296),
    )
}

// Memory by two numbers: byte i is (step i + first) mod 251.
pub fn fill(step: u64, first: u64, memory: &mut [u8])
    ensures { memory.new ≡ filled step first memory.old }
{
    let mut value = first % 251;
    for byte in memory.iter_mut() {
        *byte = value as u8;
        value = (value + step % 251) % 251;
    }
}

// RAM and icons by two numbers: icon byte i is (step i + first + 1) mod 251. The remainder leaves that sum room.
pub fn fill_memory(step: u64, first: u64, ram: &mut [u8], icons: &mut [u8])
    ensures ram { ram.new ≡ filled step first ram.old }
    ensures icons { icons.new ≡ filled step (first % 251 + 1) icons.old }
{
    fill(step, first, ram);
    fill(step, first % 251 + 1, icons);
}
