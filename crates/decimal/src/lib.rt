// Reads unsigned decimals at the start of a text: digits with no leading zero, in 64 bits. A line of
// them has one space between two and a newline after the last. What follows is given as the rest of
// the text. `print` puts decimals into lent bytes.
#![tactic(auto)]

ghost use Rattle.std.specs.Prelude.{◌≡◌, ◌+◌, ◌≤◌, length, IfSome};
ghost use Rattle.decimal.specs.Decimal.{separator};
ghost use Rattle.decimal.specs.Rest.{read_view, rest_view, digit_in, decimal_of, number_in, field_in, line_in};

mod print;

pub use print::Writer;

// A number that was read, and what follows it.
#[derive(Clone, Copy, Debug, PartialEq, Eq)]
pub struct Read<'a> {
    pub value: u64,
    pub rest: &'a [u8],
}

// The digit at the start of a text, and what follows it.
fn digit(text: &[u8]) -> Option<Read<'_>>
    ensures { read_view result ≡ digit_in text.now }
{
    let (&byte, rest) = text.split_first()?;
    if !byte.is_ascii_digit() {
        return None;
    }
    Some(Read {
        value: u64::from(byte - b'0'),
        rest,
    })
}

// What these digits spell, if they are a decimal.
fn decimal_of<'a>(digits: &[u8], value: u64, rest: &'a [u8]) -> Option<Read<'a>>
    ensures { read_view result ≡ decimal_of digits.now value rest.now }
{
    match digits {
        [] | [b'0', _, ..] => None,
        _ => Some(Read { value, rest }),
    }
}

// The number at the start of a text: its digits, as many as there are.
pub fn number(text: &[u8]) -> Option<Read<'_>>
    ensures { read_view result ≡ number_in text.now }
{
    let mut value: u64 = 0;
    let mut rest = text;
    while let Some(next) = digit(rest) {
        value = value.checked_mul(10)?.checked_add(next.value)?;
        rest = next.rest;
    }
    decimal_of(&text[..text.len() - rest.len()], value, rest)
}

// A number with a certain byte after it, and what follows that.
pub fn field(text: &[u8], end: u8) -> Option<Read<'_>>
    ensures { read_view result ≡ field_in text.now end }
{
    let Read { value, rest } = number(text)?;
    let (&byte, rest) = rest.split_first()?;
    (byte == end).then_some(Read { value, rest })
}

// The byte behind a number that has so many behind it: a newline after the last, else a space.
fn byte_after(left: usize) -> u8
    ensures { result ≡ separator left }
{
    if left == 0 { b'\n' } else { b' ' }
}

// Reads the numbers of a line, as many as `out` has words, and gives what follows the line.
pub fn read_line<'a>(text: &'a [u8], out: &mut [u64]) -> Option<&'a [u8]>
    ensures line { (rest_view result, out.new) ≡ line_in text.now out.old }
    ensures within { IfSome result (λ rest. length rest.now + length out.old ≤ length text.now) }
{
    let mut rest = text;
    let count = out.len();
    for (i, word) in out.iter_mut().enumerate() {
        let number = field(rest, byte_after(count - 1 - i))?;
        *word = number.value;
        rest = number.rest;
    }
    Some(rest)
}
