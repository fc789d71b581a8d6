// A line: microseconds, a word and a value.
ghost use Rattle.std.specs.Prelude.{◌≡◌, ◌≤◌, pos, neg_ℤ, IfSome};
ghost use Rattle.session.specs.Line.{value_at as value_of, below_zero, temperature_at, look_of, action_of, line_of};

use decimal::Read;

// The action that a word and its value ask for.
#[derive(Clone, Copy, Debug, PartialEq, Eq)]
pub enum Action {
    Byte(u8),
    Data(bool),
    Select(bool),
    Supply(u16),
    Temperature(i32),
    Deadline,
    Update,
    Drive,
}

#[derive(Clone, Copy, Debug, PartialEq, Eq)]
pub struct Line {
    pub us: u64,
    pub action: Action,
}

// The value that a text starts with, up to a largest one, with the newline behind it. The largest one is the rule's, and
// where the value is cast below no bit is lost by it: `try_from` would test the same again.
fn value(text: &[u8], most: u64) -> Option<u64>
    ensures value { result ≡ value_of text.now 0 most }
    ensures bound { IfSome result (λ value. value ≤ most) }
{
    let value = decimal::field(text, b'\n')?.value;
    (value <= most).then_some(value)
}

// The negative of a number of 32 bits.
fn negative(value: u64) -> i32
    requires { value ≤ 2147483648 }
    ensures { result ≡ neg_ℤ (pos value) }
{
    (0 - value as i64) as i32
}

// A temperature below 0, behind its minus.
fn below_zero(value: u64) -> Option<Action>
    requires { value ≤ 2147483648 }
    ensures { result ≡ below_zero value }
{
    if value == 0 {
        return None;
    }
    Some(Action::Temperature(negative(value)))
}

fn temperature_of(text: &[u8]) -> Option<Action>
    ensures { result ≡ temperature_at text.now 0 1 }
{
    if let Some(rest) = text.strip_prefix(b"-") {
        return below_zero(value(rest, 2147483648)?);
    }
    Some(Action::Temperature(value(text, 2147483647)? as i32))
}

fn look_of(text: &[u8]) -> Option<Action>
    ensures { result ≡ look_of text.now }
{
    if let Some(rest) = text.strip_prefix(b"deadline ") {
        value(rest, 0)?;
        return Some(Action::Deadline);
    }
    if let Some(rest) = text.strip_prefix(b"update ") {
        value(rest, 0)?;
        return Some(Action::Update);
    }
    if let Some(rest) = text.strip_prefix(b"drive ") {
        value(rest, 0)?;
        return Some(Action::Drive);
    }
    None
}

fn action_of(text: &[u8]) -> Option<Action>
    ensures { result ≡ action_of text.now }
{
    if let Some(rest) = text.strip_prefix(b"byte ") {
        return Some(Action::Byte(value(rest, 255)? as u8));
    }
    if let Some(rest) = text.strip_prefix(b"dc ") {
        return Some(Action::Data(value(rest, 1)? == 1));
    }
    if let Some(rest) = text.strip_prefix(b"select ") {
        return Some(Action::Select(value(rest, 1)? == 1));
    }
    if let Some(rest) = text.strip_prefix(b"supply ") {
        return Some(Action::Supply(value(rest, 65535)? as u16));
    }
    if let Some(rest) = text.strip_prefix(b"temp ") {
        return temperature_of(rest);
    }
    look_of(text)
}

// Reads a line, its newline included.
pub(crate) fn line_of(text: &[u8]) -> Option<Line>
    ensures { result ≡ line_of text.now }
{
    let Read { value: us, rest } = decimal::field(text, b' ')?;
    let action = action_of(rest)?;
    Some(Line { us, action })
}
