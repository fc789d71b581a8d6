// A text: its names line, and where its lines end.
ghost use Rattle.std.specs.Prelude.{◌≡◌, nat_eq, ◌<◌, length, IfSome};
ghost use Rattle.std.specs.List.{position};
ghost use Rattle.decimal.specs.Rest.{rest_view};
ghost use Rattle.session.specs.Text.{opened, line_length as length_of};

// The most bytes that a text may have.
pub const LONGEST: usize = 65536;

// The lines behind the names line of a text, if it is short enough and starts with that line.
pub(crate) fn lines_behind(text: &[u8]) -> Option<&[u8]>
    ensures lines { rest_view result ≡ opened text.now }
    ensures short { IfSome result (λ rest. length rest.now < 65536) }
{
    if text.len() > LONGEST {
        return None;
    }
    text.strip_prefix(b"us call value\n")
}

// The place of the first newline, if there is one.
fn newline(text: &[u8]) -> Option<usize>
    ensures { result ≡ position (λ b. nat_eq b 10) text.now }
{
    text.iter().position(|&byte| byte == b'\n')
}

// How many bytes the first line of a text has, its newline included; the last line may lack one.
pub(crate) fn line_length(text: &[u8]) -> usize
    ensures { result ≡ length_of text.now }
{
    match newline(text) {
        Some(newline) => newline + 1,
        None => text.len(),
    }
}
