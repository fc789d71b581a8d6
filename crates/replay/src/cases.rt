// A line of a list is a case: its kind, then its numbers, as many as the kind has.
ghost use Rattle.std.specs.Prelude.{◌≡◌, ◌<◌, length, IfOk, IfErr, IfSome, Some, None};
ghost use Rattle.replay.specs.Cases.{number_of, count_of, case_view, case_in};

use decimal::Read;

// What a case asks of. A list has its number.
#[derive(Clone, Copy, Debug, PartialEq, Eq)]
pub enum Kind {
    Micros,
    NewClock,
    Edges,
    MovedClock,
    Voltages,
    Scan,
    Start,
    Call,
}

// A number that no kind has.
#[derive(Clone, Copy, Debug, PartialEq, Eq)]
pub struct NoKind;

impl TryFrom<u64> for Kind {
    type Error = NoKind;

    ghost try_from_gives = { λ number answer.
        IfOk answer (λ kind. number_of kind ≡ number) × IfErr answer (λ _. None ≡ count_of number) };

    #[tactic(auto, using(crate::proofs::Reading::no_kind))]
    fn try_from(number: u64) -> Result<Self, NoKind> {
        match number {
            1 => Ok(Kind::Micros),
            2 => Ok(Kind::NewClock),
            3 => Ok(Kind::Edges),
            4 => Ok(Kind::MovedClock),
            5 => Ok(Kind::Voltages),
            6 => Ok(Kind::Scan),
            7 => Ok(Kind::Start),
            8 => Ok(Kind::Call),
            _ => Err(NoKind),
        }
    }
}

impl Kind {
    // How many numbers a case of the kind has.
    #[tactic(auto, unfolding(crate::specs::Cases::length_of))]
    fn count(self) -> usize
        ensures { Some result ≡ count_of (number_of self) }
    {
        match self {
            Kind::Micros => 3,
            Kind::NewClock | Kind::Call => 10,
            Kind::Edges => 9,
            Kind::MovedClock => 11,
            Kind::Voltages => 19,
            Kind::Scan => 108,
            Kind::Start => 77,
        }
    }
}

// The numbers of a case, of which the longest has all. Those of a shorter one are the first.
pub type Numbers = [u64; 108];

// The kind of a case, and what follows its line.
#[derive(Clone, Copy, Debug, PartialEq, Eq)]
pub struct Case<'a> {
    pub kind: Kind,
    pub rest: &'a [u8],
}

// Reads the case that a text starts with, if there is one. Its numbers go to the first words of `w`.
pub fn read_case<'a>(text: &'a [u8], w: &mut [u64]) -> Option<Case<'a>>
    ensures case { (case_view result, w.new) ≡ case_in text.now w.old }
    ensures shorter { IfSome result (λ case. length case.rest.now < length text.now) }
{
    let Read {
        value: number,
        rest,
    } = decimal::field(text, b' ')?;
    let kind = Kind::try_from(number).ok()?;
    let count = kind.count();
    if w.len() < count {
        return None;
    }
    let rest = decimal::read_line(rest, &mut w[..count])?;
    Some(Case { kind, rest })
}
