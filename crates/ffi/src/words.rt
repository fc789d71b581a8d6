// What the calls of all layers share: the words of a value, and the status of an answer.
ghost use Rattle.std.specs.Prelude.{◌≡◌, Option};
ghost use Rattle.checks.specs.Checks.{refused_by, numbered};
ghost use Rattle.ffi.specs.Words.{status, check_status, stored, optional_words, optional_two};

use checks::Numbered;

// A value that goes out as words, or as a number.
pub(crate) trait Words {
    type Words: Drop;

    ghost words: { Self → Self.Words };

    fn words(self) -> Self::Words
        ensures { result ≡ words self };
}

impl Words for u8 {
    type Words = u8;

    ghost words = { λ n. n };

    fn words(self) -> u8 {
        self
    }
}

impl Words for u64 {
    type Words = u64;

    ghost words = { λ n. n };

    fn words(self) -> u64 {
        self
    }
}

// Whether a number is there, and which.
pub(crate) fn optional_words(number: Option<u64>) -> [u64; 2]
    ensures { result ≡ optional_words number }
{
    match number {
        None => [0; 2],
        Some(n) => [1, n],
    }
}

// A value that may not be there: whether it is, and its two words.
impl<T: Words<Words = [u64; 2]>> Words for Option<T> {
    type Words = [u64; 3];

    ghost words = { optional_two T.words };

    fn words(self) -> [u64; 3] {
        match self {
            None => [0; 3],
            Some(value) => {
                let w = value.words();
                [1, w[0], w[1]]
            }
        }
    }
}

// A check: 0, or the number of its refusal.
pub(crate) fn status<R: Numbered>(answer: Result<(), R>) -> u64
    ensures { result ≡ check_status (refused_by R.number answer) }
{
    match answer {
        Ok(()) => 0,
        Err(refusal) => refusal.number(),
    }
}

// A value goes out, and a refusal leaves what is there.
pub(crate) fn put<T: Words, R: Numbered>(answer: Result<T, R>, out: &mut T::Words) -> u64
    ensures answers { result ≡ status (numbered R.number answer) }
    ensures leaves { out.new ≡ stored T.words (numbered R.number answer) out.old }
{
    match answer {
        Ok(value) => {
            *out = value.words();
            0
        }
        Err(refusal) => refusal.number(),
    }
}
