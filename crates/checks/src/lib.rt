// Definitions and laws that several crates share: the chain of checks that turns a call down by the
// number of its first refusal, and how a Result shows it (specs/Checks.antt), the laws of such chains
// (proofs/Chains.antt), of what a Result answers (proofs/Results.antt) and of tests on numbers and
// flags (proofs/Tests.antt). Its code is the traits of all refusals and of all values that are checked,
// and a value that passed.
#![tactic(auto)]

ghost use Rattle.std.specs.Prelude.{◌≡◌, ⊤, ℕ, Option, None, IfOk};
ghost use Rattle.std.proofs.Props.{props};
ghost use Rattle.checks.specs.Checks.{refused_by};

use std::alloc::AllocError;

// Why a call is turned down. The table of document 01 gives each refusal its number.
pub trait Numbered {
    ghost number: { Self → ℕ };

    fn number(self) -> u64
        ensures { result ≡ number self };
}

// A value that calls check, and the number by which they turn it down, if they do.
pub trait Check: Copy {
    type Refusal: Numbered;

    ghost refusal: { Self → Option ℕ };

    fn check(self) -> Result<(), Self::Refusal>
        ensures { refused_by Self.Refusal.number result ≡ refusal self };
}

// A value that passed its check. Functions that rely on it take this in place of a precondition.
#[derive(Drop)]
pub struct Checked<T: Check> {
    pub value: T,
    pub ghost passes: { T.refusal value ≡ None } by { Prim.hlevel props },
}

// By hand, since neither can be derived on a generic struct with a ghost field.
impl<T: Check> Clone for Checked<T> {
    ghost is_clone = { λ x y. y ≡ x };

    ghost is_infallible = { λ _. ⊤ };

    fn clone(&self) -> Result<Checked<T>, AllocError> {
        Ok(Checked { value: self.value })
    }
}

impl<T: Check> Copy for Checked<T> {}

impl<T: Check> Checked<T> {
    // A value, if it passes.
    pub fn new(value: T) -> Result<Checked<T>, T::Refusal>
        ensures refuses { refused_by T.Refusal.number result ≡ T.refusal value }
        ensures keeps { IfOk result (λ checked. checked.value ≡ value) }
    {
        value.check()?;
        Ok(Checked { value })
    }
}
