//! Faults that have numbers.
ghost use Rattle.std.specs.Prelude.{◌≡◌, ℕ};
ghost use Rattle.json_values.specs.Parts.{lower};

use std::alloc::AllocError;

/// What is read, or its lowest fault. The outer error is an allocation that failed.
pub type Read<T, F> = Result<Result<T, F>, AllocError>;

/// What may be wrong with a text.
pub trait Fault: Copy {
    ghost number: { Self → ℕ };

    ghost members: { Self };

    /// The number of the fault. If several faults apply, the one with the lowest number is
    /// reported.
    fn number(self) -> u8
        ensures { result ≡ number self };

    /// The fault if an object or an array is expected, or a member is missing or unknown.
    fn members() -> Self
        ensures { result ≡ members };
}

#[tactic(auto, unfolding(crate::specs::Parts::lower))]
pub(crate) fn lower<F: Fault>(one: F, other: F) -> F
    ensures { result ≡ lower F.number one other }
{
    if one.number() <= other.number() {
        one
    } else {
        other
    }
}
