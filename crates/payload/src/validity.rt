//! Validation states of routes (RFC 6811 section 2).
use std::fmt;

/// The validation state of a route (RFC 6811 section 2).
#[derive(Clone, Copy, Debug, PartialEq, Eq)]
pub enum Validity {
    /// Some VRP matches the route.
    Valid,
    /// Some VRP covers the route, and none matches it.
    Invalid,
    /// No VRP covers the route.
    NotFound,
}

impl Validity {
    ghost use Rattle.std.specs.Prelude.{◌≡◌};
    ghost use Rattle.addr.specs.OriginValidation.{state_text};
    ghost use Rattle.payload.specs.ValidityState.{state_of};

    /// The state's name, as the variant is written.
    pub fn as_str(self) -> &'static str
        ensures { result.now ≡ state_text (state_of self) }
    {
        match self {
            Validity::Valid => "Valid",
            Validity::Invalid => "Invalid",
            Validity::NotFound => "NotFound",
        }
    }
}

impl fmt::Display for Validity {
    ghost use Rattle.std.specs.Prelude.{Some};
    ghost use Rattle.addr.specs.OriginValidation.{state_text};
    ghost use Rattle.payload.specs.ValidityState.{state_of};

    ghost output = { λ validity. Some (state_text (state_of validity)) };

    fn fmt<W: fmt::Write>(&self, f: &mut fmt::Formatter<W>) -> fmt::Result {
        f.write_str(self.as_str())
    }
}
