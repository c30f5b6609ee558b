//! Address families.
ghost use Rattle.std.specs.Prelude.{◌≡◌, ◌-◌, ◌^◌};
ghost use Rattle.addr.specs.Family.{width, family_eq};

/// An address family. IPv4 comes before IPv6 wherever things are sorted.
#[derive(Clone, Copy, Debug, PartialEq, Eq, PartialOrd, Ord)]
pub enum Family {
    V4,
    V6,
}

impl Family {
    /// How many bits an address of the family has.
    pub fn width(self) -> u8
        ensures { result ≡ width self }
    {
        match self {
            Family::V4 => 32,
            Family::V6 => 128,
        }
    }

    /// The last address of the family, as a number.
    pub fn last_address(self) -> u128
        ensures { result ≡ 2 ^ width self - 1 }
    {
        match self {
            Family::V4 => u128::from(u32::MAX),
            Family::V6 => u128::MAX,
        }
    }

    /// Whether the two are one family: `==` with the answer as a definition.
    pub fn is(self, other: Family) -> bool
        ensures { result ≡ family_eq self other }
    {
        matches!(
            (self, other),
            (Family::V4, Family::V4) | (Family::V6, Family::V6)
        )
    }
}
