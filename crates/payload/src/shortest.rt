//! How short the prefixes of a list are.
use addr::{Family, Prefix, Vrp};

/// For each family a length that no prefix of a list is shorter than.
#[derive(Clone, Copy, Debug)]
pub(crate) struct Shortest {
    v4: u8,
    v6: u8,
}

impl Shortest {
    ghost use Rattle.std.specs.Prelude.{◌≡◌, ◌≤◌, []};
    ghost use Rattle.addr.specs.declared.family.Family.{Family};
    ghost use Rattle.payload.specs.steps.Shortest.{shortest_in, AreNoShorter};

    /// The lengths for an empty list.
    pub(crate) fn new() -> Shortest
        ensures { AreNoShorter result [] }
    {
        Shortest { v4: 32, v6: 128 }
    }

    /// The lengths for these VRPs.
    pub(crate) fn of(vrps: &[Vrp]) -> Shortest
        ensures { AreNoShorter result vrps.now }
    {
        let mut shortest = Shortest::new();
        for vrp in vrps {
            shortest = shortest.with(&vrp.prefix);
        }
        shortest
    }

    /// The lengths for the list with one more prefix.
    pub(crate) fn with(self, prefix: &Prefix) -> Shortest
        ensures here { shortest_in result prefix.now.family ≤ prefix.now.length }
        ensures others { (f : Family) → shortest_in result f ≤ shortest_in self f }
    {
        match prefix.family {
            Family::V4 => Shortest {
                v4: self.v4.min(prefix.length),
                v6: self.v6,
            },
            Family::V6 => Shortest {
                v4: self.v4,
                v6: self.v6.min(prefix.length),
            },
        }
    }

    /// The length for the family.
    pub(crate) fn in_family(self, family: Family) -> u8
        ensures { result ≡ shortest_in self family }
    {
        match family {
            Family::V4 => self.v4,
            Family::V6 => self.v6,
        }
    }
}
