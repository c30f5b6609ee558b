//! The VRPs of a reply.
ghost use Rattle.std.specs.Prelude.{◌≡◌};

use addr::Vrp;
use std::marker::Model;
use std::ops::DerefSlice;

/// The VRPs of a reply, seen as their list.
///
/// A `Vec` has a capacity beside its items. These are the items alone, so a definition can name the
/// reply with any list.
#[derive(Debug, Drop)]
pub struct Vrps(Vec<Vrp>);

impl Model for Vrps {
    ghost use Rattle.std.specs.Prelude.{List};
    ghost use Rattle.addr.specs.declared.vrp.Vrp.{Vrp};

    ghost Value = { List Vrp };

    ghost view = { λ vrps. vrps.0.items };
}

impl Vrps {
    pub fn as_slice(&self) -> &[Vrp]
        ensures { result.now ≡ self.now }
    {
        &self.0
    }
}

impl DerefSlice for Vrps {
    type Elem = Vrp;

    ghost deref_gives = { λ vrps list. list ≡ vrps };

    fn deref(&self) -> &[Vrp] {
        self.as_slice()
    }
}

impl From<Vec<Vrp>> for Vrps {
    ghost from_gives = { λ list vrps. vrps ≡ list.items };

    fn from(list: Vec<Vrp>) -> Vrps {
        Vrps(list)
    }
}
