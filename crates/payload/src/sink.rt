//! Sinks, which take VRPs one after another, and tests of VRPs.
ghost use Rattle.std.specs.Prelude.{◌≡◌, List, Bool, false, ◌∷◌, [], ◌++◌, is_err};
ghost use Rattle.addr.specs.declared.vrp.Vrp.{Vrp};

use addr::Vrp;

/// A sink wants no more VRPs.
#[derive(Clone, Copy, Debug, PartialEq, Eq)]
pub struct Stop;

/// Takes VRPs, one after another.
pub trait Sink {
    /// What a sink may be once it took these VRPs, in order, the one at which it stopped among
    /// them. A sink that holds a `&mut` says here that its `ghost_name` stays.
    ghost took: { Self → List Vrp → Self → Type 0 };

    /// Whether the sink stopped at the last VRP.
    ghost has_stopped: { Self → Bool };

    /// Takes one more VRP. Once the sink has stopped, nothing is known of a further call.
    fn take(&mut self, vrp: &Vrp) -> Result<(), Stop>
        ensures took { has_stopped self.old ≡ false → took self.old (vrp.now ∷ []) self.new }
        ensures stopped { is_err result ≡ has_stopped self.new };

    ghost took_none: { (a : Self) → took a [] a };

    ghost took_then: { (a b c : Self) (vs ws : List Vrp) → took a vs b → took b ws c
        → took a (vs ++ ws) c };
}

/// A test that picks a part of a set of VRPs.
pub trait VrpTest {
    /// Which VRPs pass.
    ghost passes: { Self → Vrp → Bool };

    /// Whether the VRP passes.
    fn passes(&self, vrp: &Vrp) -> bool
        ensures { result ≡ passes self.now vrp.now };
}
