//! What a set of VRPs hands out, as a list.
ghost use Rattle.std.specs.Prelude.{◌≡◌, ◌++◌, is_some, option_to_list, IfOk};
ghost use Rattle.std.proofs.Common.{ap, append_assoc, sym, ◌∙◌};
ghost use Rattle.std.proofs.lemmas.List.{append-nil};
ghost use Rattle.payload.specs.VrpSet as set;

use addr::Vrp;
use payload::{PayloadIndex, Sink, Stop};
use std::alloc::Global;
use std::test::Fail;

/// Keeps the first VRPs that it is given, and stops at the next.
#[derive(Drop)]
pub struct FirstVrps {
    pub vrps: Vec<Vrp>,
    pub most: usize,
    pub refused: Option<Vrp>,
}

impl Sink for FirstVrps {
    ghost took = { λ a vrps b. b.vrps.items ++ option_to_list b.refused
        ≡ (a.vrps.items ++ option_to_list a.refused) ++ vrps };

    ghost has_stopped = { λ s. is_some s.refused };

    fn take(&mut self, vrp: &Vrp) -> Result<(), Stop> {
        if self.vrps.len() < self.most && self.refused.is_none() && self.vrps.push(*vrp).is_ok() {
            return Ok(());
        }
        self.refused = Some(*vrp);
        Err(Stop)
    }

    ghost took_none = { λ a. sym (append-nil (a.vrps.items ++ option_to_list a.refused)) };

    ghost took_then = { λ a _ _ vs ws first later. later ∙ ap (λ l. l ++ ws) first
        ∙ append_assoc (a.vrps.items ++ option_to_list a.refused) vs ws };
}

/// What a visit hands out.
pub fn listed<I: PayloadIndex>(alloc: Global, index: &I) -> Result<Vec<Vrp>, Fail>
    ensures { IfOk result (λ vrps. vrps.items ≡ set.items (I.vrps index.now)) }
{
    let mut all = FirstVrps {
        vrps: Vec::new(alloc),
        most: usize::MAX,
        refused: None,
    };
    if index.visit(&mut all).is_err() {
        return Err("a visit stopped".into());
    }
    Ok(all.vrps)
}
