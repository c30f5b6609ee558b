//! The VRPs of a trie in their order.
ghost use Rattle.std.specs.Prelude.{◌≡◌, ◌+◌, ◌<◌, ◌≤◌, true, false, length, OnOk, OnErr};
ghost use Rattle.addr.specs.Family.{width};
ghost use Rattle.payload.specs.Visit.{TookBeginning};
ghost use Rattle.payload.specs.steps.Branch.{top_of};
ghost use Rattle.payload.specs.steps.Tree.{IsPruned, Top, grown, subtree, tree};
ghost use Rattle.payload.specs.steps.Trie.{half_vrps, vrps_at};

use crate::trie::node::{Branch, Node};
use crate::trie::skipped::Skipped;
use crate::{Sink, Stop};
use addr::{Prefix, Vrp};

impl Node {
    /// Lets the sink take the VRPs at the node and below it, rising, each once. The prefix is the
    /// one from which the skipped bits lead to the node's.
    #[cycle(visit)]
    pub(crate) fn visit<S: Sink>(&self, prefix: &Prefix, sink: &mut S) -> Result<(), Stop>
        requires { IsPruned (width prefix.now.family) prefix.now.length (tree self.now) }
        ensures all { OnOk result (S.has_stopped sink.old ≡ false
            → S.took sink.old (vrps_at prefix.now (tree self.now)) sink.new) }
        ensures goes_on { OnOk result (S.has_stopped sink.old ≡ false
            → S.has_stopped sink.new ≡ false) }
        ensures beginning { OnErr result (S.has_stopped sink.old ≡ false
            → TookBeginning S.took (vrps_at prefix.now (tree self.now)) sink.old sink.new) }
        ensures stopped { OnErr result (S.has_stopped sink.new ≡ true) }
    {
        self.branch.visit(&past(prefix, &self.skipped), sink)
    }
}

impl Branch {
    /// As `Node::visit`.
    #[cycle(visit)]
    fn visit<S: Sink>(&self, prefix: &Prefix, sink: &mut S) -> Result<(), Stop>
        requires { IsPruned (width prefix.now.family) prefix.now.length (tree (top_of self.now)) }
        ensures all { OnOk result (S.has_stopped sink.old ≡ false
            → S.took sink.old (vrps_at prefix.now (tree (top_of self.now))) sink.new) }
        ensures goes_on { OnOk result (S.has_stopped sink.old ≡ false
            → S.has_stopped sink.new ≡ false) }
        ensures beginning { OnErr result (S.has_stopped sink.old ≡ false
            → TookBeginning S.took (vrps_at prefix.now (tree (top_of self.now)))
            sink.old sink.new) }
        ensures stopped { OnErr result (S.has_stopped sink.new ≡ true) }
    {
        for originator in self.originators.as_slice() {
            sink.take(&Vrp {
                prefix: *prefix,
                max: originator.max,
                asn: originator.asn,
            })?;
        }
        visit_below(&self.zero, prefix, false, sink)?;
        visit_below(&self.one, prefix, true, sink)
    }
}

/// As `Node::visit`, of the half of the prefix whose next bit is this one.
#[cycle(visit)]
fn visit_below<S: Sink>(
    child: &Option<Box<Node>>,
    prefix: &Prefix,
    bit: bool,
    sink: &mut S,
) -> Result<(), Stop>
    requires { IsPruned (width prefix.now.family) (prefix.now.length + 1) (subtree child.now) }
    ensures all { OnOk result (S.has_stopped sink.old ≡ false
        → S.took sink.old (half_vrps bit prefix.now (subtree child.now)) sink.new) }
    ensures goes_on { OnOk result (S.has_stopped sink.old ≡ false
        → S.has_stopped sink.new ≡ false) }
    ensures beginning { OnErr result (S.has_stopped sink.old ≡ false
        → TookBeginning S.took (half_vrps bit prefix.now (subtree child.now)) sink.old sink.new) }
    ensures stopped { OnErr result (S.has_stopped sink.new ≡ true) }
{
    match child {
        Some(node) => node.visit(&past(prefix, &Skipped::one(bit)), sink),
        None => Ok(()),
    }
}

/// The prefix to which the bits lead from this one.
pub(crate) fn past(prefix: &Prefix, bits: &Skipped) -> Prefix
    requires { prefix.now.length + length bits.now ≤ width prefix.now.family }
    ensures family { result.family ≡ prefix.now.family }
    ensures length { result.length ≡ prefix.now.length + length bits.now }
    ensures vrps { (t : Top)
        → vrps_at result (tree t) ≡ vrps_at prefix.now (tree (grown bits.now t)) }
{
    let count = bits.count();
    if count == 0 {
        // The shift below might be by all 128 bits.
        return *prefix;
    }
    let length = prefix.length + count;
    Prefix {
        family: prefix.family,
        first: prefix.first + (bits.number() << (prefix.family.width() - length)),
        length,
    }
}
