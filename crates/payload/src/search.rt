//! Route origin validation on VRPs that rise.
ghost use Rattle.std.specs.Prelude.{◌≡◌, ◌-◌, ◌%◌, ◌^◌, ◌<◌, ◌≤◌, true, false};
ghost use Rattle.std.specs.List.{All};
ghost use Rattle.addr.specs.Address.{contains};
ghost use Rattle.addr.specs.OriginValidation.{is_from, matches, validation_state};
ghost use Rattle.addr.specs.Order.{vrp_cmp};
ghost use Rattle.addr.specs.declared.asn.Asn.{Asn};
ghost use Rattle.addr.specs.declared.prefix.Prefix.{Prefix};
ghost use Rattle.addr.specs.declared.vrp.Vrp.{Vrp};
ghost use Rattle.std.specs.declared.cmp.Ordering.TheVariants.{Less};
ghost use Rattle.payload.specs.Rising.{AreRising};
ghost use Rattle.payload.specs.steps.Search.{is_at_most, is_below, IsFrontUpTo, HasAllEnclosing, HasAllMatching};
ghost use Rattle.payload.specs.steps.Shortest.{AreNoShorter};
ghost use Rattle.payload.specs.ValidityState.{state_of};

use crate::Validity;
use crate::originator::Originator;
use crate::shortest::Shortest;
use addr::{Asn, Origin, Prefix, Route, Vrp};

/// The state of the route over VRPs that rise.
///
/// A VRP that covers the route sorts at or before it, so the search goes back from the route's
/// place. At a prefix that covers the route it looks at one or two VRPs for each maxLength. From a
/// VRP that does not cover the route it goes on where prefixes may contain both that one's prefix
/// and the route's, and it ends where no prefix is short enough for that.
pub(crate) fn validity(vrps: &[Vrp], shortest: Shortest, route: &Route) -> Validity
    requires rising { AreRising vrps.now }
    requires no_shorter { AreNoShorter shortest vrps.now }
    ensures { state_of result ≡ validation_state vrps.now route.now }
{
    let mut is_covered = false;
    let mut rest = up_to(vrps, &route.prefix);
    while let Some((vrp, before)) = rest.split_last() {
        if !vrp.prefix.contains(&route.prefix) {
            rest = enclosing_both(before, shortest, &vrp.prefix, &route.prefix);
            continue;
        }
        if Originator::of(vrp).authorizes(route) {
            return Validity::Valid;
        }
        is_covered = true;
        rest = past_unlike(before, vrp, route);
    }
    if is_covered {
        Validity::Invalid
    } else {
        Validity::NotFound
    }
}

/// The VRPs before one that covers the route and does not match it, except those just before it that
/// do not match either.
fn past_unlike<'a>(before: &'a [Vrp], vrp: &Vrp, route: &Route) -> &'a [Vrp]
    requires rising { AreRising before.now }
    requires less { All (λ v. vrp_cmp v vrp.now ≡ Less) before.now }
    ensures { HasAllMatching route.now before.now result.now }
{
    match before.last() {
        Some(other) if other.prefix.is(&vrp.prefix) => {
            let first = first_unlike(vrp, route);
            let end = before.partition_point(|other| is_below(other, &first));
            &before[..end]
        }
        _ => before,
    }
}

/// A VRP such that no VRP from it up to the given one, but not including that, matches the route.
fn first_unlike(vrp: &Vrp, route: &Route) -> Vrp
    ensures { (v : Vrp) → vrp_cmp v vrp.now ≡ Less → is_below v result ≡ false
        → matches v route.now ≡ false }
{
    let max = if route.prefix.length <= vrp.max {
        vrp.max
    } else {
        vrp.prefix.length
    };
    Vrp {
        prefix: vrp.prefix,
        max,
        asn: first_other(route.origin, vrp.asn),
    }
}

/// An AS such that no AS from it up to the given one, but not including that, is the origin.
fn first_other(origin: Origin, asn: Asn) -> Asn
    ensures { (a : Asn) → result.0 ≤ a.0 → a.0 < asn.0 → is_from origin a ≡ false }
{
    match origin {
        Origin::As(from) if from.0 < asn.0 => Asn(from.0 + 1),
        _ => Asn(0),
    }
}

/// Whether the VRP sorts before the other.
fn is_below(vrp: &Vrp, other: &Vrp) -> bool
    ensures { result ≡ is_below vrp.now other.now }
{
    vrp < other
}

/// The VRPs at the front whose prefixes sort at or before this one.
fn up_to<'a>(vrps: &'a [Vrp], prefix: &Prefix) -> &'a [Vrp]
    requires { AreRising vrps.now }
    ensures { IsFrontUpTo prefix.now vrps.now result.now }
{
    let end = vrps.partition_point(|vrp| is_up_to(vrp, prefix));
    &vrps[..end]
}

/// Whether the VRP's prefix sorts at or before this one.
fn is_up_to(vrp: &Vrp, prefix: &Prefix) -> bool
    ensures { result ≡ is_at_most vrp.now.prefix prefix.now }
{
    vrp.prefix <= *prefix
}

/// As `up_to`, but faster if only few VRPs at the end sort after the prefix.
fn up_to_from_end<'a>(vrps: &'a [Vrp], prefix: &Prefix) -> &'a [Vrp]
    requires { AreRising vrps.now }
    ensures { IsFrontUpTo prefix.now vrps.now result.now }
{
    let mut end = vrps.len();
    let mut step: usize = 1;
    while step < end && !is_up_to(&vrps[end - step], prefix) {
        end -= step;
        step = step.saturating_add(step);
    }
    let start = end.saturating_sub(step);
    let more = vrps[start..end].partition_point(|vrp| is_up_to(vrp, prefix));
    &vrps[..start + more]
}

/// Some VRPs at the front, among them all that contain both prefixes.
fn enclosing_both<'a>(vrps: &'a [Vrp], shortest: Shortest, low: &Prefix, high: &Prefix) -> &'a [Vrp]
    requires rising { AreRising vrps.now }
    requires no_shorter { AreNoShorter shortest vrps.now }
    requires before { All (λ v. is_at_most v.prefix low.now ≡ true) vrps.now }
    requires order { is_at_most low.now high.now ≡ true }
    requires apart { contains low.now high.now ≡ false }
    ensures { HasAllEnclosing high.now vrps.now result.now }
{
    if !low.family.is(high.family) {
        return &vrps[..0];
    }
    let bound = common_bound(low, high);
    if bound.length < shortest.in_family(low.family) {
        return &vrps[..0];
    }
    up_to_from_end(vrps, &bound)
}

/// A prefix at or before which each prefix that contains both sorts, and which is as long at least.
fn common_bound(low: &Prefix, high: &Prefix) -> Prefix
    requires family { low.now.family ≡ high.now.family }
    requires order { low.now.first < high.now.first }
    ensures order { (p : Prefix) → contains p low.now ≡ true → contains p high.now ≡ true
        → is_at_most p result ≡ true }
    ensures length { (p : Prefix) → contains p low.now ≡ true → contains p high.now ≡ true
        → p.length ≤ result.length }
{
    // A prefix that contains both has at least as many host bits as the distance of the two takes.
    let host_bits = (high.first - low.first).ilog2() as u8 + 1;
    Prefix {
        family: low.family,
        first: without_low_bits(low.first, host_bits),
        length: low.family.width() - host_bits,
    }
}

/// The number with its lowest bits cleared.
fn without_low_bits(number: u128, bits: u8) -> u128
    ensures { result ≡ number - number % 2 ^ bits }
{
    match 1u128.checked_shl(u32::from(bits)) {
        Some(size) => number - (number & (size - 1)),
        None => 0,
    }
}
