//! What filters reach, in an order in which few of them have to be looked at for a VRP.
ghost use Rattle.std.specs.Prelude.{◌≡◌, ◌||◌, ◌&&◌, ◌==◌, IfOk, OnOk};
ghost use Rattle.addr.specs.Address.{contains};
ghost use Rattle.addr.specs.Family.{family_eq};
ghost use Rattle.addr.specs.declared.prefix.Prefix.{Prefix};
ghost use Rattle.addr.specs.declared.vrp.Vrp.{Vrp};
ghost use Rattle.std.specs.Ordering.{is_le};
ghost use Rattle.slurm.specs.Filter.{filter_matches};
ghost use Rattle.slurm.specs.declared.reach.Reach.{Reach};
ghost use Rattle.slurm.specs.steps.Reach.{encloses, reach_cmp, some_encloses, some_reaches, AreReachesOf, AreWidest};

use crate::Filter;
use addr::{Asn, Family, Prefix, Vrp};
use std::alloc::{AllocError, Global};

/// The VRPs of this prefix or one in it, by this AS or, if there is none, by any.
///
/// Reaches rise by AS, with none first, and by prefix.
#[derive(Clone, Copy, Debug, PartialEq, Eq, PartialOrd, Ord)]
pub(crate) struct Reach {
    asn: Option<Asn>,
    prefix: Prefix,
}

impl Reach {
    fn encloses(&self, other: &Reach) -> bool
        ensures { result ≡ encloses self.now other.now }
    {
        self.asn == other.asn && self.prefix.contains(&other.prefix)
    }

    fn is_up_to(&self, other: &Reach) -> bool
        ensures { result ≡ is_le (reach_cmp self.now other.now) }
    {
        self <= other
    }
}

pub(crate) fn reaches_of(alloc: Global, filters: &[Filter]) -> Result<Vec<Reach>, AllocError>
    ensures { IfOk result (λ reaches. AreReachesOf filters.now reaches.items) }
{
    let mut reaches = Vec::new(alloc);
    for filter in filters {
        push_reaches(&mut reaches, filter)?;
    }
    Ok(reaches)
}

/// Adds what the filter reaches. One without a prefix reaches all of each family.
fn push_reaches(reaches: &mut Vec<Reach>, filter: &Filter) -> Result<(), AllocError>
    ensures { OnOk result ((v : Vrp) → some_reaches reaches.new.items v
        ≡ (some_reaches reaches.old.items v || filter_matches filter.now v)) }
{
    match *filter {
        Filter::Under(prefix) => reaches.push(Reach { asn: None, prefix })?,
        Filter::Both(prefix, asn) => push_of(reaches, prefix, asn)?,
        Filter::By(asn) => {
            push_of(reaches, whole(Family::V4), asn)?;
            push_of(reaches, whole(Family::V6), asn)?;
        }
    }
    Ok(())
}

fn push_of(reaches: &mut Vec<Reach>, prefix: Prefix, asn: Asn) -> Result<(), AllocError>
    ensures { OnOk result ((v : Vrp) → some_reaches reaches.new.items v
        ≡ (some_reaches reaches.old.items v || (contains prefix v.prefix && (asn.0 == v.asn.0)))) }
{
    reaches.push(Reach {
        asn: Some(asn),
        prefix,
    })?;
    Ok(())
}

/// The prefix of all addresses of the family.
fn whole(family: Family) -> Prefix
    ensures { (p : Prefix) → contains result p ≡ family_eq family p.family }
{
    Prefix {
        family,
        first: 0,
        length: 0,
    }
}

/// Sorts the reaches, and keeps those that no other encloses.
pub(crate) fn keep_widest(reaches: &mut Vec<Reach>)
    ensures widest { AreWidest reaches.new.items }
    ensures same { (wanted : Reach)
        → some_encloses reaches.new.items wanted ≡ some_encloses reaches.old.items wanted }
{
    reaches.sort_unstable();
    reaches.dedup_by(|reach, kept| kept.encloses(reach));
}

pub(crate) fn some_reaches(reaches: &[Reach], vrp: &Vrp) -> bool
    requires { AreWidest reaches.now }
    ensures { result ≡ some_reaches reaches.now vrp.now }
{
    let of_any = Reach {
        asn: None,
        prefix: vrp.prefix,
    };
    let of_one = Reach {
        asn: Some(vrp.asn),
        prefix: vrp.prefix,
    };
    some_encloses(reaches, &of_any) || some_encloses(reaches, &of_one)
}

/// Whether some reach encloses the wanted one. Only the last one up to it can: one before that
/// would enclose the last too.
fn some_encloses(reaches: &[Reach], wanted: &Reach) -> bool
    requires { AreWidest reaches.now }
    ensures { result ≡ some_encloses reaches.now wanted.now }
{
    let end = reaches.partition_point(|reach| reach.is_up_to(wanted));
    match reaches[..end].last() {
        Some(last) => last.encloses(wanted),
        None => false,
    }
}
