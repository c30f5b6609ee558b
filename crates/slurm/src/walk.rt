//! Whether two files of a set overlap, by one walk along the prefixes of all files.
ghost use Rattle.std.specs.Prelude.{◌≡◌, ◌↔◌, ◌++◌, [], ◌∷◌, map, IsTrue, IfOk, OnOk};
ghost use Rattle.std.specs.List.{filter_map, flat_map, list_any};
ghost use Rattle.std.specs.List.Sorted.{IsSortedByKey};
ghost use Rattle.std.specs.Str.{bytes_eq};
ghost use Rattle.addr.specs.Order.{prefix_cmp};
ghost use Rattle.addr.specs.Address.{contains};
ghost use Rattle.slurm.specs.Overlap.{filter_prefix, overlap};
ghost use Rattle.slurm.specs.SlurmSets.{some_overlap, RiseByName, SomeOverlap};
ghost use Rattle.slurm.specs.steps.Walk.{of_file, prefixes_of, some_clash};
ghost use Rattle.slurm.specs.declared.walk.NamedPrefix.{NamedPrefix};

use crate::{Filter, NamedSlurm, Slurm, SlurmSet};
use addr::{Name, Prefix, Vrp};
use std::alloc::{AllocError, Global};

/// A prefix, and the name of a file that names it.
#[derive(Clone, Copy, Debug)]
struct NamedPrefix {
    prefix: Prefix,
    file: Name,
}

impl NamedPrefix {
    fn contains(&self, other: &NamedPrefix) -> bool
        ensures { result ≡ contains self.now.prefix other.now.prefix }
    {
        self.prefix.contains(&other.prefix)
    }

    fn is_of_file(&self, other: &NamedPrefix) -> bool
        ensures { result ≡ bytes_eq self.now.file other.now.file }
    {
        self.file == other.file
    }
}

impl SlurmSet {
    /// Whether some two files of the set overlap. It takes memory for the prefixes that they name,
    /// and no more time than it takes to sort these; if an allocation fails, the time of all pairs.
    pub fn has_overlap(&self, alloc: Global) -> bool
        ensures some { IsTrue result ↔ SomeOverlap self.now }
        ensures by_test { result ≡ some_overlap self.now }
    {
        match has_clash(alloc, self.files()) {
            Ok(found) => found,
            Err(AllocError) => some_overlap(self.files()),
        }
    }
}

/// Whether some two of the files overlap, by every two of them.
fn some_overlap(files: &[NamedSlurm]) -> bool
    ensures { result ≡ some_overlap files.now }
{
    match files {
        [] => false,
        [first, others @ ..] => overlaps_some(&first.file, others) || some_overlap(others),
    }
}

fn overlaps_some(file: &Slurm, others: &[NamedSlurm]) -> bool
    ensures { result ≡ list_any (λ g. overlap file.now g.file) others.now }
{
    others.iter().any(|other| file.overlaps(&other.file))
}

/// Whether some two of the files overlap, by one walk.
fn has_clash(alloc: Global, files: &[NamedSlurm]) -> Result<bool, AllocError>
    requires { RiseByName files.now }
    ensures { IfOk result (λ found. found ≡ some_overlap files.now) }
{
    let mut prefixes = prefixes_of(alloc, files)?;
    prefixes.sort_unstable_by_key(|named| named.prefix);
    Ok(some_clash(&prefixes))
}

fn prefixes_of(alloc: Global, files: &[NamedSlurm]) -> Result<Vec<NamedPrefix>, AllocError>
    ensures { IfOk result (λ prefixes. prefixes.items ≡ flat_map prefixes_of files.now) }
{
    let mut prefixes = Vec::new(alloc);
    for named in files {
        push_file(&mut prefixes, named)?;
    }
    Ok(prefixes)
}

fn push_file(prefixes: &mut Vec<NamedPrefix>, named: &NamedSlurm) -> Result<(), AllocError>
    ensures { OnOk result (prefixes.new.items ≡ prefixes.old.items ++ prefixes_of named.now) }
{
    push_filters(prefixes, named.name, named.file.filters())?;
    push_assertions(prefixes, named.name, named.file.assertions())
}

fn push_filters(
    prefixes: &mut Vec<NamedPrefix>,
    file: Name,
    filters: &[Filter],
) -> Result<(), AllocError>
    ensures { OnOk result (prefixes.new.items
        ≡ prefixes.old.items ++ map (of_file file) (filter_map filter_prefix filters.now)) }
{
    for filter in filters {
        push_filter(prefixes, file, filter)?;
    }
    Ok(())
}

fn push_filter(
    prefixes: &mut Vec<NamedPrefix>,
    file: Name,
    filter: &Filter,
) -> Result<(), AllocError>
    ensures { OnOk result (prefixes.new.items ≡ prefixes.old.items
        ++ map (of_file file) (filter_map filter_prefix (filter.now ∷ []))) }
{
    match *filter {
        Filter::Under(prefix) => prefixes.push(NamedPrefix { prefix, file })?,
        Filter::By(_) => {}
        Filter::Both(prefix, _) => prefixes.push(NamedPrefix { prefix, file })?,
    }
    Ok(())
}

fn push_assertions(
    prefixes: &mut Vec<NamedPrefix>,
    file: Name,
    assertions: &[Vrp],
) -> Result<(), AllocError>
    ensures { OnOk result (prefixes.new.items
        ≡ prefixes.old.items ++ map (of_file file) (map (λ v. v.prefix) assertions.now)) }
{
    for vrp in assertions {
        prefixes.push(NamedPrefix {
            prefix: vrp.prefix,
            file,
        })?;
    }
    Ok(())
}

/// Only the outermost prefix is looked at again: whatever shares an address with a prefix in it
/// shares that address with it.
fn some_clash(prefixes: &[NamedPrefix]) -> bool
    requires { IsSortedByKey (λ p. p.prefix) prefix_cmp prefixes.now }
    ensures { result ≡ some_clash prefixes.now }
{
    let [first, others @ ..] = prefixes else {
        return false;
    };
    let mut outer = first;
    for next in others {
        if !outer.contains(next) {
            outer = next;
        } else if !outer.is_of_file(next) {
            return true;
        }
    }
    false
}
