//! The charter: operators and pool.
ghost use Rattle.std.specs.Prelude.{nat_eq, ◌||◌, Err, IfOk, IsPermutation, IsSorted, ◌≡◌, ◌≤◌, ◌↔◌, true, false, IsTrue, IfNone, IfSome, option_copied, find};
ghost use Rattle.std.specs.Ordering.{nat_cmp};
ghost use Rattle.std.specs.Cmp.Lexicographic.{pointwise, slice_cmp};
ghost use Rattle.addr.specs.Address.{has_address, prefix_eq};
ghost use Rattle.addr.specs.Order.{prefix_cmp};
ghost use Rattle.registry.specs.Repeats.{has_repeat};
ghost use Rattle.registry.specs.CharterSets.{AreAllowedCounts, IsCharter};
ghost use Rattle.registry.specs.Pool.{pool_has, IsInPool, HasFromTo};

use addr::{Family, Name, Prefix};
use std::alloc::AllocError;
use std::marker::Model;

/// How many operators a charter may have.
const MOST_OPERATORS: usize = 16;

/// How many prefixes its pool may have.
const MOST_POOL_PREFIXES: usize = 64;

/// Why two lists make no charter. If several faults apply, the first one counts.
#[derive(Clone, Copy, Debug, PartialEq, Eq)]
pub enum CharterFault {
    /// There are not 1 to 16 operators, or not 1 to 64 prefixes.
    Count,
    /// An operator or a prefix occurs twice.
    Repeated,
}

impl CharterFault {
    ghost use Rattle.registry.specs.CharterFault.{charter_fault_number};

    /// The number of the fault, from 1 in the order above.
    pub fn number(self) -> u8
        ensures { result ≡ charter_fault_number self }
    {
        match self {
            CharterFault::Count => 1,
            CharterFault::Repeated => 2,
        }
    }
}

/// The operators of the desk and the pool of prefixes that it delegates from: 1 to 16 operators and
/// 1 to 64 prefixes, none twice, both in rising order.
#[derive(Drop)]
pub struct Charter {
    operators: Vec<Name>,
    pool: Vec<Prefix>,
}

impl Model for Charter {
    ghost use Rattle.registry.specs.CharterSets.{CharterSets, IsCharter};

    ghost Value = { CharterSets };

    ghost view = { λ c. record { operators = c.operators.items; pool = c.pool.items } };

    ghost invariant = { λ c.
        IsCharter (record { operators = c.operators.items; pool = c.pool.items }) };
}

impl Clone for Charter {
    ghost is_clone = { λ charter copy. copy ≡ charter };

    fn clone(&self) -> Result<Self, AllocError> {
        Ok(Charter {
            operators: self.operators.clone()?,
            pool: self.pool.clone()?,
        })
    }
}

fn are_in_number(operators: &[Name], pool: &[Prefix]) -> bool
    ensures { IsTrue result ↔ AreAllowedCounts operators.now pool.now }
{
    (1..=MOST_OPERATORS).contains(&operators.len())
        && (1..=MOST_POOL_PREFIXES).contains(&pool.len())
}

/// Whether some item occurs twice.
fn has_repeat<T: PartialEq>(items: &[T]) -> bool
    ensures { result ≡ has_repeat T.eq items.now }
{
    let mut rest = items;
    while let [first, others @ ..] = rest {
        if others.contains(first) {
            return true;
        }
        rest = others;
    }
    false
}

impl Charter {
    ghost use Rattle.registry.specs.Charter.{is_operator, operators_of, pool_of};

    /// The charter of these operators and this pool, both in rising order. It takes no memory.
    pub fn make(mut operators: Vec<Name>, mut pool: Vec<Prefix>) -> Result<Charter, CharterFault>
        ensures operators { IfOk result
            (λ charter. IsPermutation operators.items (operators_of charter)) }
        ensures pool { IfOk result (λ charter. IsPermutation pool.items (pool_of charter)) }
        ensures operators_rise { IfOk result
            (λ charter. IsSorted (slice_cmp nat_cmp) (operators_of charter)) }
        ensures pool_rises { IfOk result (λ charter. IsSorted prefix_cmp (pool_of charter)) }
        ensures count { (result ≡ Err CharterFault.Count)
            ↔ ¬ AreAllowedCounts operators.items pool.items }
        ensures repeated { (result ≡ Err CharterFault.Repeated)
            ↔ (AreAllowedCounts operators.items pool.items
            × (has_repeat (pointwise nat_eq) operators.items
            || has_repeat prefix_eq pool.items ≡ true)) }
    {
        if !are_in_number(&operators, &pool) {
            return Err(CharterFault::Count);
        }
        if has_repeat(&operators) || has_repeat(&pool) {
            return Err(CharterFault::Repeated);
        }
        operators.sort_unstable();
        pool.sort_unstable();
        Ok(Charter { operators, pool })
    }

    /// The operators, rising.
    pub fn operators(&self) -> &[Name]
        ensures operators { result.now ≡ operators_of self.now }
        ensures rising { IsSorted (slice_cmp nat_cmp) result.now }
        ensures valid { IsCharter self.now }
    {
        &self.operators
    }

    /// The pool, rising.
    pub fn pool(&self) -> &[Prefix]
        ensures pool { result.now ≡ pool_of self.now }
        ensures rising { IsSorted prefix_cmp result.now }
        ensures valid { IsCharter self.now }
    {
        &self.pool
    }

    /// Whether the caller is one of the operators.
    pub fn is_operator(&self, caller: &Name) -> bool
        ensures { result ≡ is_operator self.now caller.now }
    {
        self.operators.contains(caller)
    }

    /// Whether every address of the prefix lies in some prefix of the pool.
    pub fn has_in_pool(&self, prefix: &Prefix) -> bool
        ensures { IsTrue result ↔ IsInPool (pool_of self.now) prefix.now }
    {
        is_in_pool(&self.pool, prefix)
    }
}

fn has_number(prefix: &Prefix, family: Family, number: u128) -> bool
    ensures { result ≡ has_address prefix.now (record { family = family; number = number }) }
{
    prefix.family.is(family) && prefix.first <= number && number <= prefix.last()
}

/// The first prefix of the pool that has the address.
fn prefix_in_pool(pool: &[Prefix], family: Family, number: u128) -> Option<&Prefix>
    ensures { option_copied result
        ≡ find (λ p. has_address p (record { family = family; number = number })) pool.now }
{
    pool.iter()
        .find(|prefix| has_number(prefix, family, number))
}

/// The last address of a prefix of the pool that has the address.
fn end_in_pool(pool: &[Prefix], family: Family, number: u128) -> Option<u128>
    ensures none { IfNone result
        (pool_has pool.now (record { family = family; number = number }) ≡ false) }
    ensures some { IfSome result (λ end. (number ≤ end) × HasFromTo pool.now family number end) }
{
    prefix_in_pool(pool, family, number).map(Prefix::last)
}

fn is_in_pool(pool: &[Prefix], prefix: &Prefix) -> bool
    ensures { IsTrue result ↔ IsInPool pool.now prefix.now }
{
    let last = prefix.last();
    let mut next = prefix.first;
    while let Some(end) = end_in_pool(pool, prefix.family, next) {
        if last <= end {
            return true;
        }
        next = end + 1;
    }
    false
}
