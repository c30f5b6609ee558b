//! Vectors whose items rise, each once.
#![tactic(auto)]

ghost use Rattle.std.specs.Prelude.{◌≡◌, ◌≤◌, ◌<◌, ◌↔◌, false, not, ◌&&◌, ◌||◌, length, insert, remove, IsTrue, IfOk, OnOk, OnErr, IsPermutation};
ghost use Rattle.std.specs.List.{list_any, IsDistinct};
ghost use Rattle.std.specs.List.Sorted.{IsStrictlySortedBy};
ghost use Rattle.std.specs.Ordering.{eq_by_cmp};
ghost use Rattle.sorted_items.specs.Rising.{RiseBy, Gives};

use smallvec::SmallVec;
use std::alloc::{AllocError, Global};
use std::convert::AsSlice;
use std::default::MadeWith;

/// A vector of these items, wherever it keeps them.
pub trait Items<T>: AsSlice<T> {
    /// Inserts the item at this place.
    fn insert(&mut self, at: usize, item: T) -> Result<(), AllocError>
        requires { at ≤ length (Self.items self.old) }
        ensures ok { OnOk result (Self.items self.new ≡ insert (Self.items self.old) at item) }
        ensures err { OnErr result (Self.items self.new ≡ Self.items self.old) };

    /// Removes the item at this place.
    fn remove(&mut self, at: usize)
        requires { at < length (Self.items self.old) }
        ensures { Self.items self.new ≡ remove (Self.items self.old) at };
}

impl<T: Drop> Items<T> for Vec<T> {
    fn insert(&mut self, at: usize, item: T) -> Result<(), AllocError> {
        Ok(self.insert(at, item)?)
    }

    fn remove(&mut self, at: usize) {
        self.remove(at);
    }
}

impl<T: MadeWith<Global> + Drop, const N: usize> Items<T> for SmallVec<T, N> {
    fn insert(&mut self, at: usize, item: T) -> Result<(), AllocError> {
        Ok(self.insert(at, item)?)
    }

    fn remove(&mut self, at: usize) {
        self.remove(at);
    }
}

/// Whether the items have this one.
pub fn contains<T: Ord>(items: &[T], item: &T) -> bool
    requires { RiseBy T.cmp items.now }
    ensures { result ≡ list_any (eq_by_cmp T.cmp item.now) items.now }
{
    items.binary_search(item).is_ok()
}

/// Inserts the item in its place; returns whether it was new.
pub fn insert<T: Ord + Drop, V: Items<T>>(items: &mut V, item: T) -> Result<bool, AllocError>
    requires { RiseBy T.cmp (V.items items.old) }
    ensures new { IfOk result (λ is_new.
        is_new ≡ not (list_any (eq_by_cmp T.cmp item) (V.items items.old))) }
    ensures members { OnOk result ((x : T) → list_any (eq_by_cmp T.cmp x) (V.items items.new)
        ≡ (eq_by_cmp T.cmp x item || list_any (eq_by_cmp T.cmp x) (V.items items.old))) }
    ensures err { OnErr result (V.items items.new ≡ V.items items.old) }
    ensures absent { OnErr result (list_any (eq_by_cmp T.cmp item) (V.items items.old) ≡ false) }
    ensures rise { RiseBy T.cmp (V.items items.new) }
{
    match items.as_slice().binary_search(&item) {
        Ok(_) => Ok(false),
        Err(at) => {
            items.insert(at, item)?;
            Ok(true)
        }
    }
}

/// Removes the item; returns whether it was there.
pub fn remove<T: Ord + Drop, V: Items<T>>(items: &mut V, item: &T) -> bool
    requires { RiseBy T.cmp (V.items items.old) }
    ensures found { result ≡ list_any (eq_by_cmp T.cmp item.now) (V.items items.old) }
    ensures members { (x : T) → list_any (eq_by_cmp T.cmp x) (V.items items.new)
        ≡ (not (eq_by_cmp T.cmp x item.now) && list_any (eq_by_cmp T.cmp x) (V.items items.old)) }
    ensures rise { RiseBy T.cmp (V.items items.new) }
{
    match items.as_slice().binary_search(item) {
        Ok(at) => {
            items.remove(at);
            true
        }
        Err(_) => false,
    }
}

/// Sorts the items, and keeps one of those that compare equal.
pub fn sort_and_dedup<T: Ord + Drop>(items: &mut Vec<T>)
    ensures rising { IsStrictlySortedBy T.cmp items.new.items }
    ensures members { (x : T)
        → list_any (eq_by_cmp T.cmp x) items.new.items
        ≡ list_any (eq_by_cmp T.cmp x) items.old.items }
{
    items.sort_unstable();
    items.dedup();
}

/// Whether the key of each item is before that of the next one.
pub fn rise_by_key<T, K: Ord + Drop, F: Fn(&T) -> K>(items: &[T], key: F) -> bool
    requires { F.IsAlwaysCallable key }
    ensures { (of : T → K) → Gives F.Fn key of
        → (IsTrue result ↔ IsStrictlySortedBy (λ x y. K.cmp (of x) (of y)) items.now) }
{
    items.is_sorted_by(|a, b| key(a) < key(b))
}

/// Sorts the items by their keys; returns whether no two of them have one key.
pub fn sort_each_once<T: Drop, K: Ord + Drop, F: Fn(&T) -> K>(items: &mut Vec<T>, key: F) -> bool
    requires { F.IsAlwaysCallable key }
    ensures same_items { IsPermutation items.old.items items.new.items }
    ensures number { length items.new.items ≡ length items.old.items }
    ensures once { (of : T → K) → Gives F.Fn key of
        → (IsTrue result ↔ IsDistinct (λ x y. eq_by_cmp K.cmp (of x) (of y)) items.old.items) }
    ensures rising { (of : T → K) → Gives F.Fn key of
        → (IsTrue result ↔ IsStrictlySortedBy (λ x y. K.cmp (of x) (of y)) items.new.items) }
{
    items.sort_unstable_by_key(|item| key(item));
    rise_by_key(items, key)
}
