//! Typed values as the parameters of a statement. A blob borrows its bytes, so the bytes of an
//! address are made first, by `address_bytes`.
ghost use Rattle.std.specs.Prelude.{◌≡◌, [], ◌∷◌};
ghost use Rattle.sqlite.specs.Values.{bound};
ghost use Rattle.sqlite_value.specs.declared.value.Value.TheVariants.{Text};
ghost use Rattle.store_tables.specs.Cells.{address_bytes, number_cell, family_number, prefix_cells};

use addr::{Family, Name, Prefix};
use sqlite::types::{ToSql, ValueRef};

/// The bytes of an address, the most significant first.
pub fn address_bytes(number: u128) -> [u8; 16]
    ensures { result ≡ address_bytes number }
{
    number.to_be_bytes()
}

/// The number of a family in the tables.
pub fn family_number(family: Family) -> u32
    ensures { result ≡ family_number family }
{
    match family {
        Family::V4 => 4,
        Family::V6 => 6,
    }
}

/// The name of a holder or an operator.
pub fn name_values<'a>(holder: &'a Name) -> [ValueRef<'a>; 1]
    ensures { bound result ≡ Text holder.now ∷ [] }
{
    [holder.as_str().to_sql()]
}

/// The name of a holder and a number.
pub fn number_values<'a>(holder: &'a Name, number: u32) -> [ValueRef<'a>; 2]
    ensures { bound result ≡ Text holder.now ∷ number_cell number ∷ [] }
{
    [holder.as_str().to_sql(), number.to_sql()]
}

/// The columns of a prefix, with the bytes of its first address.
pub fn prefix_values<'a>(prefix: &Prefix, first: &'a [u8]) -> [ValueRef<'a>; 3]
    requires { first.now ≡ address_bytes prefix.now.first }
    ensures { bound result ≡ prefix_cells prefix.now }
{
    [
        family_number(prefix.family).to_sql(),
        first.to_sql(),
        u32::from(prefix.length).to_sql(),
    ]
}
