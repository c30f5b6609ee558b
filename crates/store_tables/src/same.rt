//! Whether two schemas are the same.
ghost use Rattle.std.specs.Prelude.{◌≡◌, ◌↔◌, [], ⊤, All, IsTrue};
ghost use Rattle.sqlite_value.specs.declared.value.Value.TheVariants.{Null};
ghost use Rattle.store_tables.specs.Schemas.{HasNoDefault, HasPlainTables, IsPlain, IsPlainSchema};

use sqlite_items::Items;
use sqlite_schema::code::Terms;
use sqlite_schema::schema::{Column, Index, Reference, Schema, Stamps, Table};
use sqlite_value::keys::Order;
use sqlite_value::value::{Bytes, Value};

/// A part of a schema.
trait Same {
    // What is compared. A part that is not plain is never the same.
    ghost plain: { Self → Type 0 };

    fn is_same(&self, other: &Self) -> bool
        ensures { IsTrue result ↔ (plain self.now × (self.now ≡ other.now)) };
}

impl<T: Same> Same for Items<T> {
    ghost plain = { All T.plain };

    fn is_same(&self, other: &Self) -> bool {
        if self.len() != other.len() {
            return false;
        }
        let (items, others) = (self.as_slice(), other.as_slice());
        for i in 0..items.len() {
            if !items[i].is_same(&others[i]) {
                return false;
            }
        }
        true
    }
}

impl Same for usize {
    ghost plain = { λ _. ⊤ };

    fn is_same(&self, other: &Self) -> bool {
        self == other
    }
}

impl Same for Order {
    ghost plain = { λ _. ⊤ };

    fn is_same(&self, other: &Self) -> bool {
        self == other
    }
}

impl Same for Bytes {
    ghost plain = { λ _. ⊤ };

    fn is_same(&self, other: &Self) -> bool {
        self.as_slice() == other.as_slice()
    }
}

impl Same for Value {
    ghost plain = { λ value. value ≡ Null };

    fn is_same(&self, other: &Self) -> bool {
        matches!((self, other), (Value::Null, Value::Null))
    }
}

impl Same for Terms {
    ghost plain = { λ terms. terms ≡ [] };

    fn is_same(&self, other: &Self) -> bool {
        self.roots.is_empty() && other.roots.is_empty()
    }
}

impl Same for Stamps {
    ghost plain = { λ stamps. stamps.terms ≡ [] };

    fn is_same(&self, other: &Self) -> bool {
        self.places.is_same(&other.places)
            && self.terms.is_same(&other.terms)
            && self.formats.is_same(&other.formats)
    }
}

impl Same for Column {
    ghost plain = { HasNoDefault };

    fn is_same(&self, other: &Self) -> bool {
        self.name.is_same(&other.name)
            && self.kind == other.kind
            && self.is_strict == other.is_strict
            && self.not_null == other.not_null
            && self.default.is_same(&other.default)
            && self.collation == other.collation
    }
}

impl Same for Reference {
    ghost plain = { λ _. ⊤ };

    fn is_same(&self, other: &Self) -> bool {
        self.columns.is_same(&other.columns)
            && self.parent.is_same(&other.parent)
            && self.parent_columns.is_same(&other.parent_columns)
            && self.on_delete == other.on_delete
            && self.on_update == other.on_update
            && self.is_deferred == other.is_deferred
    }
}

impl Same for Table {
    ghost plain = { IsPlain };

    fn is_same(&self, other: &Self) -> bool {
        self.name.is_same(&other.name)
            && self.tree == other.tree
            && self.columns.is_same(&other.columns)
            && self.key == other.key
            && self.primary.is_same(&other.primary)
            && self.uniques.is_same(&other.uniques)
            && self.orders.is_same(&other.orders)
            && self.checks.is_same(&other.checks)
            && self.references.is_same(&other.references)
            && self.computed.is_same(&other.computed)
            && self.stamps.is_same(&other.stamps)
            && self.is_counted == other.is_counted
    }
}

impl Same for Index {
    ghost plain = { λ _. ⊤ };

    fn is_same(&self, other: &Self) -> bool {
        self.name.is_same(&other.name)
            && self.tree == other.tree
            && self.table == other.table
            && self.columns.is_same(&other.columns)
            && self.order == other.order
            && self.is_unique == other.is_unique
    }
}

/// Whether the tables are the same. Tables with a CHECK or a DEFAULT are not compared.
pub fn same_tables(a: &Schema, b: &Schema) -> bool
    ensures { IsTrue result ↔ (HasPlainTables a.now × (a.now.tables ≡ b.now.tables)) }
{
    a.tables.is_same(&b.tables)
}

/// Whether the schemas are the same. Those with a view, and tables with a CHECK or a DEFAULT, are
/// not compared.
pub fn same_schema(a: &Schema, b: &Schema) -> bool
    ensures { IsTrue result ↔ (IsPlainSchema a.now × (a.now ≡ b.now)) }
{
    same_tables(a, b) && a.indexes.is_same(&b.indexes) && a.views.is_empty() && b.views.is_empty()
}
