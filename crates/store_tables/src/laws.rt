//! Theorems, stated as contracts of functions with empty bodies.
ghost use Rattle.std.specs.Prelude.{◌≡◌};
ghost use Rattle.store_tables.specs.declared.meta.TheConstants.{SCHEMA};
ghost use Rattle.store_tables.specs.Laws.{DeskTablesAreNamed};

/// The tables of a desk have their own names, so `has_names` accepts them.
#[tactic(auto, using(crate::proofs::DeskTables::names_there))]
pub fn desk_tables_are_named()
    ensures { DeskTablesAreNamed }
{}

/// States the number of the schema, so that the proof fails if the constant changes.
pub fn schema_number()
    ensures { SCHEMA ≡ 2 }
{}
