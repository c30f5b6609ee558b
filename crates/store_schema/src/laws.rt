//! Theorems, stated as contracts of functions with empty bodies.
ghost use Rattle.store_schema.specs.Laws.{MovedTablesHold};

/// What the tables of schema 1 hold is what the tables of a desk hold after the move.
pub fn moved_tables_hold()
    ensures { MovedTablesHold }
{}
