//! Theorems, stated as contracts of functions with empty bodies.
ghost use Rattle.store_open.specs.Laws.{DeskTreesHaveTables, OldDeskTreesHaveSchema};

/// A database over the trees of a desk has its tables.
pub fn desk_trees_have_tables()
    ensures { DeskTreesHaveTables }
{}

/// A database over the trees of a desk of schema 1 has that schema.
pub fn old_desk_trees_have_schema()
    ensures { OldDeskTreesHaveSchema }
{}
