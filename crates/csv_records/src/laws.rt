//! Theorems, stated as contracts of functions with empty bodies.
ghost use Rattle.std.specs.Prelude.{◌≡◌};
ghost use Rattle.csv_records.specs.declared.imports.TheConstants.{MOST_ROWS};

/// States the limit of an import as a number, so that the proof fails if the constant changes.
pub fn limits()
    ensures { MOST_ROWS ≡ 10000 }
{}
