//! Theorems, stated as contracts of functions with empty bodies.
ghost use Rattle.std.specs.Prelude.{◌≡◌};
ghost use Rattle.slurm.specs.declared.exceptions.TheConstants.{MOST_ENTRIES};
ghost use Rattle.slurm.specs.declared.set.TheConstants.{MOST_FILES};

/// States the limits of a file and of a set of files as numbers, so that the proof fails if a
/// constant changes.
pub fn limits()
    ensures entries { MOST_ENTRIES ≡ 4096 }
    ensures files { MOST_FILES ≡ 16 }
{}
