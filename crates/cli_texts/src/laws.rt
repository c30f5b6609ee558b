//! Theorems, stated as contracts of functions with empty bodies.
ghost use Rattle.std.specs.Prelude.{◌≡◌};
ghost use Rattle.cli_texts.specs.declared.words.TheConstants.{CONNECTION_LIMIT};

/// States the limit of `serve` as a number, so that the proof fails if the constant changes.
pub fn limits()
    ensures { CONNECTION_LIMIT ≡ 1000000 }
{}
