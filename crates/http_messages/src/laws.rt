//! Theorems, stated as contracts of functions with empty bodies.
ghost use Rattle.std.specs.Prelude.{◌≡◌};
ghost use Rattle.http_messages.specs.declared.body.TheConstants.{BODY_LIMIT};
ghost use Rattle.http_messages.specs.declared.head.TheConstants.{HEAD_LIMIT};
ghost use Rattle.http_messages.specs.declared.response.TheConstants.{SHORT_RESPONSE};

/// States the limits of a message as numbers, so that the proof fails if a constant changes.
pub fn limits()
    ensures head { HEAD_LIMIT ≡ 8192 }
    ensures body { BODY_LIMIT ≡ 1048576 }
    ensures short_response { SHORT_RESPONSE ≡ 4096 }
{}
