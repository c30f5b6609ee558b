//! Theorems about the octets of contents, stated as contracts of functions with empty bodies.

ghost use Rattle.std.specs.Prelude.{◌≡◌, ℕ, List, ◌++◌, ◌↔◌};
ghost use Rattle.roa.specs.RoaContent.{RouteOriginAttestation, IsContent, Encodes};
ghost use Rattle.roa.specs.ContentOctets.{content_octets};
ghost use Rattle.roa.specs.declared.content.TheConstants.Content.{MAX_ENTRIES};

/// No content's octets begin with another content's: whatever follows them, the content and where
/// it ends are known. So no octets are those of two contents.
pub fn prefix_free()
    ensures { (a b : RouteOriginAttestation) (s t x y : List ℕ) → IsContent a → IsContent b
        → Encodes a s → Encodes b t → s ++ x ≡ t ++ y → (a ≡ b) × (s ≡ t) × (x ≡ y) }
{}

/// The grammar relates each content to one list of octets, the one that `content_octets` gives.
pub fn one_spelling()
    ensures { (content : RouteOriginAttestation) (octets : List ℕ) → IsContent content
        → Encodes content octets ↔ (octets ≡ content_octets content) }
{}

/// States the limit of a content as a number, so that the proof fails if the constant changes.
pub fn limits()
    ensures { MAX_ENTRIES ≡ 64 }
{}
