//! The ROA content of an authorization (RFC 9582), as a text.

ghost use Rattle.std.specs.Prelude.{◌≡◌, ◌↔◌, true, IsSome, IfSome, IfOk};
ghost use Rattle.std.specs.String.{string_bytes};
ghost use Rattle.registry.specs.Verdict.{fit_lengths};
ghost use Rattle.desk.specs.ContentText.{attestation_of, IsContentText};

use registry::Auth;
use roa::{Content, encode};
use std::alloc::{AllocError, Global};

/// The ROA content of the authorization; `None` if a maxLength is out of range, which it is in no
/// history.
fn content_of(alloc: Global, auth: &Auth) -> Result<Option<Content>, AllocError>
    ensures some { IfOk result (λ found.
        IsSome found ↔ (fit_lengths auth.now.entries ≡ true)) }
    ensures value { IfOk result (λ found. IfSome found (λ content. content ≡ attestation_of auth.now)) }
{
    let entries = auth.entries.as_slice().to_vec(alloc)?;
    Ok(Content::make(auth.asn, entries).ok())
}

/// The octets of the authorization's ROA content in lower-case hex; `None` if a maxLength is out of
/// range, which it is in no history.
pub(crate) fn content_text(alloc: Global, auth: &Auth) -> Result<Option<String>, AllocError>
    ensures some { IfOk result (λ found.
        IsSome found ↔ (fit_lengths auth.now.entries ≡ true)) }
    ensures text { IfOk result (λ found.
        IfSome found (λ text. IsContentText auth.now (string_bytes text))) }
{
    let Some(content) = content_of(alloc, auth)? else {
        return Ok(None);
    };
    let octets = encode(alloc, &content)?;
    Ok(Some(hex::encode(alloc, octets)?))
}
