//! The content of a route origin authorization (RFC 9582 section 4) in DER, both ways.
#![tactic(auto)]

mod content;
mod der;
mod fault;
pub mod laws;
mod reading;
mod writing;

/// An entry of a content. Entries rise by family, first address, prefix length and maxLength.
pub use addr::RoaPrefix as Entry;
pub use content::{Content, ContentFault};
pub use fault::DecodeFault;
pub use reading::decode;
pub use writing::encode;
