//! Sets of validated ROA payloads (VRPs), and route origin validation on them (RFC 6811 section 2).
#![tactic(auto)]

mod index;
mod list;
mod originator;
mod search;
mod shortest;
mod sink;
mod trie;
mod validity;

pub use index::PayloadIndex;
pub use list::ListIndex;
pub use sink::{Sink, Stop, VrpTest};
pub use trie::Trie;
pub use validity::Validity;
