//! Sources and drains of bytes: the traits over which readers of requests and writers of replies
//! are generic, and the readers and writers of std as both.
#![tactic(auto)]

mod device;
mod printed;
mod stream;
mod trail;

pub use device::Device;
pub use printed::Printed;
pub use stream::{Drain, Failed, Source, write_all};
