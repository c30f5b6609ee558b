//! Addresses, prefixes, AS numbers, names, days and validated ROA payloads: the values that every
//! other crate speaks of, each valid by its type.
#![tactic(auto)]

mod ascii;
mod asn;
mod day;
mod decimal;
mod family;
mod holdings;
pub mod laws;
mod name;
mod prefix;
mod prefix_order;
mod roa_prefix;
mod route;
mod span;
mod text;
mod vrp;

pub use asn::Asn;
pub use day::Day;
pub use decimal::{digits, digits_length, number_from_text, push_digits};
pub use family::Family;
pub use holdings::Holdings;
pub use name::Name;
pub use prefix::Prefix;
pub use roa_prefix::RoaPrefix;
pub use route::{Origin, Route};
pub use span::Span;
pub use text::PrefixFault;
pub use vrp::Vrp;
