//! The VRPs of one day, which are kept while authorizations begin and end on it.
#![tactic(auto)]

mod counted;
mod daily;
mod exceptions;
mod exchange;
mod gathering;
mod giving;

pub use counted::CountedVrps;
pub use daily::DailyVrps;
pub use exceptions::{assertions_of, filters_of};
pub use exchange::judge_twice;
pub use gathering::{gather, judge};
