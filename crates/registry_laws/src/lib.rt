//! What holds of every legal history, and what competing holders may rely on when they share a desk.
//! Both are over the definitions of `registry` alone.
#![tactic(auto)]

pub mod histories;
pub mod isolation;
