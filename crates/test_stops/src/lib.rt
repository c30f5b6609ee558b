//! What a desk over files does where the disk fails: it stops at each call of the disk, or one call is
//! refused, and the files are opened again.
#![tactic(auto)]

#[cfg(test)]
mod example_requests;
#[cfg(test)]
mod failing;
#[cfg(test)]
mod http_creates;
#[cfg(test)]
mod kept_days;
#[cfg(test)]
mod lives;
#[cfg(test)]
mod openings;
#[cfg(test)]
mod refusals;
#[cfg(test)]
mod stops;
#[cfg(test)]
mod sweep;
