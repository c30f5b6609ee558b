//! What the desk does from outside: scripts with their replies, lines and streams. Each table has
//! named rows, and one small function goes over it.
#![tactic(auto)]

#[cfg(test)]
mod devices;
pub mod fakes;
#[cfg(test)]
mod followed_days;
#[cfg(test)]
mod kept_days;
#[cfg(test)]
mod many_vrps;
#[cfg(test)]
mod opened_desks;
#[cfg(test)]
mod ready;
#[cfg(test)]
mod replies;
#[cfg(test)]
mod request_lines;
#[cfg(test)]
mod rules;
#[cfg(test)]
mod scripts;
