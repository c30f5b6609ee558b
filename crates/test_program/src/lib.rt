//! What the program does from outside: its connections over HTTP, with their responses whole, in pieces
//! and cut short; its tasks over files and over sockets of the loopback; and what is answered where an
//! allocation is refused. Each table has named rows, and one small function goes over it.
#![tactic(auto)]

#[cfg(test)]
mod clients;
#[cfg(test)]
mod clocks;
#[cfg(test)]
mod database_files;
#[cfg(test)]
mod desks;
#[cfg(test)]
mod http;
#[cfg(test)]
mod lines_on_faults;
#[cfg(test)]
mod prepared_day;
#[cfg(test)]
mod refused_memory;
#[cfg(test)]
mod responses;
#[cfg(test)]
mod script_faults;
#[cfg(test)]
mod sockets;
#[cfg(test)]
mod trickles;
