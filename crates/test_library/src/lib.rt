//! What the libraries below the desk do from outside: vectors of other programs and of the standards,
//! the program's words and its files, databases that were made by SQL, and what a store applied and
//! loads. Each table has named rows, and one small function goes over it.
#![tactic(auto)]

#[cfg(test)]
mod charter_files;
#[cfg(test)]
mod checks;
#[cfg(test)]
mod contents;
#[cfg(test)]
mod databases;
pub mod example_database;
#[cfg(test)]
mod kept_days;
pub mod listing;
#[cfg(test)]
mod memory;
#[cfg(test)]
mod parsing;
#[cfg(test)]
mod prefixes;
#[cfg(test)]
mod program_faults;
#[cfg(test)]
mod refused_calls;
#[cfg(test)]
mod roa_prefixes;
pub mod rows;
pub mod sheet;
#[cfg(test)]
mod slurm_files;
pub mod slurm_sample;
#[cfg(test)]
mod slurm_sets;
#[cfg(test)]
mod stores;
#[cfg(test)]
mod tables;
#[cfg(test)]
mod tries;
#[cfg(test)]
mod values;
#[cfg(test)]
mod vrps;
#[cfg(test)]
mod words;
