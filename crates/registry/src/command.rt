//! Commands and queries.

ghost use Rattle.std.specs.Prelude.{◌≡◌};

use crate::{AuthTerms, GrantTerms, ImportRow};
use addr::{Day, Name, Prefix, Route};
use slurm::SlurmSet;

/// A request that enters the history if it is accepted.
#[derive(Debug, Drop)]
pub enum Command {
    /// Makes the holder known to the desk; it has no addresses yet.
    Register {
        holder: Name,
    },
    /// Gives the holder a prefix of the pool that nobody holds.
    Delegate {
        holder: Name,
        prefix: Prefix,
    },
    /// Takes a prefix from its holder and gives it to another.
    Transfer {
        prefix: Prefix,
        giver: Name,
        taker: Name,
    },
    /// Takes a prefix back from its holder.
    Reclaim {
        holder: Name,
        prefix: Prefix,
    },
    /// Permits a caller to act at the holder in a role.
    Grant {
        holder: Name,
        terms: GrantTerms,
    },
    /// Takes back the grant of this number.
    Revoke {
        holder: Name,
        number: u32,
    },
    /// Authorizes what the terms say.
    Create {
        holder: Name,
        terms: AuthTerms,
    },
    /// Sets the maxLengths, one for each entry in the order of prefixes, and the last day of the
    /// authorization of this number.
    Amend {
        holder: Name,
        number: u32,
        maxes: Vec<u8>,
        until: Day,
    },
    /// Ends the authorization of this number.
    Withdraw {
        holder: Name,
        number: u32,
    },
    /// Authorizes what each row says, all rows or none. A row that is already authorized makes
    /// nothing.
    Import {
        holder: Name,
        rows: Vec<ImportRow>,
    },
    /// Replaces all SLURM files by these.
    Slurm {
        files: SlurmSet,
    },
}

/// A request that changes nothing.
#[derive(Debug, Drop)]
pub enum Query {
    /// The authorization of this number.
    Show {
        holder: Name,
        number: u32,
    },
    /// The ROA content of the authorization of this number.
    Content {
        holder: Name,
        number: u32,
    },
    /// The active authorizations that the caller may see.
    List {
        holder: Name,
    },
    /// The VRPs of the day.
    Payloads,
    /// The validation state of each route on the day's VRPs.
    Validity {
        routes: Vec<Route>,
    },
    /// The validation state of each route on the day's VRPs as they are, and as they would be
    /// after the changes.
    WhatIf {
        holder: Name,
        changes: Vec<Proposed>,
        routes: Vec<Route>,
    },
}

/// A hypothetical change of a holder's authorizations, as a what-if request names it.
#[derive(Clone, Debug, Drop)]
pub enum Proposed {
    /// Authorizes what the terms say.
    Create(AuthTerms),
    /// Ends the authorization of this number.
    Withdraw(u32),
}

impl Command {
    ghost use Rattle.std.specs.Prelude.{option_copied};
    ghost use Rattle.registry.specs.Answer.{is_transfer, holder_of};

    /// Whether `decide_two` decides the command, on the rows of two holders, and not `decide`.
    pub fn is_transfer(&self) -> bool
        ensures { result ≡ is_transfer self.now }
    {
        matches!(self, Command::Transfer { .. })
    }

    /// The holder that the command names: for a transfer the giver, and for SLURM files none.
    pub fn holder(&self) -> Option<&Name>
        ensures { option_copied result ≡ holder_of self.now }
    {
        match self {
            Command::Register { holder }
            | Command::Delegate { holder, .. }
            | Command::Transfer { giver: holder, .. }
            | Command::Reclaim { holder, .. }
            | Command::Grant { holder, .. }
            | Command::Revoke { holder, .. }
            | Command::Create { holder, .. }
            | Command::Amend { holder, .. }
            | Command::Withdraw { holder, .. }
            | Command::Import { holder, .. } => Some(holder),
            Command::Slurm { .. } => None,
        }
    }
}
