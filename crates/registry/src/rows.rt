//! The rows of a holder.

use crate::{Auth, Granted};
use addr::Holdings;
use std::alloc::AllocError;

/// The rows of one registered resource holder.
///
/// The type promises no more than the types of its fields. If the rows are those of a history, a
/// contract says so.
#[derive(Drop)]
pub struct HolderRows {
    /// The address space that the holder holds.
    pub holdings: Holdings,
    /// The grants that are not revoked, by rising number.
    pub grants: Vec<Granted>,
    /// The active authorizations, by rising number.
    pub auths: Vec<Auth>,
    /// How many grants were made at the holder.
    pub granted: u32,
    /// How many authorizations were made at the holder.
    pub created: u32,
}

impl Clone for HolderRows {
    ghost use Rattle.std.specs.Prelude.{◌≡◌};
    ghost use Rattle.registry.specs.Rows.{rows_of};

    ghost is_clone = { λ rows copy. rows_of copy ≡ rows_of rows };

    fn clone(&self) -> Result<Self, AllocError> {
        Ok(HolderRows {
            holdings: self.holdings.clone()?,
            grants: self.grants.clone()?,
            auths: self.auths.clone()?,
            granted: self.granted,
            created: self.created,
        })
    }
}

/// What a command is judged on.
#[derive(Drop)]
pub struct View {
    /// The rows of the holder that the command names; `None` if it is not registered.
    pub holder: Option<HolderRows>,
    /// For a delegation, whether some address of the prefix has a resource holder. Not read for
    /// any other command.
    pub taken: bool,
}

/// What the rules of a command read beside rows, as yes or no. Each field has to be right only for
/// the commands that it names. Of a create also `gives` has to be right only if `holds` is true, and
/// `is_full` only if also `gives` is false: otherwise an earlier rule denies the create.
#[derive(Clone, Copy)]
pub struct Answers {
    /// Of a create, how many authorizations were made at the holder.
    pub created: u32,
    /// Of a create, whether the holder holds every address of the terms.
    pub holds: bool,
    /// Whether an active authorization of the holder, of an amendment one of another number, gives
    /// the AS of the terms with one of their entries.
    pub gives: bool,
    /// Of a create, whether the holder has as many active authorizations as it may have.
    pub is_full: bool,
    /// Of a delegation, whether some address of the prefix has a resource holder.
    pub taken: bool,
}

impl Answers {
    /// The answers for a command that reads none of them.
    pub const NONE: Answers = Answers {
        created: 0,
        holds: false,
        gives: false,
        is_full: false,
        taken: false,
    };
}
