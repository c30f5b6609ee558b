//! What a request asks for.
ghost use Rattle.std.specs.Prelude.{◌≡◌};
ghost use Rattle.requests.specs.Actions.{list_form, takes_body};

use http_messages::ContentType;

/// What a request asks for.
#[derive(Clone, Copy, Debug, PartialEq, Eq)]
pub enum Action {
    Register,
    Delegate,
    Reclaim,
    Transfer,
    Grant,
    Revoke,
    List,
    Create,
    Show,
    Amend,
    Withdraw,
    Content,
    /// The list, answered as CSV.
    Export,
    Import,
    WhatIf,
    /// One SLURM file, or a list.
    Slurm,
    /// A list of SLURM files, by its path alone.
    Slurms,
    Payloads,
    Validity,
}

impl Action {
    /// Whether an HTTP request has a body for it.
    pub fn takes_body(self) -> bool
        ensures { result ≡ takes_body self }
    {
        !self.form().body_members.is_empty()
    }

    /// The form in which it asks for a list.
    pub fn list_form(self) -> ContentType
        ensures { result ≡ list_form self }
    {
        self.form().list_form
    }
}
