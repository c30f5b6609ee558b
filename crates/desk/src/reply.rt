//! What the desk answers.
use crate::Vrps;
use payload::Validity;
use registry::{Auth, Refusal, Rule};
use std::alloc::AllocError;
use store::StoreFault;

/// What the desk answers to a request.
#[derive(Debug, Drop)]
pub enum Reply {
    /// A command was accepted. The number is that of the grant or authorization that it made, if it
    /// made one.
    Done(Option<u32>),
    /// An import was accepted: how many authorizations it made, and how many rows were already
    /// authorized.
    Imported { made: u64, present: u64 },
    Shown(Auth),
    /// The active authorizations that the caller may see, by rising number.
    Listed(Vec<Auth>),
    /// The octets of an authorization's ROA content, in lower-case hex.
    Content(String),
    /// The VRPs of the day, rising.
    Payloads(Vrps),
    /// The state of each route, in the order of the request.
    Answers(Vec<Validity>),
    /// The state of each route now and after the changes, in the order of the request.
    Report(Vec<(Validity, Validity)>),
    /// The first rule that fails; for an import also the row, and for a what-if the change, counted
    /// from 1.
    Denied(Rule, Option<u64>),
    /// An allocation failed, or the database did not answer. Nothing changes while the desk runs.
    /// If it stops before another command is accepted, a desk that is opened again may have this
    /// command applied.
    Unavailable,
}

impl From<Refusal> for Reply {
    ghost use Rattle.std.specs.Prelude.{◌≡◌};
    ghost use Rattle.desk.specs.Answer.{refused_with};

    ghost from_gives = { λ refusal reply. reply ≡ refused_with refusal };

    fn from(refusal: Refusal) -> Reply {
        match refusal {
            Refusal::Denied(rule, row) => Reply::Denied(rule, row),
            Refusal::Memory => Reply::Unavailable,
        }
    }
}

impl From<Rule> for Reply {
    ghost use Rattle.std.specs.Prelude.{◌≡◌, None};
    ghost use Rattle.desk.specs.declared.reply.Reply.TheVariants.{Denied};

    ghost from_gives = { λ rule reply. reply ≡ Denied rule None };

    fn from(rule: Rule) -> Reply {
        Reply::Denied(rule, None)
    }
}

impl From<StoreFault> for Reply {
    ghost use Rattle.std.specs.Prelude.{◌≡◌};
    ghost use Rattle.desk.specs.declared.reply.Reply.TheVariants.{Unavailable};

    ghost from_gives = { λ _ reply. reply ≡ Unavailable };

    fn from(_: StoreFault) -> Reply {
        Reply::Unavailable
    }
}

impl From<AllocError> for Reply {
    ghost use Rattle.std.specs.Prelude.{◌≡◌};
    ghost use Rattle.desk.specs.declared.reply.Reply.TheVariants.{Unavailable};

    ghost from_gives = { λ _ reply. reply ≡ Unavailable };

    fn from(_: AllocError) -> Reply {
        Reply::Unavailable
    }
}
