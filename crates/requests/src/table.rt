//! The table of requests.
ghost use Rattle.std.specs.Prelude.{◌≡◌, map, option_map};
ghost use Rattle.requests.specs.RequestFaults.{body_names, form_of, line_names, word_of};

use crate::action::Action;
use crate::member_names::{
    ASN, CALLER, CHANGES, DAY, DO, ENTRIES, FILE, FILES, FROM, GIVER, HOLDER, MAX, MAXES, NAME,
    NUMBER, PREFIX, ROLE, ROUTES, ROWS, SCOPE, TAKER, UNTIL,
};
use crate::path::Path;
use http_messages::{ContentType, Method};

/// All requests, in the order of the table.
pub(crate) const ACTIONS: &[Action] = &[
    Action::Register,
    Action::Delegate,
    Action::Reclaim,
    Action::Transfer,
    Action::Grant,
    Action::Revoke,
    Action::List,
    Action::Create,
    Action::Show,
    Action::Amend,
    Action::Withdraw,
    Action::Content,
    Action::Export,
    Action::Import,
    Action::WhatIf,
    Action::Slurm,
    Action::Slurms,
    Action::Payloads,
    Action::Validity,
];

/// A row of the table: how a request is written.
#[derive(Clone, Copy, Debug)]
pub(crate) struct RequestForm {
    /// Its word in `do`; `None` if no line is such a request.
    pub(crate) word: Option<&'static str>,
    /// The members of its line: those of every line, those that name something, and those of its
    /// body. A choice has the members of both lists.
    pub(crate) line_members: &'static [&'static str],
    pub(crate) body_members: &'static [&'static str],
    pub(crate) method: Method,
    pub(crate) path: Path,
    /// The form in which it asks for a list.
    pub(crate) list_form: ContentType,
}

/// A row: the word, the members that name something, the further members, the method, the path and
/// the form in which it asks for a list.
macro_rules! row {
    (
        $word:expr, [$($named:ident),*] [$($member:ident),*],
        $method:ident $path:ident $list:ident
    ) => {
        RequestForm {
            word: $word,
            line_members: &[DAY, CALLER, DO, $($named,)* $($member,)*],
            body_members: &[$($member,)*],
            method: Method::$method,
            path: Path::$path,
            list_form: ContentType::$list,
        }
    };
}

impl Action {
    /// The row of the request.
    pub(crate) fn form(self) -> RequestForm
        ensures word { option_map (λ word. word.now) result.word ≡ word_of self }
        ensures line { map (λ name. name.now) result.line_members.now ≡ line_names self }
        ensures body { map (λ name. name.now) result.body_members.now ≡ body_names self }
        ensures method { result.method ≡ (form_of self).method }
        ensures path { result.path ≡ (form_of self).path }
        ensures list { result.list_form ≡ (form_of self).list_form }
    {
        match self {
            Action::Register => row!(Some("register"), [HOLDER] [], Put Holder Json),
            Action::Delegate => row!(
                Some("delegate"), [HOLDER] [PREFIX],
                Post Delegations Json
            ),
            Action::Reclaim => row!(Some("reclaim"), [HOLDER] [PREFIX], Post Reclaims Json),
            Action::Transfer => row!(
                Some("transfer"), [] [PREFIX, GIVER, TAKER],
                Post Transfers Json
            ),
            Action::Grant => row!(
                Some("grant"), [HOLDER] [NAME, ROLE, SCOPE, UNTIL],
                Post Grants Json
            ),
            Action::Revoke => row!(Some("revoke"), [HOLDER, NUMBER] [], Delete Grant Json),
            Action::List => row!(Some("list"), [HOLDER] [], Get Auths Json),
            Action::Create => row!(
                Some("create"), [HOLDER] [ASN, FROM, UNTIL, PREFIX, MAX, ENTRIES],
                Post Auths Json
            ),
            Action::Show => row!(Some("show"), [HOLDER, NUMBER] [], Get Auth Json),
            Action::Amend => row!(
                Some("amend"), [HOLDER, NUMBER] [UNTIL, MAX, MAXES],
                Patch Auth Json
            ),
            Action::Withdraw => row!(Some("withdraw"), [HOLDER, NUMBER] [], Delete Auth Json),
            Action::Content => row!(Some("content"), [HOLDER, NUMBER] [], Get Content Json),
            Action::Export => row!(None, [HOLDER] [], Get Export Csv),
            Action::Import => row!(Some("import"), [HOLDER] [ROWS], Post Imports Json),
            Action::WhatIf => row!(
                Some("whatif"), [HOLDER] [CHANGES, ROUTES],
                Post WhatIf Json
            ),
            Action::Slurm => row!(Some("slurm"), [] [FILE, FILES], Put Slurm Json),
            Action::Slurms => row!(None, [] [FILES], Put Slurms Json),
            Action::Payloads => row!(Some("payloads"), [] [], Get Payloads Json),
            Action::Validity => row!(Some("validity"), [] [ROUTES], Post Validity Json),
        }
    }
}
