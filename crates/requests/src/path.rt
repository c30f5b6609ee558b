//! The paths of the desk and the methods that each has.
ghost use Rattle.std.specs.Prelude.{◌≡◌, is_some};
ghost use Rattle.http_messages.specs.Methods.{method_name};
ghost use Rattle.requests.specs.RequestFaults.{form_of};
ghost use Rattle.requests.specs.Routes.{action_at, is_asked_by, methods_of};

use crate::action::Action;
use crate::table::ACTIONS;
use http_messages::{Method, Methods};

/// A path of the table of routes.
#[derive(Clone, Copy, Debug, PartialEq, Eq)]
pub(crate) enum Path {
    Holder,
    Delegations,
    Reclaims,
    Transfers,
    Grants,
    Grant,
    Auths,
    Auth,
    Content,
    Export,
    Imports,
    WhatIf,
    Slurm,
    Slurms,
    Payloads,
    Validity,
}

/// All paths, each with its template, which has the parameters in braces.
pub(crate) const PATHS: &[(&str, Path)] = &[
    ("/holders/{holder}", Path::Holder),
    ("/holders/{holder}/delegations", Path::Delegations),
    ("/holders/{holder}/reclaims", Path::Reclaims),
    ("/transfers", Path::Transfers),
    ("/holders/{holder}/grants", Path::Grants),
    ("/holders/{holder}/grants/{number}", Path::Grant),
    ("/holders/{holder}/auths", Path::Auths),
    ("/holders/{holder}/auths/{number}", Path::Auth),
    ("/holders/{holder}/auths/{number}/content", Path::Content),
    ("/holders/{holder}/export", Path::Export),
    ("/holders/{holder}/imports", Path::Imports),
    ("/holders/{holder}/whatif", Path::WhatIf),
    ("/slurm", Path::Slurm),
    ("/slurms", Path::Slurms),
    ("/payloads", Path::Payloads),
    ("/validity", Path::Validity),
];

impl Path {
    /// The methods by which the path asks for something.
    pub(crate) fn methods(self) -> Methods
        ensures { result ≡ methods_of self }
    {
        Methods {
            get: self.has(Method::Get),
            put: self.has(Method::Put),
            post: self.has(Method::Post),
            patch: self.has(Method::Patch),
            delete: self.has(Method::Delete),
        }
    }

    /// Whether the path has this method.
    fn has(self, method: Method) -> bool
        ensures { result ≡ is_some (action_at (method_name method) self) }
    {
        self.action(method.name().as_bytes()).is_some()
    }

    /// What a method of this name asks for at the path.
    pub(crate) fn action(self, method: &[u8]) -> Option<Action>
        ensures { result ≡ action_at method.now self }
    {
        for action in ACTIONS {
            if self.is_asked(method, *action) {
                return Some(*action);
            }
        }
        None
    }

    /// Whether a method of this name asks for that at the path.
    fn is_asked(self, method: &[u8], action: Action) -> bool
        ensures { result ≡ is_asked_by method.now self (form_of action) }
    {
        let form = action.form();
        form.path == self && form.method.name().as_bytes() == method
    }
}
