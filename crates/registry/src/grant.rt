//! Grants, and the access that they give.

ghost use Rattle.std.specs.Prelude.{◌≡◌};
ghost use Rattle.registry.specs.Permission.{allowed_roles, scope_has, is_current, gives_access, has_access, is_permitted, are_permitted};
ghost use Rattle.registry.specs.Terms.{numbered_grant};

use addr::{Day, Name, Prefix, RoaPrefix};

/// What a caller may do at a resource holder.
#[derive(Clone, Copy, Debug, PartialEq, Eq)]
pub enum Role {
    Manager,
    Clerk,
    Auditor,
}

/// The prefixes that a grant speaks of: all, or one prefix and the prefixes within it.
#[derive(Clone, Copy, Debug, PartialEq, Eq)]
pub enum Scope {
    All,
    Only(Prefix),
}

/// A grant that was made at a resource holder and not revoked.
#[derive(Clone, Copy, Debug, PartialEq, Eq)]
pub struct Granted {
    /// Counts the holder's grants from 1, in the order in which they were made.
    pub number: u32,
    pub caller: Name,
    pub role: Role,
    pub scope: Scope,
    /// The last day on which the grant is current.
    pub until: Day,
}

/// What a grant is to say, before it has a number.
#[derive(Clone, Copy, Debug, PartialEq, Eq)]
pub struct GrantTerms {
    /// The caller that it permits to act.
    pub to: Name,
    pub role: Role,
    pub scope: Scope,
    /// The last day on which the grant is current.
    pub until: Day,
}

/// What a request needs a grant for.
#[derive(Clone, Copy, Debug, PartialEq, Eq)]
pub enum Access {
    /// To make and revoke grants.
    Manage,
    /// To create, amend and withdraw authorizations.
    Alter,
    /// To see authorizations.
    Look,
}

impl Access {
    /// Whether the role gives the access.
    fn is_given_by(self, role: Role) -> bool
        ensures { result ≡ allowed_roles self role }
    {
        match (self, role) {
            (Access::Manage, Role::Manager) => true,
            (Access::Manage, Role::Clerk | Role::Auditor) => false,
            (Access::Alter, Role::Manager | Role::Clerk) => true,
            (Access::Alter, Role::Auditor) => false,
            (Access::Look, _) => true,
        }
    }
}

impl Scope {
    /// Whether the scope has the prefix.
    fn has(&self, prefix: &Prefix) -> bool
        ensures { result ≡ scope_has self.now prefix.now }
    {
        match self {
            Scope::All => true,
            Scope::Only(scope) => scope.contains(prefix),
        }
    }
}

impl GrantTerms {
    /// The grant of these terms and of this number.
    pub fn numbered(&self, number: u32) -> Granted
        ensures { result ≡ numbered_grant self.now number }
    {
        Granted {
            number,
            caller: self.to,
            role: self.role,
            scope: self.scope,
            until: self.until,
        }
    }
}

impl Granted {
    /// Whether the grant is current on the day.
    fn is_current(&self, day: Day) -> bool
        ensures { result ≡ is_current day self.now }
    {
        day.number() <= self.until.number()
    }

    /// Whether the grant gives the caller the access on the day, whatever its scope.
    fn gives(&self, day: Day, caller: &Name, access: Access) -> bool
        ensures { result ≡ gives_access day caller.now access self.now }
    {
        self.caller == *caller && self.is_current(day) && access.is_given_by(self.role)
    }
}

/// Whether some grant gives the caller the access on the day, whatever its scope.
pub fn has_access(grants: &[Granted], day: Day, caller: &Name, access: Access) -> bool
    ensures { result ≡ has_access grants.now day caller.now access }
{
    grants.iter().any(|grant| grant.gives(day, caller, access))
}

/// Whether some one grant gives the caller the access on the day and has the prefix in its scope.
fn is_permitted(
    grants: &[Granted],
    day: Day,
    caller: &Name,
    access: Access,
    prefix: &Prefix,
) -> bool
    ensures { result ≡ is_permitted grants.now day caller.now access prefix.now }
{
    grants.iter().any(|grant| grant.gives(day, caller, access) && grant.scope.has(prefix))
}

/// Whether the caller is permitted each prefix of the entries.
pub fn are_permitted(
    grants: &[Granted],
    day: Day,
    caller: &Name,
    access: Access,
    entries: &[RoaPrefix],
) -> bool
    ensures { result ≡ are_permitted grants.now day caller.now access entries.now }
{
    entries.iter().all(|entry| is_permitted(grants, day, caller, access, &entry.prefix))
}
