//! What replies of the desk have to do with each other, stated as contracts of functions that at most
//! call other theorems.
#![tactic(auto)]

ghost use Rattle.desk_laws.specs.AsDone.{WhatIfAsDone};
ghost use Rattle.desk_laws.specs.OneReply.{OneReply};

/// Two desks of one charter whose histories agree on the entries that decide a request give it the
/// same reply, unless one of them is Unavailable; the states that two what-ifs report may differ.
pub fn one_reply()
    ensures { OneReply }
{
    registry_laws::histories::one_outcome();
    registry_laws::histories::one_hypothetical_outcome();
    roa::laws::one_spelling();
}

/// If a what-if reports states for changes at a holder, then the same changes are accepted where the
/// caller requests them one after the other on the day; and validity then answers the second states
/// that it reported.
pub fn what_if_as_done()
    ensures { WhatIfAsDone }
{
    registry_laws::histories::one_hypothetical_outcome();
}
