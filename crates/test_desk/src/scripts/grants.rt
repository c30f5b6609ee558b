//! Grants: roles, scopes, last days and the room for them.

/// A grant that ends with the day on which it is made.
pub(crate) const SHORT_GRANT: &str =
    r#"reg {"do":"grant","holder":"alpha","name":"eve","role":"clerk","scope":"all","until":"2026-03-01"}"#;

/// What is answered where 64 grants are not revoked, of which 63 are past their last day.
pub(crate) const NO_ROOM: &str = r#"
day 2026-03-02
reg {"do":"grant","holder":"alpha","name":"eve","role":"clerk","scope":"all","until":"2026-12-31"} => {"denied":"room"}
reg {"do":"revoke","holder":"alpha","number":64} => {"done":null}
reg {"do":"grant","holder":"alpha","name":"eve","role":"clerk","scope":"all","until":"2026-12-31"} => {"done":65}
"#;

/// `cleo` is clerk for the lower half, and `ann` made an authorization in the upper one.
pub(crate) const CLERK_OF_THE_LOWER_HALF: &str = r#"
reg {"do":"grant","holder":"alpha","name":"cleo","role":"clerk","scope":"192.0.2.0/25","until":"2026-12-31"} => {"done":2}
ann {"do":"create","holder":"alpha","asn":64496,"prefix":"192.0.2.128/25","max":25,"from":"2026-01-01","until":"2026-12-31"} => {"done":1}
cleo {"do":"show","holder":"alpha","number":1} => {"denied":"number"}
cleo {"do":"show","holder":"alpha","number":9} => {"denied":"number"}
"#;

pub(crate) const SCRIPTS: &str = r#"
# grant_ends_after_its_last_day after holder
reg {"do":"grant","holder":"alpha","name":"dan","role":"clerk","scope":"all","until":"2026-03-31"} => {"done":2}
day 2026-03-31
dan {"do":"create","holder":"alpha","asn":64496,"prefix":"192.0.2.0/24","max":24,"from":"2026-01-01","until":"2026-12-31"} => {"done":1}
day 2026-04-01
dan {"do":"create","holder":"alpha","asn":64497,"prefix":"192.0.2.0/24","max":24,"from":"2026-01-01","until":"2026-12-31"} => {"denied":"grant"}
# grant_made_on_a_late_day_is_used_on_an_early_one after holder
day 2026-06-01
reg {"do":"grant","holder":"alpha","name":"eve","role":"clerk","scope":"all","until":"2026-12-31"} => {"done":2}
day 2026-01-15
eve {"do":"create","holder":"alpha","asn":64496,"prefix":"192.0.2.0/24","max":24,"from":"2026-01-01","until":"2026-12-31"} => {"done":1}
# revoke_twice_is_denied_number after holder
reg {"do":"grant","holder":"alpha","name":"eve","role":"clerk","scope":"all","until":"2026-12-31"} => {"done":2}
reg {"do":"revoke","holder":"alpha","number":2} => {"done":null}
reg {"do":"revoke","holder":"alpha","number":2} => {"denied":"number"}
reg {"do":"grant","holder":"alpha","name":"eve","role":"clerk","scope":"all","until":"2026-12-31"} => {"done":3}
# show_out_of_scope_looks_like_missing after holder, clerk
# list_has_what_the_scope_contains after holder, clerk
cleo {"do":"list","holder":"alpha"} => {"listed":[]}
ann {"do":"list","holder":"alpha"} => {"listed":[{"number":1,"asn":64496,"prefix":"192.0.2.128/25","max":25,"from":"2026-01-01","until":"2026-12-31"}]}
# scope_steward_and_distinct_are_denied after holder, clerk
cleo {"do":"create","holder":"alpha","asn":64496,"prefix":"192.0.2.0/24","max":24,"from":"2026-01-01","until":"2026-12-31"} => {"denied":"scope"}
cleo {"do":"grant","holder":"alpha","name":"eve","role":"clerk","scope":"all","until":"2026-12-31"} => {"denied":"steward"}
reg {"do":"transfer","prefix":"192.0.2.0/24","giver":"alpha","taker":"alpha"} => {"denied":"distinct"}
# scopes_of_two_grants_are_not_joined after holder
reg {"do":"grant","holder":"alpha","name":"cleo","role":"clerk","scope":"192.0.2.0/25","until":"2026-12-31"} => {"done":2}
reg {"do":"grant","holder":"alpha","name":"cleo","role":"clerk","scope":"192.0.2.128/25","until":"2026-12-31"} => {"done":3}
cleo {"do":"create","holder":"alpha","asn":64496,"prefix":"192.0.2.0/24","max":24,"from":"2026-01-01","until":"2026-12-31"} => {"denied":"scope"}
# operator_without_a_grant_neither_creates_nor_sees after holder, authorization
reg {"do":"create","holder":"alpha","asn":64497,"prefix":"192.0.2.0/24","max":24,"from":"2026-01-01","until":"2026-12-31"} => {"denied":"grant"}
reg {"do":"show","holder":"alpha","number":1} => {"denied":"grant"}
reg {"do":"list","holder":"alpha"} => {"denied":"grant"}
# grant_and_revoke_at_an_unregistered_holder
reg {"do":"grant","holder":"alpha","name":"eve","role":"clerk","scope":"all","until":"2026-12-31"} => {"denied":"holder"}
reg {"do":"revoke","holder":"alpha","number":1} => {"denied":"number"}
bob {"do":"grant","holder":"alpha","name":"eve","role":"clerk","scope":"all","until":"2026-12-31"} => {"denied":"steward"}
bob {"do":"revoke","holder":"alpha","number":1} => {"denied":"steward"}
# auditor_sees_and_does_not_create after holder, authorization
ann {"do":"grant","holder":"alpha","name":"olga","role":"auditor","scope":"all","until":"2026-12-31"} => {"done":2}
olga {"do":"show","holder":"alpha","number":1} => {"shown":{"number":1,"asn":64496,"prefix":"192.0.2.0/24","max":24,"from":"2026-01-01","until":"2026-12-31"}}
olga {"do":"list","holder":"alpha"} => {"listed":[{"number":1,"asn":64496,"prefix":"192.0.2.0/24","max":24,"from":"2026-01-01","until":"2026-12-31"}]}
olga {"do":"create","holder":"alpha","asn":64497,"prefix":"192.0.2.0/24","max":24,"from":"2026-01-01","until":"2026-12-31"} => {"denied":"grant"}
"#;
