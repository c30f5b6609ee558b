//! Authorizations that are amended.

/// The one authorization goes to length 25 and ends with June.
pub(crate) const AMENDMENT: &str = r#"
ann {"do":"amend","holder":"alpha","number":1,"max":25,"until":"2026-06-30"} => {"done":null}
"#;

pub(crate) const SCRIPTS: &str = r#"
# amend_length_and_last_day after holder, authorization, amendment
ann {"do":"show","holder":"alpha","number":1} => {"shown":{"number":1,"asn":64496,"prefix":"192.0.2.0/24","max":25,"from":"2026-01-01","until":"2026-06-30"}}
# amend_onto_another_is_same after holder, authorization, amendment
ann {"do":"create","holder":"alpha","asn":64496,"prefix":"192.0.2.0/24","max":24,"from":"2026-01-01","until":"2026-12-31"} => {"done":2}
ann {"do":"amend","holder":"alpha","number":2,"max":25,"until":"2026-12-31"} => {"denied":"same"}
# amend_onto_terms_that_a_withdraw_freed after holder, authorization, amendment
ann {"do":"create","holder":"alpha","asn":64496,"prefix":"192.0.2.0/24","max":24,"from":"2026-01-01","until":"2026-12-31"} => {"done":2}
ann {"do":"withdraw","holder":"alpha","number":1} => {"done":null}
ann {"do":"amend","holder":"alpha","number":2,"max":25,"until":"2026-12-31"} => {"done":null}
ann {"do":"list","holder":"alpha"} => {"listed":[{"number":2,"asn":64496,"prefix":"192.0.2.0/24","max":25,"from":"2026-01-01","until":"2026-12-31"}]}
# amend_past_day_then_short_length after holder, authorization, amendment
day 2026-07-01
ann {"do":"amend","holder":"alpha","number":1,"max":23,"until":"2026-06-30"} => {"denied":"dates"}
ann {"do":"amend","holder":"alpha","number":1,"max":23,"until":"2026-12-31"} => {"denied":"length"}
# amend_to_the_same_values_is_done after holder, authorization
ann {"do":"amend","holder":"alpha","number":1,"max":24,"until":"2026-12-31"} => {"done":null}
ann {"do":"show","holder":"alpha","number":1} => {"shown":{"number":1,"asn":64496,"prefix":"192.0.2.0/24","max":24,"from":"2026-01-01","until":"2026-12-31"}}
# amend_of_a_number_that_another_holder_has after holder, authorization, other holder
bea {"do":"create","holder":"beta","asn":64496,"prefix":"198.51.100.0/24","max":24,"from":"2026-01-01","until":"2026-12-31"} => {"done":1}
bea {"do":"create","holder":"beta","asn":64497,"prefix":"198.51.100.0/24","max":24,"from":"2026-01-01","until":"2026-12-31"} => {"done":2}
ann {"do":"amend","holder":"alpha","number":2,"max":25,"until":"2026-12-31"} => {"denied":"number"}
ann {"do":"amend","holder":"beta","number":2,"max":25,"until":"2026-12-31"} => {"denied":"grant"}
ann {"do":"amend","holder":"alpha","number":1,"max":25,"until":"2026-12-31"} => {"done":null}
ann {"do":"withdraw","holder":"alpha","number":1} => {"done":null}
ann {"do":"amend","holder":"alpha","number":1,"max":25,"until":"2026-12-31"} => {"denied":"number"}
bea {"do":"list","holder":"beta"} => {"listed":[{"number":1,"asn":64496,"prefix":"198.51.100.0/24","max":24,"from":"2026-01-01","until":"2026-12-31"},{"number":2,"asn":64497,"prefix":"198.51.100.0/24","max":24,"from":"2026-01-01","until":"2026-12-31"}]}
# amend_to_the_length_of_another_as_or_prefix after holder, authorization
ann {"do":"create","holder":"alpha","asn":64497,"prefix":"192.0.2.0/24","max":25,"from":"2026-01-01","until":"2026-12-31"} => {"done":2}
ann {"do":"create","holder":"alpha","asn":64496,"prefix":"192.0.2.0/25","max":26,"from":"2026-01-01","until":"2026-12-31"} => {"done":3}
ann {"do":"amend","holder":"alpha","number":1,"max":25,"until":"2026-12-31"} => {"done":null}
ann {"do":"amend","holder":"alpha","number":1,"max":26,"until":"2026-12-31"} => {"done":null}
ann {"do":"amend","holder":"alpha","number":1,"max":26,"until":"2026-12-31"} => {"done":null}
bob {"do":"payloads"} => {"payloads":[{"asn":64497,"prefix":"192.0.2.0/24","max":25},{"asn":64496,"prefix":"192.0.2.0/24","max":26},{"asn":64496,"prefix":"192.0.2.0/25","max":26}]}
"#;
