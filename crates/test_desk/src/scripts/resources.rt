//! Registration, delegation, transfer and reclaim.

pub(crate) const SCRIPTS: &str = r#"
# empty_script_writes_nothing
# lowest_malformed_number_is_told
Reg {"do":"delegate","holder":"alpha","prefix":"192.0.2.1/24"} => {"malformed":4}
# register_twice_and_by_a_stranger
reg {"do":"register","holder":"alpha"} => {"done":null}
bob {"do":"register","holder":"alpha"} => {"denied":"operator"}
reg {"do":"register","holder":"alpha"} => {"denied":"fresh"}
# transfer_away_and_back_ends_authorization after holder, authorization
reg {"do":"register","holder":"beta"} => {"done":null}
reg {"do":"transfer","prefix":"192.0.2.64/26","giver":"alpha","taker":"beta"} => {"done":null}
ann {"do":"show","holder":"alpha","number":1} => {"denied":"number"}
reg {"do":"transfer","prefix":"192.0.2.64/26","giver":"beta","taker":"alpha"} => {"done":null}
ann {"do":"show","holder":"alpha","number":1} => {"denied":"number"}
ann {"do":"create","holder":"alpha","asn":64496,"prefix":"192.0.2.0/24","max":24,"from":"2026-01-01","until":"2026-12-31"} => {"done":2}
# transfer_beside_authorization_keeps_it after holder
reg {"do":"register","holder":"beta"} => {"done":null}
ann {"do":"create","holder":"alpha","asn":64496,"prefix":"192.0.2.0/25","max":25,"from":"2026-01-01","until":"2026-12-31"} => {"done":1}
reg {"do":"transfer","prefix":"192.0.2.128/25","giver":"alpha","taker":"beta"} => {"done":null}
ann {"do":"show","holder":"alpha","number":1} => {"shown":{"number":1,"asn":64496,"prefix":"192.0.2.0/25","max":25,"from":"2026-01-01","until":"2026-12-31"}}
# transfer_of_the_whole_ends_authorizations_of_its_halves after holder
reg {"do":"register","holder":"beta"} => {"done":null}
ann {"do":"create","holder":"alpha","asn":64496,"prefix":"192.0.2.0/25","max":25,"from":"2026-01-01","until":"2026-12-31"} => {"done":1}
ann {"do":"create","holder":"alpha","asn":64496,"prefix":"192.0.2.128/25","max":25,"from":"2026-01-01","until":"2026-12-31"} => {"done":2}
reg {"do":"transfer","prefix":"192.0.2.0/24","giver":"alpha","taker":"beta"} => {"done":null}
ann {"do":"list","holder":"alpha"} => {"listed":[]}
bob {"do":"payloads"} => {"payloads":[]}
# transfer_of_an_unregistered_holder_to_itself after holder
reg {"do":"transfer","prefix":"192.0.2.0/24","giver":"zeta","taker":"zeta"} => {"denied":"holder"}
# prefix_held_by_two_parts_after_transfer after holder
reg {"do":"register","holder":"beta"} => {"done":null}
reg {"do":"delegate","holder":"alpha","prefix":"2001:db8::/33"} => {"done":null}
reg {"do":"delegate","holder":"beta","prefix":"2001:db8:8000::/33"} => {"done":null}
ann {"do":"create","holder":"alpha","asn":64496,"prefix":"2001:db8::/32","max":48,"from":"2026-01-01","until":"2026-12-31"} => {"denied":"held"}
reg {"do":"transfer","prefix":"2001:db8:8000::/33","giver":"beta","taker":"alpha"} => {"done":null}
ann {"do":"create","holder":"alpha","asn":64496,"prefix":"2001:db8::/32","max":48,"from":"2026-01-01","until":"2026-12-31"} => {"done":1}
# reclaim_of_a_part_ends_authorization after holder, authorization, reclaimed part
# delegate_unregistered_outside_pool_and_taken after holder, authorization, reclaimed part
reg {"do":"delegate","holder":"beta","prefix":"192.0.2.0/26"} => {"denied":"holder"}
reg {"do":"delegate","holder":"alpha","prefix":"192.0.0.0/16"} => {"denied":"pool"}
reg {"do":"delegate","holder":"alpha","prefix":"192.0.2.0/24"} => {"denied":"free"}
# reclaim_and_delegation_back_end_authorization after holder, authorization
reg {"do":"reclaim","holder":"alpha","prefix":"192.0.2.0/24"} => {"done":null}
reg {"do":"delegate","holder":"alpha","prefix":"192.0.2.0/24"} => {"done":null}
ann {"do":"show","holder":"alpha","number":1} => {"denied":"number"}
"#;

/// A part of the one authorization's prefix is reclaimed, and another authorization lies beside it.
pub(crate) const PART_RECLAIMED: &str = r#"
reg {"do":"reclaim","holder":"alpha","prefix":"192.0.2.0/26"} => {"done":null}
ann {"do":"list","holder":"alpha"} => {"listed":[]}
ann {"do":"create","holder":"alpha","asn":64496,"prefix":"192.0.2.64/26","max":26,"from":"2026-01-01","until":"2026-12-31"} => {"done":2}
"#;

/// Prefixes of the two families that begin at 0.
pub(crate) const ZEROS: &[&str] = &["0.0.0.0/8", "::/8"];

/// Neither family answers for the other, though all numbers of addresses of one are in the other.
pub(crate) const FAMILIES_OF_ZEROS: &str = r#"
reg {"do":"register","holder":"alpha"} => {"done":null}
reg {"do":"grant","holder":"alpha","name":"ann","role":"manager","scope":"all","until":"2026-12-31"} => {"done":1}
reg {"do":"delegate","holder":"alpha","prefix":"::/8"} => {"done":null}
ann {"do":"create","holder":"alpha","asn":64496,"prefix":"0.0.0.0/8","max":24,"from":"2026-01-01","until":"2026-12-31"} => {"denied":"held"}
ann {"do":"create","holder":"alpha","asn":64496,"prefix":"::/8","max":24,"from":"2026-01-01","until":"2026-12-31"} => {"done":1}
reg {"do":"delegate","holder":"alpha","prefix":"0.0.0.0/8"} => {"done":null}
ann {"do":"create","holder":"alpha","asn":64496,"prefix":"0.0.0.0/8","max":24,"from":"2026-01-01","until":"2026-12-31"} => {"done":2}
ann {"do":"create","holder":"alpha","asn":64496,"prefix":"0.0.0.0/8","max":24,"from":"2026-01-01","until":"2026-12-31"} => {"denied":"same"}
ann {"do":"amend","holder":"alpha","number":1,"max":25,"until":"2026-12-31"} => {"done":null}
ann {"do":"amend","holder":"alpha","number":2,"max":25,"until":"2026-12-31"} => {"done":null}
ann {"do":"create","holder":"alpha","asn":64496,"prefix":"::/8","max":25,"from":"2026-01-01","until":"2026-12-31"} => {"denied":"same"}
ann {"do":"withdraw","holder":"alpha","number":1} => {"done":null}
bob {"do":"payloads"} => {"payloads":[{"asn":64496,"prefix":"0.0.0.0/8","max":25}]}
reg {"do":"reclaim","holder":"alpha","prefix":"0.0.0.0/8"} => {"done":null}
ann {"do":"create","holder":"alpha","asn":64496,"prefix":"0.0.0.0/8","max":25,"from":"2026-01-01","until":"2026-12-31"} => {"denied":"held"}
ann {"do":"create","holder":"alpha","asn":64496,"prefix":"::/8","max":25,"from":"2026-01-01","until":"2026-12-31"} => {"done":3}
"#;
