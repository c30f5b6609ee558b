//! Authorizations that are created and withdrawn.

pub(crate) const SCRIPTS: &str = r#"
# create_over_width_is_denied_length_before_held after holder
ann {"do":"create","holder":"alpha","asn":64496,"prefix":"198.51.100.0/24","max":33,"from":"2026-01-01","until":"2026-12-31"} => {"denied":"length"}
ann {"do":"create","holder":"alpha","asn":64496,"prefix":"198.51.100.0/24","max":24,"from":"2026-01-01","until":"2026-12-31"} => {"denied":"held"}
# as_0_is_authorized_and_never_valid after holder
ann {"do":"create","holder":"alpha","asn":0,"prefix":"192.0.2.0/24","max":24,"from":"2026-01-01","until":"2026-12-31"} => {"done":1}
bob {"do":"validity","routes":[{"prefix":"192.0.2.0/24","origin":0}]} => {"answers":["Invalid"]}
# create_of_an_active_one_is_same after holder, authorization
ann {"do":"create","holder":"alpha","asn":64496,"prefix":"192.0.2.0/24","max":24,"from":"2026-06-01","until":"2026-06-30"} => {"denied":"same"}
# withdraw_twice_is_denied_number after holder, authorization
ann {"do":"withdraw","holder":"alpha","number":1} => {"done":null}
ann {"do":"withdraw","holder":"alpha","number":1} => {"denied":"number"}
ann {"do":"list","holder":"alpha"} => {"listed":[]}
# show_of_one_number_at_two_holders after holder, authorization
reg {"do":"register","holder":"beta"} => {"done":null}
reg {"do":"delegate","holder":"beta","prefix":"2001:db8::/32"} => {"done":null}
reg {"do":"grant","holder":"beta","name":"ann","role":"manager","scope":"all","until":"2026-12-31"} => {"done":1}
ann {"do":"create","holder":"beta","asn":64499,"prefix":"2001:db8::/32","max":48,"from":"2026-02-01","until":"2026-11-30"} => {"done":1}
ann {"do":"show","holder":"alpha","number":1} => {"shown":{"number":1,"asn":64496,"prefix":"192.0.2.0/24","max":24,"from":"2026-01-01","until":"2026-12-31"}}
ann {"do":"show","holder":"beta","number":1} => {"shown":{"number":1,"asn":64499,"prefix":"2001:db8::/32","max":48,"from":"2026-02-01","until":"2026-11-30"}}
ann {"do":"show","holder":"beta","number":2} => {"denied":"number"}
ann {"do":"content","holder":"beta","number":2} => {"denied":"number"}
# create_of_what_a_giver_had after holder, authorization, other holder
reg {"do":"transfer","prefix":"192.0.2.0/24","giver":"alpha","taker":"beta"} => {"done":null}
ann {"do":"create","holder":"alpha","asn":64496,"prefix":"192.0.2.0/24","max":24,"from":"2026-01-01","until":"2026-12-31"} => {"denied":"held"}
bea {"do":"create","holder":"beta","asn":64496,"prefix":"192.0.2.0/24","max":24,"from":"2026-01-01","until":"2026-12-31"} => {"done":1}
bea {"do":"create","holder":"beta","asn":64496,"prefix":"192.0.2.0/24","max":24,"from":"2026-01-01","until":"2026-12-31"} => {"denied":"same"}
ann {"do":"create","holder":"alpha","asn":64496,"prefix":"192.0.2.0/24","max":24,"from":"2026-01-01","until":"2026-12-31"} => {"denied":"held"}
reg {"do":"transfer","prefix":"192.0.2.0/24","giver":"beta","taker":"alpha"} => {"done":null}
ann {"do":"create","holder":"alpha","asn":64496,"prefix":"192.0.2.0/24","max":24,"from":"2026-01-01","until":"2026-12-31"} => {"done":2}
bea {"do":"list","holder":"beta"} => {"listed":[]}
bob {"do":"payloads"} => {"payloads":[{"asn":64496,"prefix":"192.0.2.0/24","max":24}]}
# create_of_what_another_holder_had_before_a_reclaim after holder, authorization, other holder
reg {"do":"reclaim","holder":"alpha","prefix":"192.0.2.0/24"} => {"done":null}
bea {"do":"create","holder":"beta","asn":64496,"prefix":"192.0.2.0/24","max":24,"from":"2026-01-01","until":"2026-12-31"} => {"denied":"held"}
reg {"do":"delegate","holder":"beta","prefix":"192.0.2.0/24"} => {"done":null}
bea {"do":"create","holder":"beta","asn":64496,"prefix":"192.0.2.0/24","max":24,"from":"2026-01-01","until":"2026-12-31"} => {"done":1}
ann {"do":"create","holder":"alpha","asn":64496,"prefix":"192.0.2.0/24","max":24,"from":"2026-01-01","until":"2026-12-31"} => {"denied":"held"}
bea {"do":"list","holder":"beta"} => {"listed":[{"number":1,"asn":64496,"prefix":"192.0.2.0/24","max":24,"from":"2026-01-01","until":"2026-12-31"}]}
# create_of_what_another_holder_has_is_held_before_same after holder, authorization, other holder
bea {"do":"create","holder":"beta","asn":64496,"prefix":"198.51.100.0/24","max":24,"from":"2026-01-01","until":"2026-12-31"} => {"done":1}
ann {"do":"create","holder":"alpha","asn":64496,"prefix":"198.51.100.0/24","max":24,"from":"2026-01-01","until":"2026-12-31"} => {"denied":"held"}
bea {"do":"create","holder":"beta","asn":64496,"prefix":"192.0.2.0/24","max":24,"from":"2026-01-01","until":"2026-12-31"} => {"denied":"held"}
ann {"do":"create","holder":"alpha","asn":64496,"entries":[{"prefix":"192.0.2.0/25","max":25},{"prefix":"198.51.100.0/24","max":24}],"from":"2026-01-01","until":"2026-12-31"} => {"denied":"held"}
ann {"do":"create","holder":"alpha","asn":64496,"entries":[{"prefix":"192.0.2.0/24","max":24},{"prefix":"198.51.100.0/24","max":24}],"from":"2026-01-01","until":"2026-12-31"} => {"denied":"held"}
bob {"do":"payloads"} => {"payloads":[{"asn":64496,"prefix":"192.0.2.0/24","max":24},{"asn":64496,"prefix":"198.51.100.0/24","max":24}]}
# create_of_halves_of_which_one_was_given_away after holder, other holder
ann {"do":"create","holder":"alpha","asn":64496,"prefix":"192.0.2.0/25","max":25,"from":"2026-01-01","until":"2026-12-31"} => {"done":1}
ann {"do":"create","holder":"alpha","asn":64496,"prefix":"192.0.2.128/25","max":25,"from":"2026-01-01","until":"2026-12-31"} => {"done":2}
reg {"do":"transfer","prefix":"192.0.2.0/25","giver":"alpha","taker":"beta"} => {"done":null}
bea {"do":"create","holder":"beta","asn":64496,"prefix":"192.0.2.0/25","max":25,"from":"2026-01-01","until":"2026-12-31"} => {"done":1}
bea {"do":"create","holder":"beta","asn":64496,"prefix":"192.0.2.128/25","max":25,"from":"2026-01-01","until":"2026-12-31"} => {"denied":"held"}
ann {"do":"create","holder":"alpha","asn":64496,"prefix":"192.0.2.128/25","max":25,"from":"2026-01-01","until":"2026-12-31"} => {"denied":"same"}
ann {"do":"create","holder":"alpha","asn":64496,"prefix":"192.0.2.0/25","max":25,"from":"2026-01-01","until":"2026-12-31"} => {"denied":"held"}
bob {"do":"payloads"} => {"payloads":[{"asn":64496,"prefix":"192.0.2.0/25","max":25},{"asn":64496,"prefix":"192.0.2.128/25","max":25}]}
# withdraw_at_one_of_two_holders after holder, authorization, other holder
bea {"do":"create","holder":"beta","asn":64496,"prefix":"198.51.100.0/24","max":24,"from":"2026-01-01","until":"2026-12-31"} => {"done":1}
bea {"do":"create","holder":"beta","asn":64497,"prefix":"198.51.100.0/24","max":24,"from":"2026-01-01","until":"2026-12-31"} => {"done":2}
ann {"do":"withdraw","holder":"alpha","number":2} => {"denied":"number"}
ann {"do":"withdraw","holder":"beta","number":1} => {"denied":"grant"}
ann {"do":"withdraw","holder":"alpha","number":1} => {"done":null}
bea {"do":"list","holder":"beta"} => {"listed":[{"number":1,"asn":64496,"prefix":"198.51.100.0/24","max":24,"from":"2026-01-01","until":"2026-12-31"},{"number":2,"asn":64497,"prefix":"198.51.100.0/24","max":24,"from":"2026-01-01","until":"2026-12-31"}]}
bob {"do":"payloads"} => {"payloads":[{"asn":64496,"prefix":"198.51.100.0/24","max":24},{"asn":64497,"prefix":"198.51.100.0/24","max":24}]}
# create_within_across_and_between_runs_of_ipv4
reg {"do":"register","holder":"alpha"} => {"done":null}
reg {"do":"grant","holder":"alpha","name":"ann","role":"manager","scope":"all","until":"2026-12-31"} => {"done":1}
reg {"do":"delegate","holder":"alpha","prefix":"192.0.2.0/26"} => {"done":null}
reg {"do":"delegate","holder":"alpha","prefix":"192.0.2.64/26"} => {"done":null}
reg {"do":"delegate","holder":"alpha","prefix":"192.0.2.192/26"} => {"done":null}
ann {"do":"create","holder":"alpha","asn":64496,"prefix":"192.0.2.16/28","max":28,"from":"2026-01-01","until":"2026-12-31"} => {"done":1}
ann {"do":"create","holder":"alpha","asn":64496,"prefix":"192.0.2.0/25","max":25,"from":"2026-01-01","until":"2026-12-31"} => {"done":2}
ann {"do":"create","holder":"alpha","asn":64496,"prefix":"192.0.2.127/32","max":32,"from":"2026-01-01","until":"2026-12-31"} => {"done":3}
ann {"do":"create","holder":"alpha","asn":64496,"prefix":"192.0.2.128/32","max":32,"from":"2026-01-01","until":"2026-12-31"} => {"denied":"held"}
ann {"do":"create","holder":"alpha","asn":64496,"prefix":"192.0.2.191/32","max":32,"from":"2026-01-01","until":"2026-12-31"} => {"denied":"held"}
ann {"do":"create","holder":"alpha","asn":64496,"prefix":"192.0.2.192/32","max":32,"from":"2026-01-01","until":"2026-12-31"} => {"done":4}
ann {"do":"create","holder":"alpha","asn":64496,"prefix":"192.0.2.128/26","max":26,"from":"2026-01-01","until":"2026-12-31"} => {"denied":"held"}
ann {"do":"create","holder":"alpha","asn":64496,"prefix":"192.0.2.128/25","max":25,"from":"2026-01-01","until":"2026-12-31"} => {"denied":"held"}
ann {"do":"create","holder":"alpha","asn":64496,"prefix":"192.0.2.0/24","max":24,"from":"2026-01-01","until":"2026-12-31"} => {"denied":"held"}
ann {"do":"create","holder":"alpha","asn":64496,"prefix":"2001:db8::/32","max":32,"from":"2026-01-01","until":"2026-12-31"} => {"denied":"held"}
reg {"do":"delegate","holder":"alpha","prefix":"192.0.2.128/26"} => {"done":null}
ann {"do":"create","holder":"alpha","asn":64496,"prefix":"192.0.2.0/24","max":24,"from":"2026-01-01","until":"2026-12-31"} => {"done":5}
# create_within_across_and_between_runs_of_ipv6
reg {"do":"register","holder":"alpha"} => {"done":null}
reg {"do":"grant","holder":"alpha","name":"ann","role":"manager","scope":"all","until":"2026-12-31"} => {"done":1}
reg {"do":"delegate","holder":"alpha","prefix":"2001:db8::/34"} => {"done":null}
reg {"do":"delegate","holder":"alpha","prefix":"2001:db8:4000::/34"} => {"done":null}
reg {"do":"delegate","holder":"alpha","prefix":"2001:db8:c000::/34"} => {"done":null}
ann {"do":"create","holder":"alpha","asn":64496,"prefix":"2001:db8:1::/48","max":48,"from":"2026-01-01","until":"2026-12-31"} => {"done":1}
ann {"do":"create","holder":"alpha","asn":64496,"prefix":"2001:db8::/33","max":33,"from":"2026-01-01","until":"2026-12-31"} => {"done":2}
ann {"do":"create","holder":"alpha","asn":64496,"prefix":"2001:db8:7fff:ffff:ffff:ffff:ffff:ffff/128","max":128,"from":"2026-01-01","until":"2026-12-31"} => {"done":3}
ann {"do":"create","holder":"alpha","asn":64496,"prefix":"2001:db8:8000::/128","max":128,"from":"2026-01-01","until":"2026-12-31"} => {"denied":"held"}
ann {"do":"create","holder":"alpha","asn":64496,"prefix":"2001:db8:bfff:ffff:ffff:ffff:ffff:ffff/128","max":128,"from":"2026-01-01","until":"2026-12-31"} => {"denied":"held"}
ann {"do":"create","holder":"alpha","asn":64496,"prefix":"2001:db8:c000::/128","max":128,"from":"2026-01-01","until":"2026-12-31"} => {"done":4}
ann {"do":"create","holder":"alpha","asn":64496,"prefix":"2001:db8:8000::/34","max":34,"from":"2026-01-01","until":"2026-12-31"} => {"denied":"held"}
ann {"do":"create","holder":"alpha","asn":64496,"prefix":"2001:db8:8000::/33","max":33,"from":"2026-01-01","until":"2026-12-31"} => {"denied":"held"}
ann {"do":"create","holder":"alpha","asn":64496,"prefix":"2001:db8::/32","max":32,"from":"2026-01-01","until":"2026-12-31"} => {"denied":"held"}
ann {"do":"create","holder":"alpha","asn":64496,"prefix":"192.0.2.0/24","max":24,"from":"2026-01-01","until":"2026-12-31"} => {"denied":"held"}
ann {"do":"create","holder":"alpha","asn":64496,"entries":[{"prefix":"192.0.2.0/24","max":24},{"prefix":"2001:db8:2::/48","max":48}],"from":"2026-01-01","until":"2026-12-31"} => {"denied":"held"}
reg {"do":"delegate","holder":"alpha","prefix":"2001:db8:8000::/34"} => {"done":null}
ann {"do":"create","holder":"alpha","asn":64496,"prefix":"2001:db8::/32","max":32,"from":"2026-01-01","until":"2026-12-31"} => {"done":5}
"#;
