//! Authorizations of several prefixes.

/// `alpha` has 2001:db8::/32 too, and one authorization of AS 64496 has it and 192.0.2.0/24.
pub(crate) const TWO_FAMILIES: &str = r#"
reg {"do":"delegate","holder":"alpha","prefix":"2001:db8::/32"} => {"done":null}
ann {"do":"create","holder":"alpha","asn":64496,"entries":[{"prefix":"2001:db8::/32","max":48},{"prefix":"192.0.2.0/24","max":24}],"from":"2026-01-01","until":"2026-12-31"} => {"done":1}
"#;

pub(crate) const SCRIPTS: &str = r#"
# content_of_two_families after holder, two families
ann {"do":"content","holder":"alpha","number":1} => {"content":"302b020300fbf03024300e0402000130083006030400c00002301204020002300c300a03050020010db8020130"}
# show_several_prefixes after holder, two families
ann {"do":"show","holder":"alpha","number":1} => {"shown":{"number":1,"asn":64496,"entries":[{"prefix":"192.0.2.0/24","max":24},{"prefix":"2001:db8::/32","max":48}],"from":"2026-01-01","until":"2026-12-31"}}
ann {"do":"list","holder":"alpha"} => {"listed":[{"number":1,"asn":64496,"entries":[{"prefix":"192.0.2.0/24","max":24},{"prefix":"2001:db8::/32","max":48}],"from":"2026-01-01","until":"2026-12-31"}]}
bob {"do":"payloads"} => {"payloads":[{"asn":64496,"prefix":"192.0.2.0/24","max":24},{"asn":64496,"prefix":"2001:db8::/32","max":48}]}
bob {"do":"validity","routes":[{"prefix":"192.0.2.0/24","origin":64496},{"prefix":"2001:db8:1::/48","origin":64496},{"prefix":"2001:db8::/32","origin":64497}]} => {"answers":["Valid","Valid","Invalid"]}
# one_entry_of_another_is_same after holder, two families
ann {"do":"create","holder":"alpha","asn":64496,"prefix":"192.0.2.0/24","max":24,"from":"2026-01-01","until":"2026-12-31"} => {"denied":"same"}
ann {"do":"create","holder":"alpha","asn":64496,"entries":[{"prefix":"192.0.2.0/25","max":25},{"prefix":"2001:db8::/32","max":48}],"from":"2026-01-01","until":"2026-12-31"} => {"denied":"same"}
ann {"do":"create","holder":"alpha","asn":64496,"entries":[{"prefix":"192.0.2.0/24","max":25},{"prefix":"2001:db8::/32","max":49}],"from":"2026-01-01","until":"2026-12-31"} => {"done":2}
# amend_needs_a_length_for_each_prefix after holder, two families
ann {"do":"amend","holder":"alpha","number":1,"max":25,"until":"2026-12-31"} => {"denied":"length"}
ann {"do":"amend","holder":"alpha","number":1,"maxes":[25,48,48],"until":"2026-12-31"} => {"denied":"length"}
ann {"do":"amend","holder":"alpha","number":1,"maxes":[48,25],"until":"2026-12-31"} => {"denied":"length"}
ann {"do":"amend","holder":"alpha","number":1,"maxes":[25,48],"until":"2026-12-31"} => {"done":null}
ann {"do":"show","holder":"alpha","number":1} => {"shown":{"number":1,"asn":64496,"entries":[{"prefix":"192.0.2.0/24","max":25},{"prefix":"2001:db8::/32","max":48}],"from":"2026-01-01","until":"2026-12-31"}}
# amend_of_several_onto_an_entry_of_another_is_same after holder, two families
ann {"do":"create","holder":"alpha","asn":64496,"prefix":"2001:db8::/32","max":40,"from":"2026-01-01","until":"2026-12-31"} => {"done":2}
ann {"do":"amend","holder":"alpha","number":1,"maxes":[24,40],"until":"2026-12-31"} => {"denied":"same"}
ann {"do":"amend","holder":"alpha","number":2,"maxes":[48],"until":"2026-12-31"} => {"denied":"same"}
# show_needs_permission_for_each_prefix after holder, two families
reg {"do":"grant","holder":"alpha","name":"cleo","role":"clerk","scope":"192.0.2.0/24","until":"2026-12-31"} => {"done":2}
cleo {"do":"show","holder":"alpha","number":1} => {"denied":"number"}
cleo {"do":"list","holder":"alpha"} => {"listed":[]}
cleo {"do":"content","holder":"alpha","number":1} => {"denied":"number"}
# two_grants_cover_an_entry_each after holder, two families
reg {"do":"grant","holder":"alpha","name":"cleo","role":"clerk","scope":"192.0.2.0/24","until":"2026-12-31"} => {"done":2}
reg {"do":"grant","holder":"alpha","name":"cleo","role":"clerk","scope":"2001:db8::/32","until":"2026-12-31"} => {"done":3}
cleo {"do":"withdraw","holder":"alpha","number":1} => {"done":null}
cleo {"do":"create","holder":"alpha","asn":64497,"entries":[{"prefix":"192.0.2.0/25","max":25},{"prefix":"2001:db8::/33","max":33}],"from":"2026-01-01","until":"2026-12-31"} => {"done":2}
# create_is_judged_on_each_entry after holder, two families
reg {"do":"grant","holder":"alpha","name":"cleo","role":"clerk","scope":"192.0.2.0/24","until":"2026-12-31"} => {"done":2}
cleo {"do":"create","holder":"alpha","asn":64497,"entries":[{"prefix":"192.0.2.0/24","max":24},{"prefix":"2001:db8::/32","max":32}],"from":"2026-01-01","until":"2026-12-31"} => {"denied":"scope"}
ann {"do":"create","holder":"alpha","asn":64497,"entries":[{"prefix":"192.0.2.0/24","max":24},{"prefix":"2001:db8::/32","max":31}],"from":"2026-01-01","until":"2026-12-31"} => {"denied":"length"}
ann {"do":"create","holder":"alpha","asn":64497,"entries":[{"prefix":"192.0.2.0/24","max":24},{"prefix":"2001:db9::/32","max":32}],"from":"2026-01-01","until":"2026-12-31"} => {"denied":"held"}
# losing_one_prefix_ends_the_authorization after holder, two families
reg {"do":"reclaim","holder":"alpha","prefix":"2001:db8:ffff::/48"} => {"done":null}
ann {"do":"show","holder":"alpha","number":1} => {"denied":"number"}
bob {"do":"payloads"} => {"payloads":[]}
# transfer_of_the_second_prefix_ends_the_authorization after holder, two families, other holder
reg {"do":"transfer","prefix":"2001:db8::/33","giver":"alpha","taker":"beta"} => {"done":null}
ann {"do":"list","holder":"alpha"} => {"listed":[]}
bob {"do":"payloads"} => {"payloads":[]}
# entries_of_one_are_the_short_form after holder
ann {"do":"create","holder":"alpha","asn":64496,"entries":[{"prefix":"192.0.2.0/24","max":24}],"from":"2026-01-01","until":"2026-12-31"} => {"done":1}
ann {"do":"show","holder":"alpha","number":1} => {"shown":{"number":1,"asn":64496,"prefix":"192.0.2.0/24","max":24,"from":"2026-01-01","until":"2026-12-31"}}
ann {"do":"amend","holder":"alpha","number":1,"maxes":[26],"until":"2026-12-31"} => {"done":null}
ann {"do":"show","holder":"alpha","number":1} => {"shown":{"number":1,"asn":64496,"prefix":"192.0.2.0/24","max":26,"from":"2026-01-01","until":"2026-12-31"}}
# import_row_equal_to_one_of_two_entries_is_same after holder, two families
ann {"do":"import","holder":"alpha","rows":[{"asn":64496,"prefix":"192.0.2.0/24","max":24,"from":"2026-01-01","until":"2026-12-31"}]} => {"denied":"same","row":1}
# what_if_of_several_prefixes after holder, two families
ann {"do":"whatif","holder":"alpha","changes":[{"do":"withdraw","number":1},{"do":"create","asn":64497,"entries":[{"prefix":"2001:db8::/32","max":32},{"prefix":"192.0.2.0/24","max":24}],"from":"2026-01-01","until":"2026-12-31"}],"routes":[{"prefix":"192.0.2.0/24","origin":64496},{"prefix":"2001:db8::/32","origin":64497}]} => {"report":[["Valid","Invalid"],["Invalid","Valid"]]}
# second_of_two_entries_in_one_family after holder
ann {"do":"create","holder":"alpha","asn":64496,"entries":[{"prefix":"192.0.2.0/25","max":25},{"prefix":"192.0.2.128/25","max":25}],"from":"2026-01-01","until":"2026-12-31"} => {"done":1}
ann {"do":"create","holder":"alpha","asn":64496,"prefix":"192.0.2.128/25","max":26,"from":"2026-01-01","until":"2026-12-31"} => {"done":2}
ann {"do":"create","holder":"alpha","asn":64496,"entries":[{"prefix":"192.0.2.0/26","max":26},{"prefix":"192.0.2.128/25","max":26}],"from":"2026-01-01","until":"2026-12-31"} => {"denied":"same"}
ann {"do":"amend","holder":"alpha","number":1,"maxes":[25,26],"until":"2026-12-31"} => {"denied":"same"}
ann {"do":"amend","holder":"alpha","number":1,"maxes":[26,25],"until":"2026-12-31"} => {"done":null}
ann {"do":"amend","holder":"alpha","number":1,"maxes":[26,27],"until":"2026-12-31"} => {"done":null}
ann {"do":"amend","holder":"alpha","number":2,"maxes":[27],"until":"2026-12-31"} => {"denied":"same"}
ann {"do":"amend","holder":"alpha","number":2,"maxes":[25],"until":"2026-12-31"} => {"done":null}
bob {"do":"payloads"} => {"payloads":[{"asn":64496,"prefix":"192.0.2.0/25","max":26},{"asn":64496,"prefix":"192.0.2.128/25","max":25},{"asn":64496,"prefix":"192.0.2.128/25","max":27}]}
"#;
