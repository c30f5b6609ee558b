//! Pairs of scripts whose requests at `beta` and `gamma` differ, and those at `alpha` are the same.
//! A line that begins with `first: ` or `second: ` is in that script alone, any other in both: so
//! the replies at `alpha` are the same line by line.

pub(crate) const PAIRS: &str = r#"
# other_holders_are_registered
first: reg {"do":"register","holder":"beta"} => {"done":null}
first: reg {"do":"register","holder":"gamma"} => {"done":null}
second: reg {"do":"register","holder":"gamma"} => {"done":null}
second: reg {"do":"register","holder":"gamma"} => {"denied":"fresh"}
bob {"do":"register","holder":"alpha"} => {"denied":"operator"}
reg {"do":"register","holder":"alpha"} => {"done":null}
first: reg {"do":"register","holder":"beta"} => {"denied":"fresh"}
second: reg {"do":"register","holder":"beta"} => {"done":null}
reg {"do":"register","holder":"alpha"} => {"denied":"fresh"}
reg {"do":"grant","holder":"alpha","name":"ann","role":"manager","scope":"all","until":"2026-12-31"} => {"done":1}
ann {"do":"list","holder":"alpha"} => {"listed":[]}
# other_holders_transfer_their_resources after holder, authorization
reg {"do":"transfer","prefix":"192.0.2.0/24","giver":"alpha","taker":"zeta"} => {"denied":"holder"}
first: reg {"do":"register","holder":"beta"} => {"done":null}
first: reg {"do":"register","holder":"gamma"} => {"done":null}
first: reg {"do":"delegate","holder":"beta","prefix":"198.51.100.0/24"} => {"done":null}
first: reg {"do":"transfer","prefix":"198.51.100.0/24","giver":"beta","taker":"gamma"} => {"done":null}
second: reg {"do":"register","holder":"gamma"} => {"done":null}
second: reg {"do":"register","holder":"beta"} => {"done":null}
second: reg {"do":"delegate","holder":"gamma","prefix":"198.51.100.0/25"} => {"done":null}
ann {"do":"show","holder":"alpha","number":1} => {"shown":{"number":1,"asn":64496,"prefix":"192.0.2.0/24","max":24,"from":"2026-01-01","until":"2026-12-31"}}
ann {"do":"create","holder":"alpha","asn":64496,"prefix":"198.51.100.0/24","max":24,"from":"2026-01-01","until":"2026-12-31"} => {"denied":"held"}
first: reg {"do":"transfer","prefix":"198.51.100.128/25","giver":"gamma","taker":"beta"} => {"done":null}
second: reg {"do":"transfer","prefix":"198.51.100.128/25","giver":"gamma","taker":"beta"} => {"denied":"held"}
second: reg {"do":"transfer","prefix":"198.51.100.0/26","giver":"gamma","taker":"beta"} => {"done":null}
ann {"do":"amend","holder":"alpha","number":1,"max":26,"until":"2026-12-31"} => {"done":null}
ann {"do":"content","holder":"alpha","number":1} => {"content":"301a020300fbf03013301104020001300b3009030400c0000202011a"}
reg {"do":"reclaim","holder":"alpha","prefix":"198.51.100.0/24"} => {"denied":"held"}
reg {"do":"reclaim","holder":"alpha","prefix":"192.0.2.128/25"} => {"done":null}
first: reg {"do":"reclaim","holder":"gamma","prefix":"198.51.100.0/25"} => {"done":null}
ann {"do":"list","holder":"alpha"} => {"listed":[]}
ann {"do":"create","holder":"alpha","asn":64496,"prefix":"192.0.2.0/25","max":25,"from":"2026-01-01","until":"2026-12-31"} => {"done":2}
# callers_have_grants_at_other_holders after holder, authorization
first: reg {"do":"register","holder":"beta"} => {"done":null}
first: reg {"do":"grant","holder":"beta","name":"ann","role":"auditor","scope":"198.51.100.0/24","until":"2026-12-31"} => {"done":1}
first: reg {"do":"grant","holder":"beta","name":"cleo","role":"manager","scope":"all","until":"2026-12-31"} => {"done":2}
second: reg {"do":"register","holder":"gamma"} => {"done":null}
second: reg {"do":"grant","holder":"gamma","name":"eve","role":"manager","scope":"all","until":"2026-12-31"} => {"done":1}
ann {"do":"grant","holder":"alpha","name":"cleo","role":"auditor","scope":"192.0.2.0/24","until":"2026-12-31"} => {"done":2}
cleo {"do":"show","holder":"alpha","number":1} => {"shown":{"number":1,"asn":64496,"prefix":"192.0.2.0/24","max":24,"from":"2026-01-01","until":"2026-12-31"}}
cleo {"do":"create","holder":"alpha","asn":64497,"prefix":"192.0.2.0/24","max":24,"from":"2026-01-01","until":"2026-12-31"} => {"denied":"grant"}
cleo {"do":"grant","holder":"alpha","name":"dan","role":"clerk","scope":"all","until":"2026-12-31"} => {"denied":"steward"}
eve {"do":"list","holder":"alpha"} => {"denied":"grant"}
first: cleo {"do":"revoke","holder":"beta","number":1} => {"done":null}
second: eve {"do":"grant","holder":"gamma","name":"cleo","role":"clerk","scope":"all","until":"2026-12-31"} => {"done":2}
ann {"do":"revoke","holder":"alpha","number":2} => {"done":null}
first: reg {"do":"revoke","holder":"beta","number":2} => {"done":null}
cleo {"do":"show","holder":"alpha","number":1} => {"denied":"grant"}
ann {"do":"revoke","holder":"alpha","number":2} => {"denied":"number"}
ann {"do":"grant","holder":"alpha","name":"eve","role":"clerk","scope":"all","until":"2026-12-31"} => {"done":3}
eve {"do":"withdraw","holder":"alpha","number":1} => {"done":null}
# same_as_is_authorized_at_other_holders after holder
first: reg {"do":"register","holder":"beta"} => {"done":null}
first: reg {"do":"delegate","holder":"beta","prefix":"198.51.100.0/24"} => {"done":null}
first: reg {"do":"grant","holder":"beta","name":"bea","role":"manager","scope":"all","until":"2026-12-31"} => {"done":1}
first: bea {"do":"create","holder":"beta","asn":64496,"prefix":"198.51.100.0/24","max":24,"from":"2026-01-01","until":"2026-12-31"} => {"done":1}
first: bea {"do":"create","holder":"beta","asn":64496,"prefix":"198.51.100.0/24","max":25,"from":"2026-01-01","until":"2026-12-31"} => {"done":2}
second: reg {"do":"register","holder":"gamma"} => {"done":null}
second: reg {"do":"delegate","holder":"gamma","prefix":"198.51.100.0/25"} => {"done":null}
second: reg {"do":"grant","holder":"gamma","name":"ann","role":"clerk","scope":"all","until":"2026-12-31"} => {"done":1}
second: ann {"do":"create","holder":"gamma","asn":64496,"prefix":"198.51.100.0/25","max":32,"from":"2026-01-01","until":"2026-12-31"} => {"done":1}
ann {"do":"create","holder":"alpha","asn":64496,"prefix":"192.0.2.0/24","max":24,"from":"2026-01-01","until":"2026-12-31"} => {"done":1}
first: bea {"do":"withdraw","holder":"beta","number":1} => {"done":null}
second: ann {"do":"amend","holder":"gamma","number":1,"max":25,"until":"2026-06-30"} => {"done":null}
ann {"do":"show","holder":"alpha","number":1} => {"shown":{"number":1,"asn":64496,"prefix":"192.0.2.0/24","max":24,"from":"2026-01-01","until":"2026-12-31"}}
ann {"do":"create","holder":"alpha","asn":64496,"prefix":"192.0.2.0/24","max":25,"from":"2026-01-01","until":"2026-12-31"} => {"done":2}
ann {"do":"amend","holder":"alpha","number":2,"max":24,"until":"2026-12-31"} => {"denied":"same"}
ann {"do":"content","holder":"alpha","number":3} => {"denied":"number"}
first: bea {"do":"list","holder":"beta"} => {"listed":[{"number":2,"asn":64496,"prefix":"198.51.100.0/24","max":25,"from":"2026-01-01","until":"2026-12-31"}]}
second: ann {"do":"list","holder":"gamma"} => {"listed":[{"number":1,"asn":64496,"prefix":"198.51.100.0/25","max":25,"from":"2026-01-01","until":"2026-06-30"}]}
ann {"do":"withdraw","holder":"alpha","number":1} => {"done":null}
second: ann {"do":"withdraw","holder":"gamma","number":1} => {"done":null}
ann {"do":"amend","holder":"alpha","number":2,"max":24,"until":"2026-12-31"} => {"done":null}
ann {"do":"list","holder":"alpha"} => {"listed":[{"number":2,"asn":64496,"prefix":"192.0.2.0/24","max":24,"from":"2026-01-01","until":"2026-12-31"}]}
# others_import_and_ask_what_if after holder, authorization
first: reg {"do":"register","holder":"beta"} => {"done":null}
first: reg {"do":"delegate","holder":"beta","prefix":"198.51.100.0/24"} => {"done":null}
first: reg {"do":"grant","holder":"beta","name":"bea","role":"manager","scope":"all","until":"2026-12-31"} => {"done":1}
first: bea {"do":"import","holder":"beta","rows":[{"asn":64496,"prefix":"198.51.100.0/24","max":24,"from":"2026-01-01","until":"2026-12-31"},{"asn":64496,"prefix":"198.51.100.0/25","max":25,"from":"2026-01-01","until":"2026-12-31"}]} => {"made":2,"present":0}
second: reg {"do":"register","holder":"gamma"} => {"done":null}
second: reg {"do":"grant","holder":"gamma","name":"ann","role":"clerk","scope":"all","until":"2026-12-31"} => {"done":1}
second: ann {"do":"import","holder":"gamma","rows":[{"asn":64496,"prefix":"192.0.2.0/24","max":24,"from":"2026-01-01","until":"2026-12-31"}]} => {"denied":"held","row":1}
ann {"do":"import","holder":"alpha","rows":[{"asn":64496,"prefix":"192.0.2.0/24","max":24,"from":"2026-01-01","until":"2026-12-31"},{"asn":64496,"prefix":"192.0.2.0/25","max":25,"from":"2026-01-01","until":"2026-12-31"}]} => {"made":1,"present":1}
first: bea {"do":"import","holder":"beta","rows":[{"asn":64496,"prefix":"198.51.100.0/24","max":24,"from":"2026-01-01","until":"2026-12-31"},{"asn":64496,"prefix":"198.51.100.0/25","max":25,"from":"2026-01-01","until":"2026-12-31"}]} => {"made":0,"present":2}
second: reg {"do":"delegate","holder":"gamma","prefix":"198.51.100.0/24"} => {"done":null}
second: ann {"do":"import","holder":"gamma","rows":[{"asn":64496,"prefix":"198.51.100.0/25","max":25,"from":"2026-01-01","until":"2026-12-31"},{"asn":64496,"prefix":"198.51.100.0/25","max":25,"from":"2026-01-01","until":"2026-12-31"}]} => {"made":1,"present":1}
ann {"do":"whatif","holder":"alpha","changes":[{"do":"withdraw","number":1},{"do":"create","asn":64496,"prefix":"192.0.2.0/24","max":25,"from":"2026-01-01","until":"2026-12-31"},{"do":"withdraw","number":4}],"routes":[{"prefix":"192.0.2.0/24","origin":64496}]} => {"denied":"number","row":3}
first: bea {"do":"whatif","holder":"beta","changes":[{"do":"withdraw","number":1},{"do":"withdraw","number":2}],"routes":[{"prefix":"198.51.100.0/25","origin":64496}]} => {"report":[["Valid","NotFound"]]}
second: ann {"do":"withdraw","holder":"gamma","number":1} => {"done":null}
ann {"do":"whatif","holder":"alpha","changes":[{"do":"withdraw","number":1},{"do":"create","asn":64496,"prefix":"192.0.2.0/24","max":25,"from":"2026-01-01","until":"2026-12-31"},{"do":"withdraw","number":3}],"routes":[{"prefix":"192.0.2.0/24","origin":64496},{"prefix":"192.0.2.0/25","origin":64496}]} => {"report":[["Valid","NotFound"],["Valid","Valid"]]}
ann {"do":"import","holder":"alpha","rows":[{"asn":64496,"prefix":"198.51.100.0/24","max":24,"from":"2026-01-01","until":"2026-12-31"}]} => {"denied":"held","row":1}
ann {"do":"import","holder":"alpha","rows":[{"asn":64496,"prefix":"192.0.2.0/25","max":25,"from":"2026-01-01","until":"2026-12-31"},{"asn":64496,"prefix":"192.0.2.0/24","max":24,"from":"2026-01-01","until":"2026-12-31"},{"asn":64497,"prefix":"192.0.2.128/25","max":26,"from":"2026-01-01","until":"2026-12-31"}]} => {"made":1,"present":2}
ann {"do":"list","holder":"alpha"} => {"listed":[{"number":1,"asn":64496,"prefix":"192.0.2.0/24","max":24,"from":"2026-01-01","until":"2026-12-31"},{"number":2,"asn":64496,"prefix":"192.0.2.0/25","max":25,"from":"2026-01-01","until":"2026-12-31"},{"number":3,"asn":64497,"prefix":"192.0.2.128/25","max":26,"from":"2026-01-01","until":"2026-12-31"}]}
"#;
