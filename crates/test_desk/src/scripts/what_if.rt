//! What changes would do to the states of routes, and what they are denied for.

pub(crate) const SCRIPTS: &str = r#"
# what_if_withdraw_then_really after holder, authorization
ann {"do":"whatif","holder":"alpha","changes":[{"do":"withdraw","number":1}],"routes":[{"prefix":"192.0.2.0/24","origin":64496}]} => {"report":[["Valid","NotFound"]]}
ann {"do":"withdraw","holder":"alpha","number":1} => {"done":null}
bob {"do":"validity","routes":[{"prefix":"192.0.2.0/24","origin":64496}]} => {"answers":["NotFound"]}
# what_if_keeps_prefix_filter after holder, authorization
slurm {"prefix":"192.0.2.0/24","asn":64497} ; => {"done":null}
ann {"do":"whatif","holder":"alpha","changes":[{"do":"create","asn":64497,"prefix":"192.0.2.0/24","max":24,"from":"2026-01-01","until":"2026-12-31"}],"routes":[{"prefix":"192.0.2.0/24","origin":64497}]} => {"report":[["Invalid","Invalid"]]}
# what_if_withdraws_its_own_create_once after holder, authorization
ann {"do":"whatif","holder":"alpha","changes":[{"do":"create","asn":64497,"prefix":"192.0.2.0/24","max":24,"from":"2026-01-01","until":"2026-12-31"},{"do":"withdraw","number":2},{"do":"withdraw","number":2}],"routes":[{"prefix":"192.0.2.0/24","origin":64496}]} => {"denied":"number","row":3}
ann {"do":"whatif","holder":"alpha","changes":[{"do":"create","asn":64497,"prefix":"192.0.2.0/24","max":24,"from":"2026-01-01","until":"2026-12-31"},{"do":"withdraw","number":2}],"routes":[{"prefix":"192.0.2.0/24","origin":64497},{"prefix":"192.0.2.0/24","origin":64496}]} => {"report":[["Invalid","Invalid"],["Valid","Valid"]]}
ann {"do":"whatif","holder":"alpha","changes":[{"do":"create","asn":64497,"prefix":"192.0.2.0/24","max":24,"from":"2026-01-01","until":"2026-12-31"},{"do":"withdraw","number":2},{"do":"create","asn":64497,"prefix":"192.0.2.0/24","max":24,"from":"2026-01-01","until":"2026-12-31"},{"do":"withdraw","number":3}],"routes":[{"prefix":"192.0.2.0/24","origin":64496}]} => {"report":[["Valid","Valid"]]}
ann {"do":"whatif","holder":"alpha","changes":[{"do":"withdraw","number":2}],"routes":[{"prefix":"192.0.2.0/24","origin":64496}]} => {"denied":"number","row":1}
# what_if_without_changes_asks_no_rule after holder, authorization
bob {"do":"whatif","holder":"zeta","changes":[],"routes":[{"prefix":"192.0.2.0/24","origin":64496},{"prefix":"192.0.2.0/25","origin":64496},{"prefix":"198.51.100.0/24","origin":null}]} => {"report":[["Valid","Valid"],["Invalid","Invalid"],["NotFound","NotFound"]]}
bob {"do":"whatif","holder":"alpha","changes":[],"routes":[{"prefix":"192.0.2.0/24","origin":64496}]} => {"report":[["Valid","Valid"]]}
ann {"do":"whatif","holder":"alpha","changes":[],"routes":[{"prefix":"192.0.2.0/24","origin":64496}]} => {"report":[["Valid","Valid"]]}
# what_if_on_a_new_desk
bob {"do":"whatif","holder":"alpha","changes":[],"routes":[{"prefix":"192.0.2.0/24","origin":64496}]} => {"report":[["NotFound","NotFound"]]}
bob {"do":"whatif","holder":"alpha","changes":[{"do":"withdraw","number":1}],"routes":[{"prefix":"192.0.2.0/24","origin":64496}]} => {"denied":"grant","row":1}
# what_if_create_of_an_active_one_is_same after holder, authorization
ann {"do":"whatif","holder":"alpha","changes":[{"do":"create","asn":64496,"prefix":"192.0.2.0/24","max":24,"from":"2026-01-01","until":"2026-12-31"}],"routes":[{"prefix":"192.0.2.0/24","origin":64496}]} => {"denied":"same","row":1}
ann {"do":"whatif","holder":"alpha","changes":[{"do":"create","asn":64496,"prefix":"192.0.2.0/25","max":25,"from":"2026-01-01","until":"2026-12-31"},{"do":"create","asn":64496,"prefix":"192.0.2.0/25","max":25,"from":"2026-01-01","until":"2026-12-31"}],"routes":[{"prefix":"192.0.2.0/24","origin":64496}]} => {"denied":"same","row":2}
ann {"do":"whatif","holder":"alpha","changes":[{"do":"withdraw","number":1},{"do":"create","asn":64496,"prefix":"192.0.2.0/24","max":24,"from":"2026-01-01","until":"2026-12-31"}],"routes":[{"prefix":"192.0.2.0/24","origin":64496}]} => {"report":[["Valid","Valid"]]}
ann {"do":"whatif","holder":"alpha","changes":[{"do":"create","asn":64496,"prefix":"192.0.2.0/24","max":33,"from":"2026-01-01","until":"2026-12-31"}],"routes":[{"prefix":"192.0.2.0/24","origin":64496}]} => {"denied":"length","row":1}
ann {"do":"whatif","holder":"alpha","changes":[{"do":"withdraw","number":1},{"do":"create","asn":64496,"prefix":"198.51.100.0/24","max":24,"from":"2026-01-01","until":"2026-12-31"}],"routes":[{"prefix":"192.0.2.0/24","origin":64496}]} => {"denied":"held","row":2}
ann {"do":"whatif","holder":"alpha","changes":[{"do":"create","asn":64496,"prefix":"192.0.2.0/25","max":25,"from":"2026-01-01","until":"2026-02-28"}],"routes":[{"prefix":"192.0.2.0/24","origin":64496}]} => {"denied":"dates","row":1}
# what_if_withdraws_one_twice after holder, authorization
ann {"do":"whatif","holder":"alpha","changes":[{"do":"withdraw","number":1},{"do":"withdraw","number":1}],"routes":[{"prefix":"192.0.2.0/24","origin":64496}]} => {"denied":"number","row":2}
ann {"do":"whatif","holder":"alpha","changes":[{"do":"withdraw","number":1},{"do":"withdraw","number":2}],"routes":[{"prefix":"192.0.2.0/24","origin":64496}]} => {"denied":"number","row":2}
ann {"do":"whatif","holder":"alpha","changes":[{"do":"withdraw","number":2},{"do":"withdraw","number":1}],"routes":[{"prefix":"192.0.2.0/24","origin":64496}]} => {"denied":"number","row":1}
# what_if_names_one_authorization_in_several_changes after holder
ann {"do":"create","holder":"alpha","asn":64496,"entries":[{"prefix":"192.0.2.0/25","max":25},{"prefix":"192.0.2.128/25","max":25}],"from":"2026-01-01","until":"2026-12-31"} => {"done":1}
ann {"do":"create","holder":"alpha","asn":64497,"prefix":"192.0.2.0/25","max":25,"from":"2026-01-01","until":"2026-12-31"} => {"done":2}
ann {"do":"whatif","holder":"alpha","changes":[{"do":"withdraw","number":1},{"do":"create","asn":64496,"prefix":"192.0.2.0/25","max":25,"from":"2026-01-01","until":"2026-12-31"},{"do":"create","asn":64496,"prefix":"192.0.2.128/25","max":25,"from":"2026-01-01","until":"2026-12-31"}],"routes":[{"prefix":"192.0.2.0/25","origin":64496},{"prefix":"192.0.2.128/25","origin":64496},{"prefix":"192.0.2.0/25","origin":64497}]} => {"report":[["Valid","Valid"],["Valid","Valid"],["Valid","Valid"]]}
ann {"do":"whatif","holder":"alpha","changes":[{"do":"withdraw","number":1},{"do":"create","asn":64496,"prefix":"192.0.2.0/25","max":25,"from":"2026-01-01","until":"2026-12-31"},{"do":"withdraw","number":3},{"do":"create","asn":64496,"entries":[{"prefix":"192.0.2.128/25","max":25},{"prefix":"192.0.2.0/25","max":25}],"from":"2026-01-01","until":"2026-12-31"}],"routes":[{"prefix":"192.0.2.0/25","origin":64496},{"prefix":"192.0.2.128/25","origin":64496}]} => {"report":[["Valid","Valid"],["Valid","Valid"]]}
ann {"do":"whatif","holder":"alpha","changes":[{"do":"withdraw","number":1},{"do":"create","asn":64496,"prefix":"192.0.2.0/25","max":25,"from":"2026-01-01","until":"2026-12-31"}],"routes":[{"prefix":"192.0.2.0/25","origin":64496},{"prefix":"192.0.2.128/25","origin":64496},{"prefix":"192.0.2.0/25","origin":64497}]} => {"report":[["Valid","Valid"],["Valid","NotFound"],["Valid","Valid"]]}
ann {"do":"whatif","holder":"alpha","changes":[{"do":"create","asn":64496,"prefix":"192.0.2.128/25","max":26,"from":"2026-01-01","until":"2026-12-31"},{"do":"create","asn":64496,"prefix":"192.0.2.0/25","max":25,"from":"2026-01-01","until":"2026-12-31"}],"routes":[{"prefix":"192.0.2.0/25","origin":64496}]} => {"denied":"same","row":2}
ann {"do":"whatif","holder":"alpha","changes":[{"do":"create","asn":64497,"prefix":"192.0.2.128/25","max":25,"from":"2026-01-01","until":"2026-12-31"},{"do":"withdraw","number":2},{"do":"create","asn":64497,"prefix":"192.0.2.0/25","max":25,"from":"2026-01-01","until":"2026-12-31"},{"do":"create","asn":64496,"prefix":"192.0.2.128/25","max":25,"from":"2026-01-01","until":"2026-12-31"}],"routes":[{"prefix":"192.0.2.0/25","origin":64496}]} => {"denied":"same","row":4}
ann {"do":"whatif","holder":"alpha","changes":[{"do":"create","asn":64496,"prefix":"192.0.2.0/25","max":26,"from":"2026-01-01","until":"2026-12-31"},{"do":"create","asn":64497,"prefix":"192.0.2.128/25","max":25,"from":"2026-01-01","until":"2026-12-31"},{"do":"create","asn":64498,"prefix":"192.0.2.0/25","max":25,"from":"2026-01-01","until":"2026-12-31"}],"routes":[{"prefix":"192.0.2.0/25","origin":64498},{"prefix":"192.0.2.128/25","origin":64497},{"prefix":"192.0.2.0/26","origin":64496}]} => {"report":[["Invalid","Valid"],["Invalid","Valid"],["Invalid","Valid"]]}
# what_if_of_routes_of_both_families after holder, authorization
reg {"do":"delegate","holder":"alpha","prefix":"2001:db8::/32"} => {"done":null}
ann {"do":"whatif","holder":"alpha","changes":[{"do":"create","asn":64497,"prefix":"2001:db8::/32","max":48,"from":"2026-01-01","until":"2026-12-31"},{"do":"withdraw","number":1}],"routes":[{"prefix":"2001:db8:1::/48","origin":64497},{"prefix":"192.0.2.0/24","origin":64496},{"prefix":"2001:db8::/49","origin":64497},{"prefix":"2001:db8::/32","origin":64496},{"prefix":"2001:db9::/32","origin":64497},{"prefix":"192.0.2.0/25","origin":null}]} => {"report":[["NotFound","Valid"],["Valid","NotFound"],["NotFound","Invalid"],["NotFound","Invalid"],["NotFound","NotFound"],["Invalid","NotFound"]]}
# what_if_with_exceptions_in_force after holder, authorization, exceptions
ann {"do":"whatif","holder":"alpha","changes":[{"do":"withdraw","number":1},{"do":"create","asn":64496,"prefix":"192.0.2.0/25","max":25,"from":"2026-01-01","until":"2026-12-31"}],"routes":[{"prefix":"192.0.2.0/24","origin":64496},{"prefix":"192.0.2.0/25","origin":64496}]} => {"report":[["Valid","Valid"],["Invalid","Invalid"]]}
slurm ; {"asn":64500,"prefix":"192.0.2.0/24"} => {"done":null}
ann {"do":"whatif","holder":"alpha","changes":[{"do":"withdraw","number":1},{"do":"create","asn":64496,"prefix":"192.0.2.0/25","max":25,"from":"2026-01-01","until":"2026-12-31"}],"routes":[{"prefix":"192.0.2.0/24","origin":64496},{"prefix":"192.0.2.0/25","origin":64496},{"prefix":"192.0.2.0/24","origin":64500}]} => {"report":[["Valid","Invalid"],["Invalid","Valid"],["Valid","Valid"]]}
bob {"do":"payloads"} => {"payloads":[{"asn":64496,"prefix":"192.0.2.0/24","max":24},{"asn":64500,"prefix":"192.0.2.0/24","max":24}]}
# what_if_leaves_the_tables after holder, authorization
ann {"do":"whatif","holder":"alpha","changes":[{"do":"create","asn":64497,"prefix":"192.0.2.0/24","max":24,"from":"2026-01-01","until":"2026-12-31"},{"do":"withdraw","number":1}],"routes":[{"prefix":"192.0.2.0/24","origin":64496},{"prefix":"192.0.2.0/24","origin":64497}]} => {"report":[["Valid","Invalid"],["Invalid","Valid"]]}
ann {"do":"list","holder":"alpha"} => {"listed":[{"number":1,"asn":64496,"prefix":"192.0.2.0/24","max":24,"from":"2026-01-01","until":"2026-12-31"}]}
bob {"do":"payloads"} => {"payloads":[{"asn":64496,"prefix":"192.0.2.0/24","max":24}]}
ann {"do":"create","holder":"alpha","asn":64497,"prefix":"192.0.2.0/24","max":24,"from":"2026-01-01","until":"2026-12-31"} => {"done":2}
# what_if_is_judged_on_its_day after holder
ann {"do":"whatif","holder":"alpha","changes":[{"do":"create","asn":64496,"prefix":"192.0.2.0/24","max":24,"from":"2026-06-01","until":"2026-12-31"}],"routes":[{"prefix":"192.0.2.0/24","origin":64496}]} => {"report":[["NotFound","NotFound"]]}
day 2026-06-01
ann {"do":"whatif","holder":"alpha","changes":[{"do":"create","asn":64496,"prefix":"192.0.2.0/24","max":24,"from":"2026-06-01","until":"2026-12-31"}],"routes":[{"prefix":"192.0.2.0/24","origin":64496}]} => {"report":[["NotFound","Valid"]]}
day 2027-01-01
ann {"do":"whatif","holder":"alpha","changes":[{"do":"create","asn":64496,"prefix":"192.0.2.0/24","max":24,"from":"2026-06-01","until":"2027-12-31"}],"routes":[{"prefix":"192.0.2.0/24","origin":64496}]} => {"denied":"grant","row":1}
# what_if_withdraws_what_is_not_in_force after holder, authorization
ann {"do":"create","holder":"alpha","asn":64497,"prefix":"192.0.2.0/24","max":25,"from":"2026-06-01","until":"2026-06-30"} => {"done":2}
ann {"do":"whatif","holder":"alpha","changes":[{"do":"withdraw","number":2}],"routes":[{"prefix":"192.0.2.0/24","origin":64496},{"prefix":"192.0.2.0/25","origin":64497}]} => {"report":[["Valid","Valid"],["Invalid","Invalid"]]}
day 2026-06-30
ann {"do":"whatif","holder":"alpha","changes":[{"do":"withdraw","number":2}],"routes":[{"prefix":"192.0.2.0/24","origin":64496},{"prefix":"192.0.2.0/25","origin":64497}]} => {"report":[["Valid","Valid"],["Valid","Invalid"]]}
# what_if_needs_the_grants_of_its_changes after holder, clerk
ann {"do":"grant","holder":"alpha","name":"olga","role":"auditor","scope":"all","until":"2026-12-31"} => {"done":3}
olga {"do":"whatif","holder":"alpha","changes":[{"do":"withdraw","number":1}],"routes":[{"prefix":"192.0.2.128/25","origin":64496}]} => {"denied":"grant","row":1}
bob {"do":"whatif","holder":"alpha","changes":[{"do":"withdraw","number":1}],"routes":[{"prefix":"192.0.2.128/25","origin":64496}]} => {"denied":"grant","row":1}
cleo {"do":"whatif","holder":"alpha","changes":[{"do":"withdraw","number":1}],"routes":[{"prefix":"192.0.2.128/25","origin":64496}]} => {"denied":"number","row":1}
cleo {"do":"whatif","holder":"alpha","changes":[{"do":"create","asn":64496,"prefix":"192.0.2.0/25","max":25,"from":"2026-01-01","until":"2026-12-31"},{"do":"create","asn":64496,"prefix":"192.0.2.0/24","max":24,"from":"2026-01-01","until":"2026-12-31"}],"routes":[{"prefix":"192.0.2.128/25","origin":64496}]} => {"denied":"scope","row":2}
cleo {"do":"whatif","holder":"alpha","changes":[{"do":"create","asn":64496,"prefix":"192.0.2.0/25","max":25,"from":"2026-01-01","until":"2026-12-31"}],"routes":[{"prefix":"192.0.2.0/25","origin":64496},{"prefix":"192.0.2.128/25","origin":64496}]} => {"report":[["NotFound","Valid"],["Valid","Valid"]]}
ann {"do":"whatif","holder":"alpha","changes":[{"do":"withdraw","number":1}],"routes":[{"prefix":"192.0.2.128/25","origin":64496}]} => {"report":[["Valid","NotFound"]]}
# what_if_leaves_other_holders_their_vrps after holder, authorization, other holder
bea {"do":"create","holder":"beta","asn":64496,"prefix":"198.51.100.0/24","max":24,"from":"2026-01-01","until":"2026-12-31"} => {"done":1}
ann {"do":"whatif","holder":"alpha","changes":[{"do":"withdraw","number":1}],"routes":[{"prefix":"192.0.2.0/24","origin":64496},{"prefix":"198.51.100.0/24","origin":64496}]} => {"report":[["Valid","NotFound"],["Valid","Valid"]]}
ann {"do":"whatif","holder":"beta","changes":[{"do":"withdraw","number":1}],"routes":[{"prefix":"192.0.2.0/24","origin":64496}]} => {"denied":"grant","row":1}
bea {"do":"whatif","holder":"beta","changes":[{"do":"withdraw","number":1},{"do":"create","asn":64496,"prefix":"198.51.100.0/24","max":24,"from":"2026-01-01","until":"2026-12-31"}],"routes":[{"prefix":"192.0.2.0/24","origin":64496}]} => {"report":[["Valid","Valid"]]}
ann {"do":"whatif","holder":"alpha","changes":[{"do":"create","asn":64496,"prefix":"198.51.100.0/24","max":24,"from":"2026-01-01","until":"2026-12-31"}],"routes":[{"prefix":"192.0.2.0/24","origin":64496}]} => {"denied":"held","row":1}
bea {"do":"whatif","holder":"beta","changes":[{"do":"create","asn":64496,"prefix":"198.51.100.0/24","max":24,"from":"2026-01-01","until":"2026-12-31"}],"routes":[{"prefix":"192.0.2.0/24","origin":64496}]} => {"denied":"same","row":1}
bea {"do":"whatif","holder":"beta","changes":[{"do":"create","asn":64496,"prefix":"192.0.2.0/24","max":24,"from":"2026-01-01","until":"2026-12-31"}],"routes":[{"prefix":"192.0.2.0/24","origin":64496}]} => {"denied":"held","row":1}
# what_if_after_an_import after holder, import
ann {"do":"whatif","holder":"alpha","changes":[{"do":"withdraw","number":1},{"do":"create","asn":64496,"prefix":"192.0.2.0/24","max":24,"from":"2026-01-01","until":"2026-12-31"},{"do":"withdraw","number":2}],"routes":[{"prefix":"192.0.2.0/25","origin":64496},{"prefix":"192.0.2.128/26","origin":64497},{"prefix":"192.0.2.0/24","origin":64496}]} => {"report":[["Valid","Invalid"],["Valid","Invalid"],["NotFound","Valid"]]}
"#;
