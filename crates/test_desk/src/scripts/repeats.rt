//! Requests that are sent twice. A script has the request with its first reply, the reply to it when
//! it is sent again, and then what is looked at after each of the two, with the same replies.

pub(crate) const TWICE: &str = r#"
# register_twice after holder, authorization
reg {"do":"register","holder":"beta"} => {"done":null}
again => {"denied":"fresh"}
ann {"do":"list","holder":"alpha"} => {"listed":[{"number":1,"asn":64496,"prefix":"192.0.2.0/24","max":24,"from":"2026-01-01","until":"2026-12-31"}]}
# delegate_twice after holder, authorization
reg {"do":"delegate","holder":"alpha","prefix":"198.51.100.0/24"} => {"done":null}
again => {"denied":"free"}
ann {"do":"list","holder":"alpha"} => {"listed":[{"number":1,"asn":64496,"prefix":"192.0.2.0/24","max":24,"from":"2026-01-01","until":"2026-12-31"}]}
# transfer_twice after holder, clerk, other holder
reg {"do":"transfer","prefix":"192.0.2.0/25","giver":"alpha","taker":"beta"} => {"done":null}
again => {"denied":"held"}
ann {"do":"list","holder":"alpha"} => {"listed":[{"number":1,"asn":64496,"prefix":"192.0.2.128/25","max":25,"from":"2026-01-01","until":"2026-12-31"}]}
bea {"do":"list","holder":"beta"} => {"listed":[]}
# reclaim_twice after holder, clerk
reg {"do":"reclaim","holder":"alpha","prefix":"192.0.2.0/25"} => {"done":null}
again => {"denied":"held"}
ann {"do":"list","holder":"alpha"} => {"listed":[{"number":1,"asn":64496,"prefix":"192.0.2.128/25","max":25,"from":"2026-01-01","until":"2026-12-31"}]}
# second_grant_is_another_one after holder, authorization
ann {"do":"grant","holder":"alpha","name":"eve","role":"clerk","scope":"all","until":"2026-12-31"} => {"done":2}
again => {"done":3}
eve {"do":"list","holder":"alpha"} => {"listed":[{"number":1,"asn":64496,"prefix":"192.0.2.0/24","max":24,"from":"2026-01-01","until":"2026-12-31"}]}
# revoke_twice after holder, clerk
ann {"do":"revoke","holder":"alpha","number":2} => {"done":null}
again => {"denied":"number"}
cleo {"do":"list","holder":"alpha"} => {"denied":"grant"}
ann {"do":"list","holder":"alpha"} => {"listed":[{"number":1,"asn":64496,"prefix":"192.0.2.128/25","max":25,"from":"2026-01-01","until":"2026-12-31"}]}
# create_twice after holder
ann {"do":"create","holder":"alpha","asn":64496,"prefix":"192.0.2.0/24","max":24,"from":"2026-01-01","until":"2026-12-31"} => {"done":1}
again => {"denied":"same"}
ann {"do":"list","holder":"alpha"} => {"listed":[{"number":1,"asn":64496,"prefix":"192.0.2.0/24","max":24,"from":"2026-01-01","until":"2026-12-31"}]}
# amend_twice after holder, authorization
ann {"do":"amend","holder":"alpha","number":1,"max":25,"until":"2026-06-30"} => {"done":null}
again => {"done":null}
ann {"do":"list","holder":"alpha"} => {"listed":[{"number":1,"asn":64496,"prefix":"192.0.2.0/24","max":25,"from":"2026-01-01","until":"2026-06-30"}]}
# withdraw_twice after holder, authorization
ann {"do":"withdraw","holder":"alpha","number":1} => {"done":null}
again => {"denied":"number"}
ann {"do":"list","holder":"alpha"} => {"listed":[]}
# show_twice after holder, authorization
ann {"do":"show","holder":"alpha","number":1} => {"shown":{"number":1,"asn":64496,"prefix":"192.0.2.0/24","max":24,"from":"2026-01-01","until":"2026-12-31"}}
again => {"shown":{"number":1,"asn":64496,"prefix":"192.0.2.0/24","max":24,"from":"2026-01-01","until":"2026-12-31"}}
ann {"do":"list","holder":"alpha"} => {"listed":[{"number":1,"asn":64496,"prefix":"192.0.2.0/24","max":24,"from":"2026-01-01","until":"2026-12-31"}]}
# content_twice after holder, authorization
ann {"do":"content","holder":"alpha","number":1} => {"content":"3017020300fbf03010300e0402000130083006030400c00002"}
again => {"content":"3017020300fbf03010300e0402000130083006030400c00002"}
ann {"do":"list","holder":"alpha"} => {"listed":[{"number":1,"asn":64496,"prefix":"192.0.2.0/24","max":24,"from":"2026-01-01","until":"2026-12-31"}]}
# list_twice after holder, clerk
cleo {"do":"list","holder":"alpha"} => {"listed":[]}
again => {"listed":[]}
ann {"do":"list","holder":"alpha"} => {"listed":[{"number":1,"asn":64496,"prefix":"192.0.2.128/25","max":25,"from":"2026-01-01","until":"2026-12-31"}]}
# import_twice after holder, authorization
ann {"do":"import","holder":"alpha","rows":[{"asn":64496,"prefix":"192.0.2.0/25","max":25,"from":"2026-01-01","until":"2026-12-31"},{"asn":64496,"prefix":"192.0.2.0/24","max":24,"from":"2026-01-01","until":"2026-12-31"},{"asn":64496,"prefix":"192.0.2.0/25","max":25,"from":"2026-01-01","until":"2026-12-31"}]} => {"made":1,"present":2}
again => {"made":0,"present":3}
ann {"do":"list","holder":"alpha"} => {"listed":[{"number":1,"asn":64496,"prefix":"192.0.2.0/24","max":24,"from":"2026-01-01","until":"2026-12-31"},{"number":2,"asn":64496,"prefix":"192.0.2.0/25","max":25,"from":"2026-01-01","until":"2026-12-31"}]}
# denied_import_twice after holder, authorization
ann {"do":"import","holder":"alpha","rows":[{"asn":64496,"prefix":"192.0.2.0/25","max":25,"from":"2026-01-01","until":"2026-12-31"},{"asn":64496,"prefix":"192.0.2.0/24","max":24,"from":"2026-01-01","until":"2026-11-30"}]} => {"denied":"same","row":2}
again => {"denied":"same","row":2}
ann {"do":"list","holder":"alpha"} => {"listed":[{"number":1,"asn":64496,"prefix":"192.0.2.0/24","max":24,"from":"2026-01-01","until":"2026-12-31"}]}
# what_if_twice after holder, authorization
ann {"do":"whatif","holder":"alpha","changes":[{"do":"withdraw","number":1},{"do":"create","asn":64496,"prefix":"192.0.2.0/25","max":25,"from":"2026-01-01","until":"2026-12-31"}],"routes":[{"prefix":"192.0.2.0/24","origin":64496},{"prefix":"192.0.2.0/25","origin":64496}]} => {"report":[["Valid","NotFound"],["Invalid","Valid"]]}
again => {"report":[["Valid","NotFound"],["Invalid","Valid"]]}
ann {"do":"list","holder":"alpha"} => {"listed":[{"number":1,"asn":64496,"prefix":"192.0.2.0/24","max":24,"from":"2026-01-01","until":"2026-12-31"}]}
# slurm_file_twice after holder, authorization
slurm {"prefix":"192.0.2.0/24"} ; {"asn":64500,"prefix":"198.51.100.0/24"} => {"done":null}
again => {"done":null}
bob {"do":"payloads"} => {"payloads":[{"asn":64500,"prefix":"198.51.100.0/24","max":24}]}
# payloads_twice after holder, authorization
bob {"do":"payloads"} => {"payloads":[{"asn":64496,"prefix":"192.0.2.0/24","max":24}]}
again => {"payloads":[{"asn":64496,"prefix":"192.0.2.0/24","max":24}]}
ann {"do":"list","holder":"alpha"} => {"listed":[{"number":1,"asn":64496,"prefix":"192.0.2.0/24","max":24,"from":"2026-01-01","until":"2026-12-31"}]}
# validity_twice after holder, authorization
bob {"do":"validity","routes":[{"prefix":"192.0.2.0/24","origin":64496}]} => {"answers":["Valid"]}
again => {"answers":["Valid"]}
ann {"do":"list","holder":"alpha"} => {"listed":[{"number":1,"asn":64496,"prefix":"192.0.2.0/24","max":24,"from":"2026-01-01","until":"2026-12-31"}]}
"#;
