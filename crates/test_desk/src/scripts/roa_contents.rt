//! The ROA content of authorizations.

pub(crate) const SCRIPTS: &str = r#"
# content_of_one_ipv4_prefix after holder, authorization
ann {"do":"content","holder":"alpha","number":1} => {"content":"3017020300fbf03010300e0402000130083006030400c00002"}
# content_with_unused_bits after holder
ann {"do":"create","holder":"alpha","asn":64496,"prefix":"192.0.2.128/25","max":25,"from":"2026-01-01","until":"2026-12-31"} => {"done":1}
ann {"do":"content","holder":"alpha","number":1} => {"content":"3018020300fbf03011300f0402000130093007030507c0000280"}
# content_is_denied_as_show_is after holder, authorization
reg {"do":"grant","holder":"alpha","name":"eve","role":"auditor","scope":"all","until":"2026-12-31"} => {"done":2}
reg {"do":"grant","holder":"alpha","name":"cleo","role":"clerk","scope":"192.0.2.0/25","until":"2026-12-31"} => {"done":3}
eve {"do":"content","holder":"alpha","number":1} => {"content":"3017020300fbf03010300e0402000130083006030400c00002"}
cleo {"do":"content","holder":"alpha","number":1} => {"denied":"number"}
reg {"do":"content","holder":"alpha","number":1} => {"denied":"grant"}
ann {"do":"content","holder":"alpha","number":2} => {"denied":"number"}
"#;
