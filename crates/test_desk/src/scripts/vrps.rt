//! The VRPs of a day, and routes that are validated by them.

pub(crate) const SCRIPTS: &str = r#"
# validity_of_equal_longer_and_shorter_route after holder, authorization
bob {"do":"validity","routes":[{"prefix":"192.0.2.0/24","origin":64496},{"prefix":"192.0.2.0/25","origin":64496},{"prefix":"192.0.0.0/16","origin":64496}]} => {"answers":["Valid","Invalid","NotFound"]}
# validity_of_origin_none after holder, authorization
bob {"do":"validity","routes":[{"prefix":"192.0.2.0/24","origin":null},{"prefix":"198.51.100.0/24","origin":null}]} => {"answers":["Invalid","NotFound"]}
"#;
