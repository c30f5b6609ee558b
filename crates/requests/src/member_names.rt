//! The names of the members of JSON requests: the table lists by them what a request may have, and
//! the readers look its members up by the same names.

pub(crate) const DAY: &str = "day";

pub(crate) const CALLER: &str = "caller";

pub(crate) const DO: &str = "do";

pub(crate) const HOLDER: &str = "holder";

pub(crate) const NUMBER: &str = "number";

pub(crate) const PREFIX: &str = "prefix";

pub(crate) const GIVER: &str = "giver";

pub(crate) const TAKER: &str = "taker";

pub(crate) const NAME: &str = "name";

pub(crate) const ROLE: &str = "role";

pub(crate) const SCOPE: &str = "scope";

pub(crate) const ASN: &str = "asn";

pub(crate) const MAX: &str = "max";

pub(crate) const ENTRIES: &str = "entries";

pub(crate) const MAXES: &str = "maxes";

pub(crate) const FROM: &str = "from";

pub(crate) const UNTIL: &str = "until";

pub(crate) const ROWS: &str = "rows";

pub(crate) const CHANGES: &str = "changes";

pub(crate) const ROUTES: &str = "routes";

pub(crate) const FILE: &str = "file";

pub(crate) const FILES: &str = "files";

pub(crate) const ORIGIN: &str = "origin";
