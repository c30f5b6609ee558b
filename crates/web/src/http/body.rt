//! The bodies of responses, collected before a response is written, since its head has their length.
ghost use Rattle.std.specs.Prelude.{◌≡◌, ◌++◌, IfOk, OnOk};
ghost use Rattle.web.specs.HttpResponses.{reply_body};
ghost use Rattle.web.specs.ReplyText.{line_text};

use crate::reply::write_reply;
use csv_records::{list_lines, payload_lines};
use desk::Reply;
use http_messages::ContentType;
use std::alloc::{AllocError, Global};
use streams::{Drain, Failed};

/// Takes bytes until an allocation for them fails.
#[derive(Drop)]
struct Body {
    bytes: Vec<u8>,
    has_failed: bool,
}

impl Drain for Body {
    ghost written = { λ body. body.bytes.items };

    ghost has_failed = { λ body. body.has_failed };

    fn write(&mut self, bytes: &[u8]) -> Result<usize, Failed> {
        if self.has_failed {
            return Err(Failed);
        }
        let Ok(()) = self.bytes.extend_from_slice(bytes) else {
            self.has_failed = true;
            return Err(Failed);
        };
        Ok(bytes.len())
    }
}

/// The body of a reply that is sent as this type.
pub(super) fn reply_body(
    alloc: Global,
    content_type: ContentType,
    reply: &Reply,
) -> Result<Vec<u8>, AllocError>
    ensures { IfOk result (λ body. body.items ≡ reply_body content_type reply.now) }
{
    match content_type {
        ContentType::Csv => csv_body(alloc, reply),
        ContentType::Json => json_body(alloc, reply),
    }
}

/// A list as CSV; another reply has no rows, and is as in JSON.
fn csv_body(alloc: Global, reply: &Reply) -> Result<Vec<u8>, AllocError>
    ensures { IfOk result (λ body. body.items ≡ reply_body ContentType.Csv reply.now) }
{
    match reply {
        Reply::Listed(auths) => list_lines(alloc, auths.as_slice()),
        Reply::Payloads(vrps) => payload_lines(alloc, vrps.as_slice()),
        _ => json_body(alloc, reply),
    }
}

/// The text of a reply as a line has it.
fn json_body(alloc: Global, reply: &Reply) -> Result<Vec<u8>, AllocError>
    ensures { IfOk result (λ body. body.items ≡ line_text reply.now) }
{
    let mut body = Body {
        bytes: Vec::new(alloc),
        has_failed: false,
    };
    match write_reply(reply, &mut body) {
        Ok(()) => Ok(body.bytes),
        Err(Failed) => Err(AllocError),
    }
}
