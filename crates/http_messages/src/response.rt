//! The texts of responses.
ghost use Rattle.std.specs.Prelude.{◌≡◌, ◌++◌, ◌+◌, ◌≤◌, true, codes, decimal, length, IfSome, IsSome, OnOk, OnErr};
ghost use Rattle.arrayvec.specs.ArrayString.{array_string_len};
ghost use Rattle.streams.specs.Streams.{AppendsBeginning};
ghost use Rattle.http_messages.specs.ResponseText.{allow_line, fault_text, methods_text, response_head, response_text, status_line, type_text, with_method};

use crate::method::{Method, Methods};
use crate::status::Status;
use addr::digits;
use arrayvec::{ArrayString, ArrayVec};
use streams::{Drain, Failed, write_all};

/// What a response's body is.
#[derive(Clone, Copy, Debug, PartialEq, Eq)]
pub enum ContentType {
    Json,
    Csv,
}

impl ContentType {
    /// The media type.
    pub fn name(self) -> &'static str
        ensures text { result.now ≡ type_text self }
        ensures short { length result.now ≤ 16 }
    {
        match self {
            ContentType::Json => "application/json",
            ContentType::Csv => "text/csv",
        }
    }
}

/// The most bytes of a response that is written in one piece.
const SHORT_RESPONSE: usize = 4096;

/// Writes a whole response, a short one in one piece.
pub fn write_response<D: Drain>(
    drain: &mut D,
    status: Status,
    content_type: ContentType,
    body: &[u8],
) -> Result<(), Failed>
    ensures ok { OnOk result (D.written drain.new
        ≡ D.written drain.old ++ response_text status content_type body.now) }
    ensures err { OnErr result (AppendsBeginning (D.written drain.old) (D.written drain.new)
        (response_text status content_type body.now)) }
    ensures failed { OnErr result (D.has_failed drain.new ≡ true) }
{
    let head = response_head(status, content_type, body.len() as u64);
    if let Some(text) = short_response(head.as_str().as_bytes(), body) {
        return write_all(drain, text.as_slice());
    }
    write_all(drain, head.as_str().as_bytes())?;
    write_all(drain, body)
}

/// Head and body in one piece, if both are short.
fn short_response(head: &[u8], body: &[u8]) -> Option<ArrayVec<u8, SHORT_RESPONSE>>
    ensures text { IfSome result (λ text. text.items ≡ head.now ++ body.now) }
    ensures some { length head.now + length body.now ≤ SHORT_RESPONSE → IsSome result }
{
    let mut text = ArrayVec::new();
    let Ok(()) = text.try_extend_from_slice(head) else {
        return None;
    };
    let Ok(()) = text.try_extend_from_slice(body) else {
        return None;
    };
    Some(text)
}

#[tactic(auto, unfolding(crate::specs::ResponseText::response_head))]
/// The head of a response with a body of so many bytes, its empty line included.
pub fn response_head(status: Status, content_type: ContentType, length: u64) -> ArrayString<256>
    ensures { result.bytes ≡ response_head status content_type length }
{
    let mut text = ArrayString::new();
    text.push_str("HTTP/1.1 ");
    text.push_str(status_line(status).as_str());
    text.push_str("\r\nContent-Type: ");
    text.push_str(content_type.name());
    text.push_str("\r\nContent-Length: ");
    text.push_str(digits(length).as_str());
    text.push_str("\r\n");
    text.push_str(allow_line(status).as_str());
    text.push_str("Connection: close\r\n\r\n");
    text
}

/// A status code and its reason.
fn status_line(status: Status) -> ArrayString<64>
    ensures text { result.bytes ≡ status_line status }
    ensures short { array_string_len result ≤ 40 }
{
    let mut text = ArrayString::new();
    text.push_str(digits(u64::from(status.code())).as_str());
    text.push_str(" ");
    text.push_str(status.reason());
    text
}

/// The body of a response to a fault of the protocol, with its line feed.
pub fn fault_text(status: Status) -> ArrayString<64>
    ensures { result.bytes ≡ fault_text status }
{
    let mut text = ArrayString::new();
    text.push_str("{\"error\":");
    text.push_str(digits(u64::from(status.code())).as_str());
    text.push_str("}\n");
    text
}

/// The field `Allow`, which lists a path's methods.
fn allow_line(status: Status) -> ArrayString<64>
    ensures text { result.bytes ≡ allow_line status }
    ensures short { array_string_len result ≤ 49 }
{
    let mut text = ArrayString::new();
    if let Status::MethodNotAllowed(methods) = status {
        text.push_str("Allow: ");
        text.push_str(methods_text(methods).as_str());
        text.push_str("\r\n");
    }
    text
}

/// The names of these methods, with a comma and a space between two.
fn methods_text(methods: Methods) -> ArrayString<40>
    ensures text { result.bytes ≡ methods_text methods }
    ensures short { array_string_len result ≤ 40 }
{
    let mut text = ArrayString::new();
    push_method(&mut text, methods.get, Method::Get);
    push_method(&mut text, methods.put, Method::Put);
    push_method(&mut text, methods.post, Method::Post);
    push_method(&mut text, methods.patch, Method::Patch);
    push_method(&mut text, methods.delete, Method::Delete);
    text
}

/// One name more, if the method is there.
fn push_method(text: &mut ArrayString<40>, is_there: bool, method: Method)
    requires { array_string_len text.old + 8 ≤ 40 }
    ensures text { text.new.bytes ≡ with_method is_there method text.old.bytes }
    ensures short { array_string_len text.new ≤ array_string_len text.old + 8 }
{
    if !is_there {
        return;
    }
    if !text.is_empty() {
        text.push_str(", ");
    }
    text.push_str(method.name());
}
