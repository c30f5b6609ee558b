//! Methods of requests.
ghost use Rattle.std.specs.Prelude.{◌≡◌, ◌≤◌, length};
ghost use Rattle.http_messages.specs.Methods.{method_name};

/// The methods that some path has.
#[derive(Clone, Copy, Debug, PartialEq, Eq)]
pub enum Method {
    Get,
    Put,
    Post,
    Patch,
    Delete,
}

/// Which of the methods a path has.
#[derive(Clone, Copy, Debug, PartialEq, Eq)]
pub struct Methods {
    pub get: bool,
    pub put: bool,
    pub post: bool,
    pub patch: bool,
    pub delete: bool,
}

impl Method {
    /// The method's name in a request and in `Allow`.
    pub fn name(self) -> &'static str
        ensures text { result.now ≡ method_name self }
        ensures short { length result.now ≤ 6 }
    {
        match self {
            Method::Get => "GET",
            Method::Put => "PUT",
            Method::Post => "POST",
            Method::Patch => "PATCH",
            Method::Delete => "DELETE",
        }
    }
}
