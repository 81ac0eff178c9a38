//! The statuses that replies have, and the methods that a 405 lists.

ghost use Rattle.std.specs.Prelude.{◌≡◌};
ghost use Rattle.broker_types.specs.Status.{status_code, no_methods};

/// The status of a reply (RFC 9110, section 15; 431 is of RFC 6585). No reply has another.
#[derive(Clone, Copy, Debug, PartialEq, Eq)]
pub enum Status {
    /// 200 OK.
    Success,
    /// 204 No Content.
    NoContent,
    /// 400 Bad Request.
    BadRequest,
    /// 403 Forbidden.
    Forbidden,
    /// 404 Not Found.
    NotFound,
    /// 405 Method Not Allowed.
    MethodNotAllowed,
    /// 413 Payload Too Large (Content Too Large, in RFC 9110).
    PayloadTooLarge,
    /// 431 Request Header Fields Too Large.
    HeaderFieldsTooLarge,
    /// 500 Internal Server Error.
    InternalServerError,
    /// 501 Not Implemented.
    NotImplemented,
}

impl Status {
    /// The status code.
    pub fn code(self) -> u16
        ensures { result ≡ status_code self }
    {
        match self {
            Status::Success => 200,
            Status::NoContent => 204,
            Status::BadRequest => 400,
            Status::Forbidden => 403,
            Status::NotFound => 404,
            Status::MethodNotAllowed => 405,
            Status::PayloadTooLarge => 413,
            Status::HeaderFieldsTooLarge => 431,
            Status::InternalServerError => 500,
            Status::NotImplemented => 501,
        }
    }
}

/// The methods that a path has, as `Allow` lists them (RFC 9110, section 10.2.1). POST and PUT are one,
/// `write`.
#[derive(Clone, Copy, Debug, PartialEq, Eq)]
pub struct Methods {
    /// GET.
    pub get: bool,
    /// LIST.
    pub list: bool,
    /// POST and PUT.
    pub write: bool,
    /// DELETE.
    pub delete: bool,
}

impl Methods {
    /// No method.
    pub fn none() -> Methods
        ensures { result ≡ no_methods }
    {
        Methods {
            get: false,
            list: false,
            write: false,
            delete: false,
        }
    }
}
