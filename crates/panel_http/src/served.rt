//! How a request was served.

use http::StatusCode;

/// How a request was served.
#[derive(Clone, Copy, PartialEq, Eq)]
pub enum Served {
    /// A response of this status was written whole.
    Answered(StatusCode),
    /// A read failed, or the input ended before its first byte: nothing was delivered or written.
    NoRequest,
    /// A write failed or took no byte: a beginning of the response was written, and what the request delivered stands.
    ReplyLost,
    /// Memory for the response was refused: nothing was written, and what the request delivered stands.
    NoReply,
}
