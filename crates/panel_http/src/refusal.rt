//! Why a request is refused.

/// Why a request is refused, before its delivery is made or what it asks for is looked at.
#[derive(Clone, Copy)]
pub enum Refusal {
    /// H1: the input begins with no head, within 8,192 bytes and 64 fields.
    NoHead,
    /// H2: the fields say no plain length of the body.
    UnclearLength,
    /// No route has this method and target.
    NoRoute,
    /// H4: the body is longer than the route takes.
    TooLong,
    /// H5: the input ended inside the body.
    CutBody,
    /// H6: the body is not what the route takes.
    NotDelivery,
}
