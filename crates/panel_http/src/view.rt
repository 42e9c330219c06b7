//! What a follower alone answers.

use points::Name;

/// What an input asks of a follower, beside a point and a day: a look at the record that it reads. The desk has no such
/// route.
#[derive(Clone, Copy)]
pub enum View {
    /// `GET /points`: how each point is.
    Points,
    /// `GET /points/{point}/why`: why a point has its value; `None` where its segment of the target is malformed.
    Why(Option<Name>),
    /// `GET /panels/{panel}`: how a panel stands; `None` where its segment of the target is malformed.
    Panel(Option<Name>),
    /// `GET /record`: how far the record is read.
    Record,
    /// `GET /metrics`: what is counted.
    Metrics,
}
