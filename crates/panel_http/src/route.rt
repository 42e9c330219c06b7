//! What a request asks of the desk, or of its follower.

/// What a request asks, with the parameter of its route: one segment of the target that isn't empty, as it
/// stands. Where the target has a byte past ASCII the parameter is `None`: no name and no date has such a byte.
#[derive(Clone, Copy)]
pub enum Route<'a> {
    /// `POST /panels/{panel}/commands`: delivers a command.
    Commands {
        /// The panel's name.
        panel: Option<&'a str>,
    },
    /// `POST /panels/{panel}/skip`: delivers a skip.
    Skip {
        /// The panel's name.
        panel: Option<&'a str>,
    },
    /// `POST /tick`: delivers a tick.
    Tick,
    /// `POST /imports`: delivers an import.
    Imports,
    /// `GET /points/{point}`: answers the places of a point.
    Point {
        /// The point's name.
        point: Option<&'a str>,
    },
    /// `GET /reports/{date}`: answers the report of a day.
    Report {
        /// The day.
        date: Option<&'a str>,
    },
    /// `GET /points`: answers how each point is, at a follower.
    Points,
    /// `GET /points/{point}/why`: answers why a point has its value, at a follower.
    Why {
        /// The point's name.
        point: Option<&'a str>,
    },
    /// `GET /panels/{panel}`: answers how a panel stands, at a follower.
    Panel {
        /// The panel's name.
        panel: Option<&'a str>,
    },
    /// `GET /record`: answers how far the record is read, at a follower.
    Record,
    /// `GET /metrics`: answers what is counted, at a follower.
    Metrics,
}

/// A route that is found, and the greatest number of bytes in its body.
#[derive(Clone, Copy)]
pub(crate) struct FoundRoute<'a> {
    pub(crate) route: Route<'a>,
    /// `None` for a GET, whose body is not looked at.
    pub(crate) limit: Option<u32>,
}
