//! What an override is.
use points::Name;

/// What gives a point its value: a panel's command under this number.
#[derive(Clone, Copy)]
pub struct Given {
    pub value: i64,
    /// 1 to 16.
    pub priority: u8,
    pub panel: Name,
    pub number: u64,
}

/// What gives a point its value after a delivery, if a panel's command does, and the last tick then, if there was one.
#[derive(Clone, Copy)]
pub(crate) struct Look {
    pub(crate) given: Option<Given>,
    pub(crate) last: Option<i64>,
}

/// The last tick when an override ended; a tick that ended it counts.
#[derive(Clone, Copy)]
pub struct Ended {
    pub last: Option<i64>,
}

/// A time for which one command of a panel gave a point its value. Moments are in hundredths of a second since 1970-01-01T00:00:00Z.
#[derive(Clone, Copy)]
pub struct Override {
    pub given: Given,
    /// The last tick when it began, if there was one.
    pub began: Option<i64>,
    /// Nothing where it stands at the end.
    pub ended: Option<Ended>,
}
