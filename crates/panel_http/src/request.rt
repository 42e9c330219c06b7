//! What an input asks.

use crate::refusal::Refusal;
use crate::view::View;
use building_holidays::ImportFault;
use dates::Day;
use deliveries::Delivery;
use points::Name;

/// What an input asks of the desk, or of its follower.
#[derive(Drop)]
pub enum Request {
    /// It is refused.
    Refused(Refusal),
    /// It brings this delivery.
    Delivery(Delivery),
    /// It commands or skips for a segment of the target that can't be the name of a panel.
    NoPanel,
    /// It imports a holiday list that is at fault, and so brings no delivery.
    RefusedImport(ImportFault),
    /// It asks how a point is; `None` where its segment of the target is malformed.
    Point(Option<Name>),
    /// It asks for the report of a day; `None` where its segment of the target spells none.
    Report(Option<Day>),
    /// It asks for a view, which a follower alone answers.
    View(View),
}
