//! What a line says.

use building_holidays::ImportFault;
use deliveries::Delivery;

/// What a line says.
#[derive(Drop)]
pub enum ParsedLine {
    Delivery(Delivery),
    /// An import whose holiday list is at fault, so that nothing is delivered.
    RefusedImport(ImportFault),
}
