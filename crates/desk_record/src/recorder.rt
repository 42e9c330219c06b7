//! What is asked of a keeper of deliveries.
ghost use Rattle.std.specs.Result.{result_err};
ghost use Rattle.desk_record.specs.Recording.{TakesBack, WritesDown};
ghost use Rattle.desk_record.specs.RecordStanding.{RecordStanding, Shuts};

use building::Building;
use deliveries::Delivery;
use std::alloc::Global;

/// Why a delivery is not written down, or its line not taken back.
#[derive(Clone, Copy, Debug)]
pub enum RecordFault {
    /// Memory was refused; nothing has changed.
    NoMemory,
    /// The record can't be written, or is shut; from now on it is shut.
    Failed,
}

/// Keeps a record of deliveries.
pub trait Recorder {
    ghost standing: { Self → RecordStanding };

    /// Writes a delivery down as the last line of the record; it is on the disk when this returns.
    fn write_down(
        &mut self,
        alloc: Global,
        building: &Building,
        delivery: &Delivery,
    ) -> Result<(), RecordFault>
        ensures { WritesDown building.now delivery.now (result_err result) (standing self.old) (standing self.new) };

    /// Takes the last line off again, that of a delivery which was not made.
    fn take_back(&mut self) -> Result<(), RecordFault>
        ensures { TakesBack (result_err result) (standing self.old) (standing self.new) };

    /// Writes nothing more.
    fn shut(&mut self)
        ensures { Shuts (standing self.old) (standing self.new) };
}
