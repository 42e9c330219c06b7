//! No record.
ghost use Rattle.std.specs.Prelude.{[], false};

use crate::recorder::{RecordFault, Recorder};
use building::Building;
use deliveries::Delivery;
use std::alloc::Global;

/// No record is kept: each call does nothing. Nothing is said of what it holds.
#[derive(Clone, Copy)]
pub struct NoRecord;

impl Recorder for NoRecord {
    ghost standing = { λ _. record { bytes = []; before = []; is_shut = false; is_honest = ⊥; may_leave = λ _. ⊥ } };

    fn write_down(
        &mut self,
        _alloc: Global,
        _building: &Building,
        _delivery: &Delivery,
    ) -> Result<(), RecordFault> {
        Ok(())
    }

    fn take_back(&mut self) -> Result<(), RecordFault> {
        Ok(())
    }

    fn shut(&mut self) {}
}
