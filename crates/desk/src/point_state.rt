//! What a point has now.
ghost use Rattle.std.specs.Prelude.{◌≡◌, IfOk};
ghost use Rattle.std.specs.Result.{result_err};
ghost use Rattle.desk.specs.PointState.{state_of};
ghost use Rattle.points.specs.Rights.{point_named};
ghost use Rattle.store.specs.Standing.{Reads};

use building::Building;
use points::{Name, PriorityArray};
use store::{Store, StoreFault};

/// A point's priority array, and what it presents.
#[derive(Drop)]
pub struct PointState {
    pub places: PriorityArray,
    /// The present value.
    pub present: i64,
    /// The priority of the place that gives it: 1 to 16, or 0 for the relinquish default.
    pub priority: u8,
}

/// What a point of a building has in a store; none for a name that the building lacks. The store is only read.
pub fn read_point<S: Store>(
    store: &mut S,
    building: &Building,
    name: &Name,
) -> Result<Option<PointState>, StoreFault>
    ensures reads { Reads (result_err result) (S.standing store.old) (S.standing store.new) }
    ensures state { (S.standing store.new).is_honest → IfOk result (λ state. state
        ≡ state_of ((S.standing store.old).content.tables.places name.now) (point_named building.now.points name.now)) }
{
    let Some(point) = building.find_point(name) else {
        // A store that is shut answers before all else. It isn't asked for the name: a client may choose any.
        let _last = store.last_tick()?;
        return Ok(None);
    };
    let places = store.array(name)?;
    let (present, priority) = places.present(point.relinquish_default);
    Ok(Some(PointState {
        places,
        present,
        priority,
    }))
}
