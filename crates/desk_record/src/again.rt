//! A delivery that is made once more.
ghost use Rattle.std.specs.Prelude.{◌≡◌, List, [], ◌∷◌, ◌++◌, OnErr, OnOk};
ghost use Rattle.std.specs.Result.{result_err};
ghost use Rattle.deliveries.specs.declared.delivery.Delivery.{Delivery as a_delivery};
ghost use Rattle.desk_record.specs.Recorded.{HasTables, IsBehind};
ghost use Rattle.store.specs.Standing.{Goes};

use deliveries::Delivery;
use desk::Desk;
use store::{Store, StoreFault};

/// Makes the last delivery of a list once more, where the store has the tables of the list, or of all but the last:
/// then it has those of the list. After a fault it is behind the list as before.
pub(crate) fn deliver_again<S: Store + Drop>(
    desk: &mut Desk<S>,
    delivery: &Delivery,
) -> Result<(), StoreFault>
    ensures goes { Goes (result_err result) (S.standing desk.old.store) (S.standing desk.new.store) }
    ensures made { (earlier : List a_delivery) → (S.standing desk.new.store).is_honest
        → IsBehind desk.old.building [] (earlier ++ delivery.now ∷ []) (S.standing desk.old.store)
        → OnOk result (HasTables desk.old.building (earlier ++ delivery.now ∷ []) (S.standing desk.new.store)) }
    ensures behind { (earlier : List a_delivery) → (S.standing desk.new.store).is_honest
        → IsBehind desk.old.building [] (earlier ++ delivery.now ∷ []) (S.standing desk.old.store)
        → OnErr result (IsBehind desk.old.building [] (earlier ++ delivery.now ∷ []) (S.standing desk.new.store)) }
    ensures building { desk.new.building ≡ desk.old.building }
{
    // so that an import that is known is known again
    desk.building().names_are_distinct();
    match desk.deliver(delivery) {
        Ok(_) => Ok(()),
        Err(fault) => Err(fault),
    }
}
