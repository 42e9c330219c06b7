//! What holds of the tables that were taken along.
ghost use Rattle.std.specs.Prelude.{List, IsTrue};
ghost use Rattle.desk_adopt.specs.Adopted.{IsAdopted};
ghost use Rattle.desk_adopt.specs.declared.renaming.Renaming.{Renaming as a_renaming};
ghost use Rattle.building.specs.Building.{Building as a_building};
ghost use Rattle.desk.specs.Opening.{Suits, is_ticked};
ghost use Rattle.store.specs.Tables.{Tables};

/// What was taken along suits the building, so that a desk of it opens over them: unless the last tick was at a moment
/// at which the building's clock shows no time.
pub fn adopted_tables_suit()
    ensures { (building : a_building) (renamings : List a_renaming) (old new : Tables) → IsAdopted building renamings old new
        → IsTrue (is_ticked building old.last_tick) → Suits building new }
{}
