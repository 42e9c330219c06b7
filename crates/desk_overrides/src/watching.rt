//! The overrides of all points of a building.
ghost use Rattle.std.specs.Prelude.{◌≡◌, ◌++◌, ◌∷◌, [], IfOk, List, OnOk, map, string_bytes};
ghost use Rattle.deliveries.specs.declared.delivery.Delivery.{Delivery as a_delivery};
ghost use Rattle.deliveries.specs.Delivered.{Holds};
ghost use Rattle.desk_overrides.specs.Lines.{overrides_text};
ghost use Rattle.desk_overrides.specs.Watched.{AreWatched, Knows, given_from, lines_in};
ghost use Rattle.desk_overrides.specs.declared.overriding.Look.{Look as a_look};
ghost use Rattle.desk_overrides.specs.declared.watch.Watch.{Watch as a_watch};
ghost use Rattle.points.specs.declared.point.Point.{Point as a_point};
ghost use Rattle.points.specs.Texts.{Text};
ghost use Rattle.std.specs.List.{All, flat_map};
ghost use Rattle.desk_why.specs.AuthorsTable.{AreHeld, held_in};
ghost use Rattle.store_memory.specs.Memory.{standing_of};

use crate::lines::push_lines;
use crate::looking::given_at;
use crate::overriding::Look;
use crate::watch::Watch;
use building::Building;
use deliveries::Delivery;
use desk_why::Authors;
use std::alloc::{AllocError, Global};
use store::{Store, StoreFault};
use store_memory::MemStore;

// Each point of a building, before the first delivery.
fn watches_of(alloc: Global, building: &Building) -> Result<Vec<Watch>, AllocError>
    ensures points { IfOk result (λ watches. map (λ (watch : a_watch). watch.point) watches.items ≡ map (λ (point : a_point). point.name) building.now.points) }
    ensures known { IfOk result (λ watches. All (λ (watch : a_watch). Knows watch []) watches.items) }
{
    let mut watches = Vec::new(alloc);
    for point in building.points() {
        watches.push(Watch::new(alloc, point.name))?;
    }
    Ok(watches)
}

// One look more at each point.
fn looked_at_all(
    alloc: Global,
    watches: Vec<Watch>,
    authors: &Authors,
    last: Option<i64>,
) -> Result<Vec<Watch>, AllocError>
    ensures points { IfOk result (λ after. map (λ (watch : a_watch). watch.point) after.items
        ≡ map (λ (watch : a_watch). watch.point) watches.items) }
    ensures known { (seen : Text → List a_look) → All (λ (watch : a_watch). Knows watch (seen watch.point)) watches.items
        → IfOk result (λ after. All (λ (watch : a_watch). Knows watch (seen watch.point
        ++ record { given = given_from (held_in authors.now watch.point); last = last } ∷ [])) after.items) }
{
    let mut after = Vec::with_capacity(alloc, watches.len())?;
    for watch in watches {
        let given = given_at(authors, watch.point());
        let watch = watch.noted(Look { given, last })?;
        after.push(watch)?;
    }
    Ok(after)
}

// The lines of each point.
fn lines_of(
    alloc: Global,
    building: &Building,
    watches: Vec<Watch>,
    last: Option<i64>,
    from: Option<i64>,
) -> Result<String, AllocError>
    ensures { (seen : Text → List a_look) → All (λ (watch : a_watch). Knows watch (seen watch.point)) watches.items
        → IfOk result (λ text. string_bytes text ≡ flat_map (lines_in building.now last from seen) (map (λ (watch : a_watch). watch.point) watches.items)) }
{
    let mut text = String::new(alloc);
    for watch in watches {
        let point = *watch.point();
        let overrides = watch.overrides()?;
        push_lines(
            alloc,
            &mut text,
            building,
            last,
            from,
            &point,
            overrides.as_slice(),
        )?;
    }
    Ok(text)
}

/// Makes a delivery, and looks once more at each point.
fn watched_on(
    alloc: Global,
    building: &Building,
    store: &mut MemStore,
    authors: &mut Authors,
    watches: Vec<Watch>,
    delivery: &Delivery,
) -> Result<Vec<Watch>, StoreFault>
    ensures holds { (earlier : List a_delivery) → Holds building.now earlier (standing_of store.old)
        → OnOk result (Holds building.now (earlier ++ delivery.now ∷ []) (standing_of store.new)) }
    ensures held { (earlier deliveries : List a_delivery) → Holds building.now (earlier ++ deliveries) (standing_of store.old)
        → AreHeld building.now earlier deliveries authors.old
        → OnOk result (AreHeld building.now earlier (deliveries ++ delivery.now ∷ []) authors.new) }
    ensures watched { (earlier deliveries : List a_delivery) → Holds building.now (earlier ++ deliveries) (standing_of store.old)
        → AreHeld building.now earlier deliveries authors.old → AreWatched building.now earlier deliveries watches.items
        → IfOk result (λ after. AreWatched building.now earlier (deliveries ++ delivery.now ∷ []) after.items) }
{
    authors.follow(alloc, store, building, delivery)?;
    let last = store.last_tick()?;
    Ok(looked_at_all(alloc, watches, authors, last)?)
}

/// When panels' commands gave the points of a building their values in a list of deliveries: a line each
/// (`specs/Lines.antt`), point after point, of those that ended after `from`, a moment in hundredths of a second since
/// 1970-01-01T00:00:00Z, or stand at the end; without it of all.
///
/// The deliveries are made to the store, which has the tables where the record begins. What its places hold then is
/// nobody's override.
pub fn overrides_text(
    alloc: Global,
    building: &Building,
    store: &mut MemStore,
    deliveries: &[Delivery],
    from: Option<i64>,
) -> Result<String, StoreFault>
    ensures { (earlier : List a_delivery) → Holds building.now earlier (standing_of store.old)
        → IfOk result (λ text. string_bytes text ≡ overrides_text building.now earlier deliveries.now from) }
{
    let mut authors = Authors::before(alloc, building, store)?;
    let mut watches = watches_of(alloc, building)?;
    for delivery in deliveries {
        watches = watched_on(alloc, building, store, &mut authors, watches, delivery)?;
    }
    let last = store.last_tick()?;
    Ok(lines_of(alloc, building, watches, last, from)?)
}
