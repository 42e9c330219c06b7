//! The kinds of the points that a schedule writes to.

ghost use Rattle.std.specs.Prelude.{◌≡◌, IfOk};
ghost use Rattle.points.specs.Kind.{lies_in};
ghost use Rattle.std.specs.List.{list_all};
ghost use Rattle.building.specs.Kinds.{kind_of, kinds_of, lies_in_all};

use crate::roster::Roster;
use points::{Kind, Name, Point};
use std::alloc::{AllocError, Global};

/// The kinds of the points of these names, in their order.
pub(crate) fn kinds_of(
    alloc: Global,
    points: &Roster<Point>,
    targets: &[Name],
) -> Result<Vec<Kind>, AllocError>
    ensures { IfOk result (λ kinds. kinds.items ≡ kinds_of points.now targets.now) }
{
    targets
        .iter()
        .filter_map(|target| kind_of(points, target))
        .collect(alloc)
}

fn kind_of(points: &Roster<Point>, target: &Name) -> Option<Kind>
    ensures { result ≡ kind_of points.now target.now }
{
    Some(points.find(target)?.kind)
}

/// Whether a value lies in each of the kinds. NULL does.
pub(crate) fn lies_in_all(kinds: &[Kind], value: Option<i64>) -> bool
    ensures { result ≡ lies_in_all kinds.now value }
{
    match value {
        None => true,
        Some(value) => admit(kinds, value),
    }
}

fn admit(kinds: &[Kind], value: i64) -> bool
    ensures { result ≡ list_all (λ kind. lies_in kind value) kinds.now }
{
    kinds.iter().all(|kind| kind.admits(value))
}
