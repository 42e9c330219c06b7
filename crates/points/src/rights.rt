//! What a panel may write.
ghost use Rattle.std.specs.Prelude.{◌≡◌, List, option_copied};
ghost use Rattle.std.specs.Result.{result_err};
ghost use Rattle.points.specs.Rights.{point_named, is_granted, names_no_place, is_granted_at, is_outside, rule_of};
ghost use Rattle.points.specs.declared.point.Point.{Point as a_point};

use crate::content::Content;
use crate::kind::Kind;
use crate::name::Name;
use crate::panel::Panel;
use crate::point::Point;
use crate::rule::Rule;

/// The first point of that name.
pub fn find_point<'a>(points: &'a [Point], name: &Name) -> Option<&'a Point>
    ensures { option_copied result ≡ point_named points.now name.now }
{
    points.iter().find(|point| point.name == *name)
}

fn is_granted(panel: &Panel, point: &Name) -> bool
    ensures { result ≡ is_granted panel.now point.now }
{
    panel.points.contains(point)
}

fn is_granted_at(panel: &Panel, priority: i64) -> bool
    ensures { result ≡ is_granted_at panel.now priority }
{
    panel
        .priorities
        .iter()
        .any(|granted| i64::from(*granted) == priority)
}

fn names_no_place(priority: i64) -> bool
    ensures { result ≡ names_no_place priority }
{
    priority < 1 || 16 < priority
}

fn is_outside(kind: Kind, value: Option<i64>) -> bool
    ensures { result ≡ is_outside kind value }
{
    match value {
        None => false,
        Some(value) => !kind.admits(value),
    }
}

/// Whether the panel may write the content, or the first rule against it. Takes no memory.
pub fn permit(points: &[Point], panel: &Panel, content: &Content) -> Result<(), Rule>
    ensures { result_err result ≡ rule_of points.now panel.now content.now }
{
    permit_for(find_point(points, &content.point), panel, content)
}

/// Whether the panel may write the content, or the first rule against it, where the first point of its name
/// was found or none was. Takes no memory.
#[tactic(auto, unfolding(crate::specs::Rights::rule_of, crate::specs::Rights::breaks))]
pub fn permit_for(point: Option<&Point>, panel: &Panel, content: &Content) -> Result<(), Rule>
    ensures { (points : List a_point) → option_copied point.entry ≡ point_named points content.now.point
        → result_err result ≡ rule_of points panel.now content.now }
{
    let Some(point) = point else {
        return Err(Rule::NoSuchPoint);
    };
    if !is_granted(panel, &content.point) {
        return Err(Rule::NotGranted);
    }
    if names_no_place(content.priority) {
        return Err(Rule::NoSuchPriority);
    }
    if content.priority == 6 {
        return Err(Rule::ReservedPriority);
    }
    if !is_granted_at(panel, content.priority) {
        return Err(Rule::PriorityNotGranted);
    }
    if is_outside(point.kind, content.value) {
        return Err(Rule::OutsideKind);
    }
    Ok(())
}
