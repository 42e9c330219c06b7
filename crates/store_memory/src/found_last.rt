//! Values by names, of which the one that was found last is looked at first.
ghost use Rattle.std.specs.Prelude.{◌≡◌, ◌<◌, Some, None, IfNone, IfSome, option_copied, option_map, slice_get};
ghost use Rattle.std.specs.Str.{bytes_eq};
ghost use Rattle.indexmap.specs.IndexMap.{get, index_map_len};

use indexmap::IndexMap;
use points::Name;

/// The value of a name, and its index. `last` is the index that was found last: what a command asks of its panel it asks
/// several times, and then one comparison finds it. It may be any number.
fn found<'a, V>(
    values: &'a IndexMap<Name, V>,
    last: &mut usize,
    name: &Name,
) -> Option<(usize, &'a V)>
    ensures entry { IfSome result (λ it. slice_get values.now.entries it.0 ≡ Some (name.now, it.1.now)) }
    ensures value { option_map (λ it. it.1.now) result ≡ get bytes_eq values.now name.now }
    ensures within { IfSome result (λ it. it.0 < index_map_len values.now) }
{
    if let Some((key, value)) = values.get_index(*last) {
        if *key == *name {
            return Some((*last, value));
        }
    }
    let (index, _, value) = values.get_full(name)?;
    *last = index;
    Some((index, value))
}

/// The value of a name.
pub(crate) fn find<'a, V>(
    values: &'a IndexMap<Name, V>,
    last: &mut usize,
    name: &Name,
) -> Option<&'a V>
    ensures { option_copied result ≡ get bytes_eq values.now name.now }
{
    let (_, value) = found(values, last, name)?;
    Some(value)
}

/// The index of a name that has a value.
pub(crate) fn index_of<V>(
    values: &IndexMap<Name, V>,
    last: &mut usize,
    name: &Name,
) -> Option<usize>
    ensures entry { IfSome result (λ index. (value : V) × (slice_get values.now.entries index ≡ Some (name.now, value))
        × (get bytes_eq values.now name.now ≡ Some value)) }
    ensures within { IfSome result (λ index. index < index_map_len values.now) }
    ensures none { IfNone result (get bytes_eq values.now name.now ≡ None) }
{
    let (index, _) = found(values, last, name)?;
    Some(index)
}
