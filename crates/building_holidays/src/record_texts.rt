//! The fields of a record, as text.

ghost use Rattle.std.specs.Prelude.{◌≡◌, option_map};
ghost use Rattle.std.specs.List.{list_all};
ghost use Rattle.std.specs.Str.{is_utf8};
ghost use Rattle.csv.specs.Records.{fields_of};
ghost use Rattle.building_holidays.specs.RecordTexts.{two_texts};

use csv::ByteRecord;
use points::text_of;

/// Whether each field is UTF-8.
pub(crate) fn is_text(fields: &ByteRecord) -> bool
    ensures { result ≡ list_all is_utf8 (fields_of fields.now) }
{
    for field in fields.iter() {
        if text_of(field).is_none() {
            return false;
        }
    }
    true
}

/// The two fields of a record, where it has two and they are UTF-8.
#[tactic(auto, unfolding(crate::specs::RecordTexts::two_texts))]
pub(crate) fn two_texts(fields: &ByteRecord) -> Option<(&str, &str)>
    ensures { option_map (λ texts. (texts.0.now, texts.1.now)) result ≡ two_texts (fields_of fields.now) }
{
    if fields.len() != 2 {
        return None;
    }
    let first = text_of(fields.get(0)?)?;
    let second = text_of(fields.get(1)?)?;
    Some((first, second))
}
