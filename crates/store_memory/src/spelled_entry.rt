//! An entry to be imported, with the text that spells it.
ghost use Rattle.std.specs.Prelude.{◌≡◌, IfOk, map, string_bytes};
ghost use Rattle.dates.specs.Entry.{spelling};

use std::alloc::{AllocError, Global};
use store::ImportedEntry;

/// An entry to be imported, with the text that spells it.
#[derive(Drop)]
pub struct SpelledEntry {
    pub item: ImportedEntry,
    pub text: String,
    ghost spells: { string_bytes text ≡ spelling item.entry },
}

/// Writes the text of each entry.
pub fn spell(alloc: Global, items: &[ImportedEntry]) -> Result<Vec<SpelledEntry>, AllocError>
    ensures { IfOk result (λ spelled. map (λ x. x.item) spelled.items ≡ items.now) }
{
    let mut spelled = Vec::new(alloc);
    for item in items {
        spelled.push(SpelledEntry {
            item: *item,
            text: item.entry.write(alloc)?,
        })?;
    }
    Ok(spelled)
}
