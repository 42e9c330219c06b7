//! Laws of the notation: entries and the texts that spell them go one to one.
ghost use Rattle.std.specs.Prelude.{◌≡◌, ◌↔◌, Ok};
ghost use Rattle.dates.specs.declared.entry.Entry.{Entry};
ghost use Rattle.dates.specs.Entry.{IsEntry, reading, Spells, HasOneSpelling};
ghost use Rattle.points.specs.Texts.{Text};

/// A law: a text reads as an entry exactly where it spells it.
pub fn reading_is_spelling()
    ensures { (text : Text) (e : Entry) → (reading text ≡ Ok e) ↔ Spells text e }
{}

/// A law: each entry has one spelling.
pub fn each_entry_has_one_spelling()
    ensures { (e : Entry) → IsEntry e → HasOneSpelling e }
{}

/// A law: no text spells two entries.
pub fn no_text_spells_two_entries()
    ensures { (text : Text) (e f : Entry) → Spells text e → Spells text f → e ≡ f }
{}
