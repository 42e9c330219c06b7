//! A law of the journal's form.
ghost use Rattle.panel.specs.EntryData.{EntriesReadBack};

/// Each entry is read back from the object that is written of it.
pub fn entries_read_back()
    ensures { EntriesReadBack }
{}
