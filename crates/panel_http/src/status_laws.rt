//! A law of the statuses.

ghost use Rattle.panel_http.specs.StatusLaws.{EachStatusHasItsPhrase};

/// A law: each status that the desk gives is written as its number and its phrase.
pub fn each_status_has_its_phrase()
    ensures { EachStatusHasItsPhrase }
{}
