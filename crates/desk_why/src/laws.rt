//! What follows of authors.
ghost use Rattle.desk_why.specs.Laws.{PlaceHasItsAuthorsValue};

/// A law: a place has an author exactly where it has a value, and its author's value is the place's.
pub fn place_has_its_authors_value()
    ensures { PlaceHasItsAuthorsValue }
{}
