//! Names that changed.
ghost use Rattle.std.specs.Prelude.{◌≡◌, ◌++◌, ◌∷◌, find, IfSome, MatchOption, None, option_copied};
ghost use Rattle.std.specs.List.{list_any};
ghost use Rattle.std.specs.Str.{bytes_eq};
ghost use Rattle.desk_adopt.specs.Renamed.{former_name};
ghost use Rattle.points.specs.Name.{IsName};
ghost use Rattle.points.specs.Texts.{Text};

use points::Name;

/// A name of the building, and the one that it has in the tables.
#[derive(Clone, Copy, Debug)]
pub struct Renaming {
    pub old: Name,
    pub new: Name,
}

/// The text before the first `=`, and the text after it.
fn cut_at_equals(text: &str) -> Option<(&str, &str)>
    ensures whole { IfSome result (λ cut. text.now ≡ cut.0.now ++ 61 ∷ cut.1.now) }
    ensures parts { (old new : Text) → IsName old → text.now ≡ old ++ 61 ∷ new
        → MatchOption result ⊥ (λ cut. (cut.0.now ≡ old) × (cut.1.now ≡ new)) }
{
    text.split_once("=")
}

/// The renaming of two texts, if both are names.
fn renaming_of(old: &str, new: &str) -> Option<Renaming>
    ensures named { IfSome result (λ it. (it.old ≡ old.now) × (it.new ≡ new.now)) }
    ensures none { result ≡ None → IsName old.now → IsName new.now → ⊥ }
{
    match (Name::read(old), Name::read(new)) {
        (Ok(old), Ok(new)) => Some(Renaming { old, new }),
        _ => None,
    }
}

impl Renaming {
    /// Reads a renaming `OLD=NEW` of two names, or nothing where the text is none.
    pub fn read(text: &str) -> Option<Renaming>
        ensures read { IfSome result (λ it. text.now ≡ it.old ++ 61 ∷ it.new) }
        ensures none { result ≡ None → (old new : Text) → IsName old → IsName new → text.now ≡ old ++ 61 ∷ new → ⊥ }
    {
        match cut_at_equals(text) {
            Some((old, new)) => renaming_of(old, new),
            None => None,
        }
    }
}

fn renaming_to<'a>(renamings: &'a [Renaming], name: &Name) -> Option<&'a Renaming>
    ensures { option_copied result ≡ find (λ it. bytes_eq it.new name.now) renamings.now }
{
    renamings.iter().find(|it| it.new == *name)
}

fn is_renamed(renamings: &[Renaming], name: &Name) -> bool
    ensures { result ≡ list_any (λ it. bytes_eq it.old name.now) renamings.now }
{
    renamings.iter().any(|it| it.old == *name)
}

/// The name that one of the building's has in the tables: that of the first renaming to it, else itself, unless it
/// stands there for something that was renamed.
pub fn former_name(renamings: &[Renaming], name: &Name) -> Option<Name>
    ensures { result ≡ former_name renamings.now name.now }
{
    match renaming_to(renamings, name) {
        Some(renaming) => Some(renaming.old),
        None if is_renamed(renamings, name) => None,
        None => Some(*name),
    }
}
