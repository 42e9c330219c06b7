//! The names of points, panels, calendars and schedules.
ghost use Rattle.std.specs.Prelude.{◌≡◌, ◌<◌, ◌≤◌, ◌↔◌, [], Some, length, nat_eq, refl, IsOk, IfOk, IsErrOf};
ghost use Rattle.std.specs.Ordering.{nat_cmp};
ghost use Rattle.std.specs.Cmp.{partial_equiv_from_equiv};
ghost use Rattle.std.specs.Cmp.Lexicographic.{pointwise, slice_cmp, nat_list_eq_equiv, nat_list_cmp_total, texts_ties, texts_po};
ghost use Rattle.std.specs.Cmp.Rules.{hashing};
ghost use Rattle.std.specs.Hash as fed;
ghost use Rattle.std.specs.List.{list_all};
ghost use Rattle.std.proofs.Common.{rules};
ghost use Rattle.points.specs.Name.{IsName, is_name_byte};
ghost use Rattle.points.specs.NameHeld.{padded};
ghost use Rattle.points.specs.declared.name.TheConstants.{LONGEST};

use std::cmp::Ordering;
use std::convert::AsStr;
use std::error::Error;
use std::fmt;
use std::hash::{Hash, Hasher};
use std::marker::Model;

/// How many bytes a name has at most.
pub const LONGEST: usize = 32;

/// The name of a point, a panel, a calendar or a schedule: 1 to 32 ASCII letters, digits, `-`, `_` and
/// `.` (this profile's choice). A contract sees it as its bytes. It takes no memory.
#[derive(Clone, Copy)]
pub struct Name {
    // The text, and zeros after it.
    bytes: [u8; LONGEST],
    size: u8,
}

impl Model for Name {
    ghost use Rattle.std.specs.Prelude.{ℕ, List, take};
    ghost use Rattle.std.proofs.Common.{sym, length};
    ghost use Rattle.points.specs.NameHeld.{IsHeld, IsHeld-size, padded};

    ghost Value = { List ℕ };

    ghost view = { λ name. take name.size name.bytes };

    ghost invariant = { λ name. IsHeld name.bytes name.size };

    ghost inverse = { λ text. record { bytes = padded text; size = length text } };

    ghost inverse_ok = { λ name held i. record {
      bytes = sym held.is_padded i;
      size = IsHeld-size name.bytes name.size held i;
    } };
}

/// Why a text is no name.
#[derive(Clone, Copy, Debug)]
pub enum NameFault {
    /// The text is empty.
    Empty,
    /// The text has more than 32 bytes.
    TooLong,
    /// The text has a byte that is no ASCII letter, no digit and none of `-`, `_` and `.`.
    OtherCharacter,
}

// Each byte that a name may have stands at its own place, and a comma at every other. A table, since a name is
// read for each line of a list, and six tests a byte were a twentieth of that.
static NAME_BYTES: [u8; 256] = *b"\
    ,,,,,,,,,,,,,,,,,,,,,,,,,,,,,,,,\
    ,,,,,,,,,,,,,-.,0123456789,,,,,,\
    ,ABCDEFGHIJKLMNOPQRSTUVWXYZ,,,,_\
    ,abcdefghijklmnopqrstuvwxyz,,,,,\
    ,,,,,,,,,,,,,,,,,,,,,,,,,,,,,,,,\
    ,,,,,,,,,,,,,,,,,,,,,,,,,,,,,,,,\
    ,,,,,,,,,,,,,,,,,,,,,,,,,,,,,,,,\
    ,,,,,,,,,,,,,,,,,,,,,,,,,,,,,,,,";

fn is_name_byte(byte: u8) -> bool
    ensures { result ≡ is_name_byte byte }
{
    NAME_BYTES[usize::from(byte)] != b','
}

// The text's bytes with zeros after them. What an array holds besides is overwritten.
fn padded(text: &str) -> [u8; LONGEST]
    requires { length text.now ≤ LONGEST }
    ensures { result ≡ padded text.now }
{
    let mut bytes = [0; LONGEST];
    bytes[..text.len()].copy_from_slice(text.as_bytes());
    bytes
}

fn has_name_bytes(text: &str) -> bool
    ensures { result ≡ list_all is_name_byte text.now }
{
    text.as_bytes().iter().all(|byte| is_name_byte(*byte))
}

impl Name {
    /// Reads a name: the text, or why it is none.
    pub fn read(text: &str) -> Result<Name, NameFault>
        ensures is_name { IsOk result ↔ IsName text.now }
        ensures named { IfOk result (λ name. name ≡ text.now) }
        ensures empty { IsErrOf result NameFault.Empty ↔ (text.now ≡ []) }
        ensures too_long { IsErrOf result NameFault.TooLong ↔ (LONGEST < length text.now) }
    {
        if text.is_empty() {
            return Err(NameFault::Empty);
        }
        if LONGEST < text.len() {
            return Err(NameFault::TooLong);
        }
        if has_name_bytes(text) {
            Ok(Name {
                bytes: padded(text),
                size: text.len() as u8,
            })
        } else {
            Err(NameFault::OtherCharacter)
        }
    }

    fn as_bytes(&self) -> &[u8]
        ensures text { result.now ≡ self.now }
        ensures is_name { IsName self.now }
    {
        &self.bytes[..usize::from(self.size)]
    }

    /// The name as text.
    #[tactic(auto, using(crate::proofs::NameLemmas::name_is_utf8))]
    pub fn as_str(&self) -> &str
        ensures text { result.now ≡ self.now }
        ensures is_name { IsName self.now }
    {
        unsafe { str::from_utf8_unchecked(self.as_bytes()) }
    }
}

impl AsStr for Name {
    ghost text = { λ name. name };

    fn as_str(&self) -> &str {
        Name::as_str(self)
    }
}

impl PartialEq for Name {
    ghost eq = { pointwise nat_eq };

    ghost laws = { partial_equiv_from_equiv nat_list_eq_equiv };

    fn eq(&self, other: &Name) -> bool {
        self.as_bytes() == other.as_bytes()
    }
}

impl Eq for Name {
    ghost laws = { nat_list_eq_equiv };
}

impl PartialOrd for Name {
    ghost partial_cmp = { λ x y. Some (slice_cmp nat_cmp x y) };

    ghost laws = { texts_po };

    fn partial_cmp(&self, other: &Name) -> Option<Ordering> {
        Some(self.cmp(other))
    }
}

/// Names are ordered by their bytes.
impl Ord for Name {
    ghost cmp = { slice_cmp nat_cmp };

    ghost total = { nat_list_cmp_total };

    ghost matches_partial_cmp = { λ x y. refl };

    ghost matches_eq = { texts_ties };

    fn cmp(&self, other: &Name) -> Ordering {
        self.as_bytes().cmp(other.as_bytes())
    }
}

impl Hash for Name {
    ghost hash_input = { fed.str };

    ghost respects_eq = { Prim.search (hashing, rules) };

    fn hash<H: Hasher>(&self, state: &mut H) {
        self.as_str().hash(state);
    }
}

impl fmt::Debug for Name {
    fn fmt<W: fmt::Write>(&self, f: &mut fmt::Formatter<W>) -> fmt::Result {
        f.write_str(self.as_str())
    }
}

impl fmt::Display for Name {
    ghost output = { λ name. Some name };

    fn fmt<W: fmt::Write>(&self, f: &mut fmt::Formatter<W>) -> fmt::Result {
        f.pad(self.as_str())
    }
}

impl fmt::Display for NameFault {
    ghost use Rattle.std.specs.Prelude.{Some};
    ghost use Rattle.points.specs.NameFaultText.{text_of};

    ghost output = { λ fault. Some (text_of fault) };

    fn fmt<W: fmt::Write>(&self, f: &mut fmt::Formatter<W>) -> fmt::Result {
        f.write_str(match self {
            NameFault::Empty => "a name has at least one character",
            NameFault::TooLong => "a name has at most 32 characters",
            NameFault::OtherCharacter => "a name has letters, digits, `-`, `_` and `.` alone",
        })
    }
}

impl Error for NameFault {}
