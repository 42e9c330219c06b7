//! Whether a head can come of its beginning.

ghost use Rattle.std.specs.Prelude.{◌≡◌, ◌++◌, ℕ, List, [], true};
ghost use Rattle.httparse.specs.Grammar.{RequestHead};
ghost use Rattle.panel_http.specs.Endings.{IsEndOf, MayBegin};
ghost use Rattle.panel_http.specs.Heads.{HasNoHead, IsHead};

use crate::limits::{MOST_FIELDS, MOST_HEAD_BYTES};
use arrayvec::ArrayVec;
use httparse::Status;
use httparse::spans::{EMPTY_HEADER_SPAN, parse_request};

/// Whether some bytes can follow these, which don't begin with a head, so that they do. Where any can, the end of one
/// of a few texts can (`specs/Endings.antt`), so these are tried: none can where too little room is left for the least
/// end, or the target is no text.
pub fn may_begin(start: &[u8]) -> bool
    requires { HasNoHead start.now }
    ensures may { result ≡ true → MayBegin start.now }
    ensures exact { MayBegin start.now → result ≡ true }
{
    if an_end_completes(start, b":\n\n") {
        return true;
    }
    if an_end_completes(start, b"\nA / HTTP/1.0\n\n") {
        return true;
    }
    if an_end_completes(start, b"\x80\x80\x80 HTTP/1.0\n\n") {
        return true;
    }
    if completes(start, b"\xa0\x80 HTTP/1.0\n\n") {
        return true;
    }
    completes(start, b"\xa0\x80\x80 HTTP/1.0\n\n")
}

/// Whether an end of a text makes the start a head.
fn an_end_completes(start: &[u8], text: &[u8]) -> bool
    ensures may { result ≡ true → MayBegin start.now }
    ensures exact { (ending : List ℕ) (head : RequestHead) → IsEndOf text.now ending → IsHead (start.now ++ ending) head []
        → result ≡ true }
{
    for at in 0..text.len() {
        if completes(start, &text[at..]) {
            return true;
        }
    }
    completes(start, &[])
}

/// Whether an ending makes the start a head.
fn completes(start: &[u8], ending: &[u8]) -> bool
    ensures may { result ≡ true → (head : RequestHead) × (rest : List ℕ) × IsHead (start.now ++ ending.now) head rest }
    ensures exact { (head : RequestHead) → IsHead (start.now ++ ending.now) head [] → result ≡ true }
{
    let mut text: ArrayVec<u8, MOST_HEAD_BYTES> = ArrayVec::new();
    if text.try_extend_from_slice(start).is_err() || text.try_extend_from_slice(ending).is_err() {
        return false;
    }
    let mut headers = [EMPTY_HEADER_SPAN; MOST_FIELDS];
    match parse_request(&text, &mut headers) {
        Ok(Status::Complete(_)) => true,
        Ok(Status::Partial) | Err(_) => false,
    }
}
