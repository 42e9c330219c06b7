//! What a token says that is a value by itself.
ghost use Rattle.std.specs.Prelude.{◌≡◌, ◌<◌, ◌==◌, true, false, length, slice_index, IfSome, IsTrue, Some};
ghost use Rattle.json.specs.Reads.{token_of};
ghost use Rattle.delivery_json.specs.Readings.{integer_in, name_in, value_in};
ghost use Rattle.delivery_json.specs.Scalars.{signed_integer, parsed_by, written_integer};

use fast_float::Numeral;
use json::Token;
use points::{Name, name_of};

/// The integer that a token is, where it is one of 64 bits.
pub(crate) fn integer_of(token: &Token<'_>) -> Option<i64>
    ensures { IfSome result (λ number. parsed_by integer_in (token_of token.now) ≡ Some number) }
{
    match token {
        Token::Number(text) => written_integer(text),
        _ => None,
    }
}

/// The name that a token is.
pub(crate) fn name_of_token(token: &Token<'_>) -> Option<Name>
    ensures { IfSome result (λ name. parsed_by name_in (token_of token.now) ≡ Some name) }
{
    match token {
        Token::String(text) => name_of(text),
        _ => None,
    }
}

/// The integer that a token is, or null for NULL.
pub(crate) fn value_of(token: &Token<'_>) -> Option<Option<i64>>
    ensures { IfSome result (λ value. parsed_by value_in (token_of token.now) ≡ Some value) }
{
    match token {
        Token::Null => Some(None),
        Token::Number(text) => Some(Some(written_integer(text)?)),
        _ => None,
    }
}

/// The integer that the text of a number writes, where it is one of 64 bits.
#[tactic(auto, unfolding(serde_json::specs::Read::number_of))]
fn written_integer(text: &str) -> Option<i64>
    ensures { IfSome result (λ number. written_integer text.now ≡ Some number) }
{
    let bytes = text.as_bytes();
    if has_minus(bytes) {
        below_zero(&Numeral::scan(&bytes[1..]))
    } else {
        from_zero(&Numeral::scan(bytes))
    }
}

fn has_minus(bytes: &[u8]) -> bool
    ensures value { result ≡ (slice_index bytes.now 0 == 45) }
    ensures some { IsTrue result → 0 < length bytes.now }
{
    !bytes.is_empty() && bytes[0] == b'-'
}

fn from_zero(numeral: &Numeral<'_>) -> Option<i64>
    ensures { IfSome result (λ number. signed_integer false numeral.now ≡ Some number) }
{
    let natural = numeral.to_u64()?;
    if natural <= i64::MAX as u64 {
        Some(natural as i64)
    } else {
        None
    }
}

fn below_zero(numeral: &Numeral<'_>) -> Option<i64>
    ensures { IfSome result (λ number. signed_integer true numeral.now ≡ Some number) }
{
    let integer = numeral.to_i64(true)?;
    if integer < 0 { Some(integer) } else { None }
}
