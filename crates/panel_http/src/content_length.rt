//! The length of a request's body.

ghost use Rattle.std.specs.Prelude.{◌≡◌, All, length, map};
ghost use Rattle.std.specs.Char.{is_ascii_digit};
ghost use Rattle.std.specs.List.{list_all};
ghost use Rattle.httparse.specs.Spans.{IsHeaderWithin, header_bytes};
ghost use Rattle.panel_http.specs.BodyLength.{body_length, is_number, number_in};

use crate::field_values::only_value;
use httparse::spans::HeaderSpan;

/// The digits that a Content-Length has at most.
const MOST_DIGITS: usize = 9;

/// The number of bytes of the body, as the fields of a head say, and 0 where they say none. `None` where a field
/// is named Transfer-Encoding, where two are named Content-Length, or where its value isn't 1 to 9 digits. The headers
/// are those of a head at the buffer's front.
pub fn body_length(buffer: &[u8], headers: &[HeaderSpan]) -> Option<u32>
    requires { All (IsHeaderWithin (length buffer.now)) headers.now }
    ensures { result ≡ body_length (map (header_bytes buffer.now) headers.now) }
{
    let Ok(None) = only_value(buffer, headers, "transfer-encoding") else {
        return None;
    };
    match only_value(buffer, headers, "content-length") {
        Ok(Some(value)) => number_in(value),
        Ok(None) => Some(0),
        Err(_) => None,
    }
}

/// The number that 1 to 9 digits write.
fn number_in(value: &[u8]) -> Option<u32>
    ensures { result ≡ number_in value.now }
{
    if is_number(value) {
        std::str::from_utf8(value).ok()?.parse::<u32>().ok()
    } else {
        None
    }
}

fn is_number(value: &[u8]) -> bool
    ensures { result ≡ is_number value.now }
{
    0 < value.len() && value.len() <= MOST_DIGITS && has_digits_alone(value)
}

fn has_digits_alone(value: &[u8]) -> bool
    ensures { result ≡ list_all is_ascii_digit value.now }
{
    value.iter().all(|byte| byte.is_ascii_digit())
}
