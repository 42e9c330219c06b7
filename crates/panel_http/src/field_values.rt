//! The values of the fields of one name.

ghost use Rattle.std.specs.Prelude.{◌≡◌, All, length, map, option_map};
ghost use Rattle.std.specs.Result.{result_ok};
ghost use Rattle.std.specs.Str.{str_eq_ignore_ascii_case};
ghost use Rattle.httparse.specs.Spans.{IsHeaderWithin, header_bytes};
ghost use Rattle.panel_http.specs.BodyLength.{only, values_of};

use httparse::spans::HeaderSpan;

/// Two fields have the name.
#[derive(Clone, Copy)]
pub(crate) struct Repeated;

/// The value of the one field of a name, if there is one. Names are compared without regard to case.
pub(crate) fn only_value<'a>(
    buffer: &'a [u8],
    headers: &[HeaderSpan],
    name: &str,
) -> Result<Option<&'a [u8]>, Repeated>
    requires { All (IsHeaderWithin (length buffer.now)) headers.now }
    ensures { option_map (λ value. option_map (λ v. v.now) value) (result_ok result)
        ≡ only (values_of name.now (map (header_bytes buffer.now) headers.now)) }
{
    let mut only = None;
    for header in headers {
        if is_same(header.name.of(buffer), name) {
            if only.is_some() {
                return Err(Repeated);
            }
            only = Some(header.value.of(buffer));
        }
    }
    Ok(only)
}

/// Whether two names differ at most in the case of letters.
fn is_same(name: &[u8], other: &str) -> bool
    ensures { result ≡ str_eq_ignore_ascii_case name.now other.now }
{
    name.eq_ignore_ascii_case(other.as_bytes())
}
