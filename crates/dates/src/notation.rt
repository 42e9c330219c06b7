//! The parts of a text that the notation of entries is made of.
ghost use Rattle.std.specs.Prelude.{◌≡◌, ◌<◌, length, option_map};
ghost use Rattle.dates.specs.Notation.{cut_at, without_prefix, parts_at, digit_at, two_digits, four_digits};

/// The text before the first `mark` and the text after it, where it stands in the text.
pub fn cut_at<'a>(text: &'a str, mark: &str) -> Option<(&'a str, &'a str)>
    requires { 0 < length mark.now }
    ensures { option_map (λ cut. (cut.0.now, cut.1.now)) result ≡ cut_at mark.now text.now }
{
    text.split_once(mark)
}

/// The text after the `mark` that it begins with.
pub fn without_prefix<'a>(text: &'a str, mark: &str) -> Option<&'a str>
    ensures { option_map (λ rest. rest.now) result ≡ without_prefix mark.now text.now }
{
    text.strip_prefix(mark)
}

/// The three parts of a text that has two marks.
#[tactic(auto, unfolding(crate::specs::Notation::parts_at))]
pub fn parts_at<'a>(text: &'a str, mark: &str) -> Option<(&'a str, &'a str, &'a str)>
    requires { 0 < length mark.now }
    ensures { option_map (λ parts. (parts.0.now, parts.1.now, parts.2.now)) result
        ≡ parts_at mark.now text.now }
{
    let (first, rest) = cut_at(text, mark)?;
    let (second, third) = cut_at(rest, mark)?;
    match cut_at(third, mark) {
        Some(_) => None,
        None => Some((first, second, third)),
    }
}

#[tactic(auto, unfolding(crate::specs::Notation::digit_at))]
fn digit(byte: u8) -> Option<u8>
    ensures { result ≡ digit_at byte }
{
    match byte {
        b'0'..=b'9' => Some(byte - b'0'),
        _ => None,
    }
}

/// The number that two digits write.
#[tactic(auto, unfolding(crate::specs::Notation::two_digits, crate::specs::Notation::digit_at))]
pub fn two_digits(text: &str) -> Option<u8>
    ensures { result ≡ two_digits text.now }
{
    match text.as_bytes() {
        [tens, units] => Some(10 * digit(*tens)? + digit(*units)?),
        _ => None,
    }
}

/// The number that four digits write.
#[tactic(auto, unfolding(crate::specs::Notation::four_digits, crate::specs::Notation::digit_at))]
pub fn four_digits(text: &str) -> Option<u16>
    ensures { result ≡ four_digits text.now }
{
    match text.as_bytes() {
        [thousands, hundreds, tens, units] => Some(
            1000 * u16::from(digit(*thousands)?)
                + 100 * u16::from(digit(*hundreds)?)
                + 10 * u16::from(digit(*tens)?)
                + u16::from(digit(*units)?),
        ),
        _ => None,
    }
}
