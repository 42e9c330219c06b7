//! Texts, keys and values of the file as they are quoted.

use std::fmt;
use toml::Value;

/// The characters of a text that are quoted at most.
const MOST_QUOTED: usize = 60;

/// A text in double quotes, with a backslash before each `"` and `\` in it. A very long one is cut, with `..` after it.
#[derive(Clone, Copy)]
pub(crate) struct Quoted<'a>(pub &'a str);

impl fmt::Display for Quoted<'_> {
    fn fmt<W: fmt::Write>(&self, f: &mut fmt::Formatter<W>) -> fmt::Result {
        f.write_char('"')?;
        for character in self.0.chars().take(MOST_QUOTED) {
            if character == '"' || character == '\\' {
                f.write_char('\\')?;
            }
            f.write_char(character)?;
        }
        f.write_char('"')?;
        if is_long(self.0) {
            f.write_str("..")
        } else {
            Ok(())
        }
    }
}

fn is_long(text: &str) -> bool {
    text.chars().count() > MOST_QUOTED
}

/// A key as the file spells it: bare where it may be.
#[derive(Clone, Copy)]
pub(crate) struct KeyText<'a>(pub &'a str);

impl fmt::Display for KeyText<'_> {
    fn fmt<W: fmt::Write>(&self, f: &mut fmt::Formatter<W>) -> fmt::Result {
        if is_bare(self.0) && !is_long(self.0) {
            f.write_str(self.0)
        } else {
            write!(f, "{}", Quoted(self.0))
        }
    }
}

/// Whether a key may stand in a TOML file without quotes.
fn is_bare(key: &str) -> bool {
    !key.is_empty()
        && key.as_bytes().iter().all(
            |byte| matches!(*byte, b'a'..=b'z' | b'A'..=b'Z' | b'0'..=b'9' | b'-' | b'_'),
        )
}

/// A value: a text in quotes, a number, a truth value or a date as it is, and of lists and tables the type alone.
#[derive(Clone, Copy)]
pub(crate) struct ValueText<'a>(pub &'a Value);

impl fmt::Display for ValueText<'_> {
    fn fmt<W: fmt::Write>(&self, f: &mut fmt::Formatter<W>) -> fmt::Result {
        match self.0 {
            Value::String(text) => write!(f, "{}", Quoted(text.as_str())),
            Value::Integer(number) => write!(f, "{number}"),
            Value::Float(number) => write!(f, "{number:?}"),
            Value::Boolean(truth) => write!(f, "{truth}"),
            Value::Datetime(date) => write!(f, "{date}"),
            Value::Array(_) => f.write_str("(a list)"),
            Value::Table(_) => f.write_str("(a table)"),
        }
    }
}
