//! Texts that stay one line.
ghost use Rattle.std.specs.Prelude.{◌≡◌, IfOk, IsTrue, OnOk, string_bytes};
ghost use Rattle.std.specs.Char.{is_control};
ghost use Rattle.building_explanations.specs.OneLine.{IsOneLine};

use std::alloc::{AllocError, Global};

/// A text in which each control character is written as an escape, so that it stays one line.
pub(crate) fn one_line(alloc: Global, text: &str) -> Result<String, AllocError>
    ensures { IfOk result (λ line. IsOneLine (string_bytes line)) }
{
    let mut line = String::new(alloc);
    for character in text.chars() {
        push_shown(&mut line, character)?;
    }
    Ok(line)
}

/// Puts a character last, or the escape of a control character.
fn push_shown(line: &mut String, character: char) -> Result<(), AllocError>
    ensures { OnOk result (IsOneLine (string_bytes line.old) → IsOneLine (string_bytes line.new)) }
{
    if character.is_control() {
        push_escape(line, character)
    } else {
        line.push(character)
    }
}

fn push_escape(line: &mut String, character: char) -> Result<(), AllocError>
    requires { IsTrue (is_control character) }
    ensures { OnOk result (IsOneLine (string_bytes line.old) → IsOneLine (string_bytes line.new)) }
{
    for piece in character.escape_default() {
        line.push(piece)?;
    }
    Ok(())
}
