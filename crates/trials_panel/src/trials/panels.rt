//! What the trials press, and how they say what is due.
use deliveries::Delivery;
use panel::{PanelEnd, PressFault};
use points::{Content, Name};
use std::alloc::Global;
use std::fmt::Write;
use std::test::Fail;

/// A command to R101-SET at priority 8.
pub(crate) fn content(value: i64) -> Result<Content, Fail> {
    Ok(Content {
        point: Name::read("R101-SET")?,
        priority: 8,
        value: Some(value),
    })
}

/// P1's end, which never pressed anything.
pub(crate) fn new_end(alloc: Global) -> Result<PanelEnd, Fail> {
    Ok(PanelEnd::new(alloc, Name::read("P1")?))
}

/// P1's end after a lost journal.
pub(crate) fn resumed_end(alloc: Global, next: u64) -> Result<Result<PanelEnd, PressFault>, Fail> {
    Ok(PanelEnd::resume(alloc, Name::read("P1")?, next))
}

/// Presses a value, and says that the journal has it.
pub(crate) fn press_kept(end: &mut PanelEnd, value: i64) -> Result<u64, Fail> {
    let number = end.press(&content(value)?)?;
    end.keep(number);
    Ok(number)
}

/// What is due, in short: `#1 = 2000` for a command, `skip 5` for a skip, each with a semicolon behind it.
pub(crate) fn due(alloc: Global, end: &PanelEnd) -> Result<String, Fail> {
    let mut text = String::new(alloc);
    for delivery in &end.due(alloc)? {
        match delivery {
            Delivery::Command {
                number,
                content,
                ..
            } => {
                let value = content.value.unwrap_or(0);
                write!(text, "#{number} = {value};")?;
            }
            Delivery::Skip { upto, .. } => write!(text, "skip {upto};")?,
            _ => write!(text, "other;")?,
        }
    }
    Ok(text)
}
