//! A worked list of deliveries of each kind, in the worked building.
use std::alloc::{AllocError, Global};

/// A line of the list, its reply, and the reply to the same line when it comes once more at once.
#[derive(Clone, Copy)]
pub(crate) struct Delivered {
    pub(crate) line: &'static str,
    pub(crate) reply: &'static str,
    pub(crate) repeated: &'static str,
}

const OLD: &str = r#"{"answer":"old","writes":0}"#;

const KNOWN: &str = r#"{"added":0,"answer":"import","known":1,"writes":0}"#;

/// How many deliveries the list has.
pub(crate) const COUNT: usize = 17;

/// Commands that wait, a skip that frees them, ticks, imports, a command of another panel, one that brings two that
/// wait (of which one is refused), a repeat, a place that is relinquished, and the next day.
const DELIVERED: [Delivered; COUNT] = [
    Delivered {
        line: r#"{"number":2,"panel":"P1","point":"R101-SET","priority":8,"value":2000}"#,
        reply: r#"{"answer":"parked","next":1,"number":2}"#,
        repeated: r#"{"answer":"parked","next":1,"number":2}"#,
    },
    Delivered {
        line: r#"{"number":4,"panel":"P1","point":"LIGHT","priority":10,"value":1}"#,
        reply: r#"{"answer":"parked","next":1,"number":4}"#,
        repeated: r#"{"answer":"parked","next":1,"number":4}"#,
    },
    Delivered {
        line: r#"{"panel":"P1","skip":4}"#,
        reply: r#"{"answer":"skip","next":5}"#,
        repeated: r#"{"answer":"skip","next":5}"#,
    },
    Delivered {
        line: r#"{"number":3,"panel":"P1","point":"LIGHT","priority":8,"value":1}"#,
        reply: r#"{"answer":"skipped","number":3}"#,
        repeated: r#"{"answer":"skipped","number":3}"#,
    },
    Delivered {
        line: r#"{"panel":"P1","skip":4}"#,
        reply: r#"{"answer":"skip","next":5}"#,
        repeated: r#"{"answer":"skip","next":5}"#,
    },
    Delivered {
        line: r#"{"tick":174884399999}"#,
        reply: r#"{"answer":"tick","writes":1}"#,
        repeated: OLD,
    },
    Delivered {
        line: r#"{"tick":174884400000}"#,
        reply: r#"{"answer":"tick","writes":1}"#,
        repeated: OLD,
    },
    Delivered {
        line: r#"{"tick":174884400000}"#,
        reply: r#"{"answer":"old","writes":0}"#,
        repeated: OLD,
    },
    Delivered {
        line: r#"{"import":"calendar,entry\nHOLIDAYS,2025-06-02\n"}"#,
        reply: r#"{"added":1,"answer":"import","known":0,"writes":1}"#,
        repeated: KNOWN,
    },
    Delivered {
        line: r#"{"import":"calendar,entry\nHOLIDAYS,2025-06-02\n"}"#,
        reply: r#"{"added":0,"answer":"import","known":1,"writes":0}"#,
        repeated: KNOWN,
    },
    Delivered {
        line: r#"{"number":1,"panel":"P2","point":"R101-SET","priority":9,"value":2300}"#,
        reply: r#"{"answer":"done","number":1,"present":2000,"priority":8}"#,
        repeated: r#"{"answer":"done","number":1,"present":2000,"priority":8}"#,
    },
    Delivered {
        line: r#"{"number":7,"panel":"P1","point":"R101-SET","priority":8,"value":null}"#,
        reply: r#"{"answer":"parked","next":5,"number":7}"#,
        repeated: r#"{"answer":"parked","next":5,"number":7}"#,
    },
    Delivered {
        line: r#"{"number":6,"panel":"P1","point":"LIGHT","priority":6,"value":0}"#,
        reply: r#"{"answer":"parked","next":5,"number":6}"#,
        repeated: r#"{"answer":"parked","next":5,"number":6}"#,
    },
    Delivered {
        line: r#"{"number":5,"panel":"P1","point":"R101-SET","priority":8,"value":2100}"#,
        reply: r#"{"answer":"done","number":5,"present":2100,"priority":8}"#,
        repeated: r#"{"answer":"done","number":5,"present":2100,"priority":8}"#,
    },
    Delivered {
        line: r#"{"number":6,"panel":"P1","point":"LIGHT","priority":6,"value":0}"#,
        reply: r#"{"answer":"refused","number":6,"rule":"X4"}"#,
        repeated: r#"{"answer":"refused","number":6,"rule":"X4"}"#,
    },
    Delivered {
        line: r#"{"number":2,"panel":"P2","point":"R101-SET","priority":9,"value":null}"#,
        reply: r#"{"answer":"done","number":2,"present":1500,"priority":15}"#,
        repeated: r#"{"answer":"done","number":2,"present":1500,"priority":15}"#,
    },
    Delivered {
        line: r#"{"tick":174890160000}"#,
        reply: r#"{"answer":"tick","writes":1}"#,
        repeated: OLD,
    },
];

/// The list. It is named here alone: a table that is named in a function is evaluated in its proof.
pub(crate) fn deliveries() -> &'static [Delivered] {
    &DELIVERED
}

fn push_line(line: &str, text: &mut String) -> Result<(), AllocError> {
    text.push_str(line)?;
    text.push('\n')
}

fn push_replies(list: &[Delivered], replies: &mut String) -> Result<(), AllocError> {
    for delivered in list {
        push_line(delivered.reply, replies)?;
    }
    Ok(())
}

fn lines_of(alloc: Global, list: &[Delivered]) -> Result<String, AllocError> {
    let mut lines = String::new(alloc);
    for delivered in list {
        push_line(delivered.line, &mut lines)?;
    }
    Ok(lines)
}

// The first deliveries of the list, and those after them.
fn split(count: usize) -> (&'static [Delivered], &'static [Delivered]) {
    let list = deliveries();
    list.split_at(count.min(list.len()))
}

/// The first lines of the list.
pub(crate) fn first_lines(alloc: Global, count: usize) -> Result<String, AllocError> {
    lines_of(alloc, split(count).0)
}

/// The lines of the list without its first ones.
pub(crate) fn lines_after(alloc: Global, count: usize) -> Result<String, AllocError> {
    lines_of(alloc, split(count).1)
}

/// The replies to the first deliveries of the list.
pub(crate) fn first_replies(alloc: Global, count: usize) -> Result<String, AllocError> {
    let mut replies = String::new(alloc);
    push_replies(split(count).0, &mut replies)?;
    Ok(replies)
}

/// The replies to the deliveries after the first ones. Where the next delivery was carried out before, it is a repeat.
pub(crate) fn replies_after(
    alloc: Global,
    count: usize,
    is_repeat: bool,
) -> Result<String, AllocError> {
    let mut replies = String::new(alloc);
    if let Some((next, later)) = split(count).1.split_first() {
        push_line(
            if is_repeat { next.repeated } else { next.reply },
            &mut replies,
        )?;
        push_replies(later, &mut replies)?;
    }
    Ok(replies)
}
