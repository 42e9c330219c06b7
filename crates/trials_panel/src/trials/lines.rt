//! The lines of a journal, and the replies of the desk as `docs/PANELS.md` has them.
use crate::trials::panels::content;
use deliveries::Reply;
use panel::{Entry, content_of, entry_of, line_of, reply_of};
use points::{Answer, Name, Rule};
use std::alloc::Global;
use std::process::Abort;
use std::test::Fail;

fn answered(number: i64, answer: Answer) -> Reply {
    Reply::Answered { number, answer }
}

fn assert_reply(rt: &impl Abort, alloc: Global, text: &str, reply: Reply) -> Result<(), Fail> {
    assert_eq!(rt; reply_of(alloc, text.as_bytes())?, Some(reply), "{text}");
    Ok(())
}

#[test]
fn last_replies_are_read(rt: HostRuntime) -> Result<(), Fail> {
    let done = Answer::Done {
        present: 2150,
        priority: 8,
    };
    let refused = Answer::Refused(Rule::ReservedPriority);
    for (text, reply) in [
        (
            r#"{"answer":"done","number":1,"present":2150,"priority":8}"#,
            answered(1, done),
        ),
        (
            r#"{"answer":"refused","number":3,"rule":"X4"}"#,
            answered(3, refused),
        ),
        (
            r#"{"answer":"skipped","number":3}"#,
            Reply::Skipped { number: 3 },
        ),
        (
            r#"{"answer":"differs","number":3}"#,
            Reply::Differs { number: 3 },
        ),
        (
            r#"{"answer":"forgotten","number":1}"#,
            Reply::Forgotten { number: 1 },
        ),
    ] {
        assert_reply(&rt, rt.alloc(), text, reply)?;
    }
    Ok(())
}

#[test]
fn other_replies_are_read(rt: HostRuntime) -> Result<(), Fail> {
    for (text, reply) in [
        (
            r#"{"answer":"parked","next":1,"number":3}"#,
            Reply::Parked { next: 1, number: 3 },
        ),
        (r#"{"answer":"skip","next":5}"#, Reply::SkipDone { next: 5 }),
        (
            r#"{"answer":"too_far","next":2,"number":66}"#,
            Reply::TooFar {
                next: 2,
                number: 66,
            },
        ),
        (r#"{"answer":"bad_number"}"#, Reply::BadNumber),
        (r#"{"answer":"no_panel"}"#, Reply::NoPanel),
    ] {
        assert_reply(&rt, rt.alloc(), text, reply)?;
    }
    Ok(())
}

#[test]
fn what_is_no_answer_to_a_panel_is_no_reply(rt: HostRuntime) -> Result<(), Fail> {
    for text in [
        "<html>502</html>",
        "",
        r#"{"answer":"done","number":1,"present":2150"#,
        r#"{"answer":"bad_request","fault":"H1"}"#,
        r#"{"answer":"done","number":1,"present":2150,"priority":256}"#,
    ] {
        assert_eq!(rt; reply_of(rt.alloc(), text.as_bytes())?, None, "{text}");
    }
    Ok(())
}

fn assert_line(rt: &impl Abort, alloc: Global, entry: Entry, text: &str) -> Result<(), Fail> {
    let line = line_of(alloc, &entry)?;
    assert_eq!(rt; line.as_str(), text);
    assert!(rt; entry_of(alloc, text.trim_end().as_bytes())?.is_some());
    Ok(())
}

#[test]
fn entries_are_lines(rt: HostRuntime) -> Result<(), Fail> {
    let panel = Name::read("P1")?;
    let began = Entry::Began { panel, first: 65 };
    assert_line(&rt, rt.alloc(), began, "{\"first\":65,\"panel\":\"P1\"}\n")?;
    let pressed = Entry::Pressed {
        number: 65,
        content: content(2150)?,
    };
    let text = "{\"number\":65,\"point\":\"R101-SET\",\"priority\":8,\"value\":2150}\n";
    assert_line(&rt, rt.alloc(), pressed, text)?;
    let heard = Entry::Heard {
        reply: Reply::SkipDone { next: 65 },
    };
    assert_line(
        &rt,
        rt.alloc(),
        heard,
        "{\"answer\":\"skip\",\"next\":65}\n",
    )?;
    let gave_up = Entry::GaveUp { number: 66 };
    assert_line(&rt, rt.alloc(), gave_up, "{\"give_up\":66}\n")
}

#[test]
fn a_line_of_input_is_a_command_without_a_number(rt: HostRuntime) -> Result<(), Fail> {
    let text = r#"{"point":"R101-SET","priority":8,"value":2150}"#;
    assert_eq!(rt;
        content_of(rt.alloc(), text.as_bytes())?,
        Some(content(2150)?)
    );
    let lowest = content_of(
        rt.alloc(),
        br#"{"point":"R101-SET","value":null}"#.as_slice(),
    )?;
    assert_eq!(rt;
        lowest.map(|place| (place.priority, place.value)),
        Some((16, None))
    );
    Ok(())
}
