//! Lines and bodies in the form in which the desk writes them.
use deliveries::Delivery;
use delivery_json::{written_body, written_delivery};
use points::Name;
use std::process::Abort;
use std::test::Fail;

#[test]
fn a_written_body_is_recognised(rt: HostRuntime) -> Result<(), Fail> {
    let body = b"{\"number\":-7,\"point\":\"R101-SET\",\"priority\":8,\"value\":2150}".as_slice();
    let command = written_body(body).expect(&rt, "its command");
    assert_eq!(rt; command.number, -7);
    assert!(rt;
        command.content.point == Name::read("R101-SET")?,
        "the point"
    );
    assert_eq!(rt; command.content.priority, 8);
    assert_eq!(rt; command.content.value, Some(2150));
    Ok(())
}

#[test]
fn a_written_command_is_recognised(rt: HostRuntime) -> Result<(), Fail> {
    let line =
        b"{\"number\":1,\"panel\":\"P1\",\"point\":\"LIGHT\",\"priority\":16,\"value\":null}".as_slice();
    let delivery = written_delivery(line);
    match &delivery {
        Some(
            Delivery::Command {
                panel,
                number,
                content,
            },
        ) => {
            assert!(rt; *panel == Name::read("P1")?, "the panel");
            assert_eq!(rt; *number, 1);
            assert_eq!(rt; content.value, None);
        }
        _ => return Err(Fail::new("no command")),
    }
    Ok(())
}

#[test]
fn a_written_skip_and_a_tick_are_recognised(rt: HostRuntime) -> Result<(), Fail> {
    match written_delivery(b"{\"panel\":\"P1\",\"skip\":12}".as_slice()) {
        Some(Delivery::Skip { upto, .. }) => assert_eq!(rt; upto, 12),
        _ => return Err(Fail::new("no skip")),
    }
    match written_delivery(b"{\"tick\":173568960000}".as_slice()) {
        Some(Delivery::Tick { at }) => assert_eq!(rt; at, 173_568_960_000),
        _ => return Err(Fail::new("no tick")),
    }
    Ok(())
}

#[test]
fn another_form_is_left_to_a_reader(rt: HostRuntime) -> Result<(), Fail> {
    for line in [
        "{\"tick\":1} ",
        "{\"tick\": 1}",
        "{\"tick\":01}",
        "{\"tick\":+1}",
        "{\"tick\":-0}",
        "{\"tick\":1e2}",
        "{\"tick\":9223372036854775808}",
        "{\"skip\":1,\"panel\":\"P1\"}",
        "{\"panel\":\"P 1\",\"skip\":1}",
        "{\"number\":1,\"panel\":\"P1\",\"point\":\"LIGHT\",\"value\":1}",
    ] {
        assert!(rt; written_delivery(line.as_bytes()).is_none(), "another form");
    }
    Ok(())
}
