//! Objects of the usual form.
use delivery_json::{CommandMembers, read_members};
use json::Scratch;
use points::Name;
use std::process::Abort;
use std::test::Fail;

fn assert_names(
    rt: &impl Abort,
    members: &CommandMembers,
    panel: &str,
    point: &str,
) -> Result<(), Fail> {
    let (panel, point) = (Name::read(panel)?, Name::read(point)?);
    assert!(rt; members.panel == Some(panel), "the panel");
    assert!(rt; members.point == Some(point), "the point");
    Ok(())
}

#[test]
fn a_command_of_the_usual_form_is_read(rt: HostRuntime) -> Result<(), Fail> {
    let text = r#"{"number":1,"panel":"P1","point":"R101-SET","priority":8,"value":2150}"#;
    let members = read_members(&mut Scratch::new(rt.alloc()), text).expect(&rt, "its members");
    assert_names(&rt, &members, "P1", "R101-SET")?;
    assert_eq!(rt; members.number, Some(1));
    assert_eq!(rt; members.priority, Some(8));
    assert_eq!(rt; members.value, Some(Some(2150)));
    Ok(())
}

#[test]
fn members_stand_in_any_order_and_may_be_null(rt: HostRuntime) -> Result<(), Fail> {
    let text =
        r#" { "value" : null , "priority" : null , "point" : "LIGHT" , "panel" : "P\u0032" , "number" : -7 } "#;
    let members = read_members(&mut Scratch::new(rt.alloc()), text).expect(&rt, "its members");
    assert_names(&rt, &members, "P2", "LIGHT")?;
    assert_eq!(rt; members.number, Some(-7));
    assert_eq!(rt; members.priority, Some(16));
    assert_eq!(rt; members.value, Some(None));
    Ok(())
}
