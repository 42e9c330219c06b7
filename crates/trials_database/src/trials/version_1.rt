//! A database of version 1, which other statements made, and a disk that meets trouble while it is opened.
use crate::trials::disks::{File, Image, Left, Place, run_on_disk, run_statements};
use crate::trials::faulty_disk::Trouble;
use crate::trials::scripts::{Outcome, RUN, Script, assert_holds, assert_same};
use std::alloc::{AllocError, Global};
use std::process::Abort;
use std::test::Fail;
use trials_buildings::without_schedule;

/// The six tables of version 1, and their first row.
const TABLES: &str = "
CREATE TABLE desk (id INTEGER PRIMARY KEY CHECK (id = 1), version INTEGER NOT NULL, last INTEGER) STRICT;
CREATE TABLE panel (name TEXT PRIMARY KEY NOT NULL, next INTEGER NOT NULL CHECK (next >= 1)) STRICT;
CREATE TABLE command (panel TEXT NOT NULL, number INTEGER NOT NULL, point TEXT NOT NULL, priority INTEGER NOT NULL, value INTEGER, state INTEGER NOT NULL CHECK (state >= 0 AND state <= 2), a INTEGER, b INTEGER, PRIMARY KEY (panel, number)) STRICT;
CREATE TABLE place (point TEXT NOT NULL, priority INTEGER NOT NULL CHECK (priority >= 1 AND priority <= 16), value INTEGER NOT NULL, PRIMARY KEY (point, priority)) STRICT;
CREATE TABLE shown (schedule TEXT PRIMARY KEY NOT NULL, value INTEGER) STRICT;
CREATE TABLE imported (calendar TEXT NOT NULL, entry TEXT NOT NULL, PRIMARY KEY (calendar, entry)) STRICT;
INSERT INTO desk VALUES (1, 1, NULL);
INSERT INTO place VALUES ('LIGHT', 8, 1);
";

// Begins a transaction, and makes the tables.
fn begun(alloc: Global) -> Result<String, AllocError> {
    let mut statements = String::from_str(alloc, "BEGIN;")?;
    statements.push_str(TABLES)?;
    Ok(statements)
}

/// All that the tables hold, a column after the other: the version and the next numbers by panel; of the rows of
/// commands, in their order, the numbers, those that are of P1 and of LIGHT, the priorities, values and states, and
/// what was answered; and the places. What is NULL is printed as -1.
const QUERIES: [&str; 13] = [
    "SELECT version FROM desk WHERE last IS NULL",
    "SELECT next FROM panel ORDER BY name",
    "SELECT number FROM command ORDER BY panel, number",
    "SELECT panel = 'P1' FROM command ORDER BY panel, number",
    "SELECT point = 'LIGHT' FROM command ORDER BY panel, number",
    "SELECT priority FROM command ORDER BY panel, number",
    "SELECT coalesce(value, -1) FROM command ORDER BY panel, number",
    "SELECT state FROM command ORDER BY panel, number",
    "SELECT coalesce(a, -1) FROM command ORDER BY panel, number",
    "SELECT coalesce(b, -1) FROM command ORDER BY panel, number",
    "SELECT priority FROM place WHERE point = 'LIGHT' AND value = 1",
    "SELECT COUNT(*) FROM shown",
    "SELECT COUNT(*) FROM imported",
];

/// Commands of two panels, of which two are more than 1,000 below the next number of P1.
const FEW_COMMANDS: &str = "
INSERT INTO panel VALUES ('P1', 1005), ('P2', 1002);
INSERT INTO command VALUES ('P1', 3, 'LIGHT', 8, 1, 1, 1, 8), ('P1', 4, 'LIGHT', 8, 1, 1, 1, 8),
    ('P1', 5, 'LIGHT', 8, 1, 1, 1, 8), ('P1', 1004, 'LIGHT', 8, 1, 1, 1, 8),
    ('P2', 2, 'R101-SET', 6, 2000, 2, 4, NULL);
";

fn with_few_commands(alloc: Global) -> Result<String, AllocError> {
    let mut statements = begun(alloc)?;
    statements.push_str(FEW_COMMANDS)?;
    statements.push_str("COMMIT;")?;
    Ok(statements)
}

// The files of a database that statements make.
fn made_by(alloc: Global, statements: &str) -> Result<Left, Fail> {
    let mut rows = String::new(alloc);
    run_statements(alloc, Image::empty(), statements, &[], &mut rows)
}

// What a database answers to the queries.
fn rows_in(alloc: Global, image: Image<'_>) -> Result<String, Fail> {
    let mut rows = String::new(alloc);
    let _left = run_statements(alloc, image, "", &QUERIES, &mut rows)?;
    Ok(rows)
}

fn script(lines: &str) -> Script<'_> {
    Script {
        building: without_schedule(),
        lines,
    }
}

/// More calls than the opening makes of one file.
const MOST_CALLS: u64 = 1000;

/// What the queries answer before the database of few commands is opened, and after.
const BEFORE: &str =
    "1;1005 1002;3 4 5 1004 2;1 1 1 1 0;1 1 1 1 0;8 8 8 8 6;1 1 1 1 2000;1 1 1 1 2;1 1 1 1 4;8 8 8 8 -1;8;0;0;";

const AFTER: &str = "2;1005 1002;5 1004 2;1 1 0;1 1 0;8 8 6;1 1 2000;1 1 2;1 1 4;8 8 -1;8;0;0;";

/// What they answer after the lines.
const AFTER_LINES: &str =
    "2;1006 1002;1004 1005 2;1 1 0;1 1 0;8 8 6;1 0 2000;1 1 2;1 0 4;8 8 -1;;0;0;";

const LINES: &str = r#"{"number":4,"panel":"P1","point":"LIGHT","priority":8,"value":1}
{"number":5,"panel":"P1","point":"LIGHT","priority":8,"value":1}
{"number":2,"panel":"P2","point":"R101-SET","priority":6,"value":2000}
{"number":1,"panel":"P2","point":"R101-SET","priority":9,"value":2000}
{"number":1005,"panel":"P1","point":"LIGHT","priority":8,"value":0}
{"number":5,"panel":"P1","point":"LIGHT","priority":8,"value":1}"#;

const REPLIES: &str = r#"{"answer":"forgotten","number":4}
{"answer":"done","number":5,"present":1,"priority":8}
{"answer":"refused","number":2,"rule":"X4"}
{"answer":"forgotten","number":1}
{"answer":"done","number":1005,"present":0,"priority":8}
{"answer":"forgotten","number":5}
run 1 None
"#;

// The files hold the tables of version 1 or those of version 2, and are opened as if nothing had been.
fn assert_whole(
    rt: &impl Abort,
    alloc: Global,
    image: Image<'_>,
    is_opened: bool,
    place: Place,
) -> Result<(), Fail> {
    let rows = rows_in(alloc, image)?;
    let is_old = !is_opened && rows.as_str() == BEFORE;
    let is_whole = is_old || rows.as_str() == AFTER;
    assert_holds(rt, is_whole, (place, rows.as_str()));
    let mut outcome = Outcome::new(alloc);
    let left = run_on_disk(alloc, image, Place::nowhere(), script(LINES), &mut outcome)?;
    assert_same(rt, outcome.printed.as_str(), REPLIES, place);
    let after = rows_in(alloc, left.synced())?;
    assert_same(rt, after.as_str(), AFTER_LINES, place);
    Ok(())
}

// Opens the database on a disk that meets trouble at a place. Whether it came to the place.
fn try_place(rt: &impl Abort, alloc: Global, start: Image<'_>, place: Place) -> Result<bool, Fail> {
    let mut outcome = Outcome::new(alloc);
    let left = run_on_disk(alloc, start, place, script(""), &mut outcome)?;
    let is_opened = outcome.printed.as_str() == RUN;
    let is_reported = is_opened || left.has_failed;
    assert_holds(rt, is_reported, (place, outcome.printed.as_str()));
    for image in left.images() {
        assert_whole(rt, alloc, image, is_opened, place)?;
    }
    Ok(left.has_failed)
}

// Opens the database with trouble after none, one, two and more calls of a file, as far as it comes.
fn try_places(rt: &impl Abort, alloc: Global, trouble: Trouble, file: File) -> Result<(), Fail> {
    let made = made_by(alloc, with_few_commands(alloc)?.as_str())?;
    for calls in 0..MOST_CALLS {
        let place = Place {
            trouble,
            file,
            calls,
        };
        if !try_place(rt, alloc, made.written(), place)? {
            assert_holds(rt, calls > 0, place);
            return Ok(());
        }
    }
    Err(Fail::new("the database is never opened"))
}

#[test]
fn a_stop_of_the_log_leaves_one_version(rt: HostRuntime) -> Result<(), Fail> {
    try_places(&rt, rt.alloc(), Trouble::Stop, File::Log)
}

#[test]
fn a_stop_of_the_database_file_leaves_one_version(rt: HostRuntime) -> Result<(), Fail> {
    try_places(&rt, rt.alloc(), Trouble::Stop, File::Database)
}

#[test]
fn a_fault_of_the_log_leaves_one_version(rt: HostRuntime) -> Result<(), Fail> {
    try_places(&rt, rt.alloc(), Trouble::Fault, File::Log)
}

#[test]
fn a_fault_of_the_database_file_leaves_one_version(rt: HostRuntime) -> Result<(), Fail> {
    try_places(&rt, rt.alloc(), Trouble::Fault, File::Database)
}
