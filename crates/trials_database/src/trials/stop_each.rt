//! A disk that stops at each call of a worked list, or of which each call fails once: what stands then, and how the
//! list goes on.
use crate::trials::disks::{File, Image, Left, Place, run_on_disk};
use crate::trials::faulty_disk::Trouble;
use crate::trials::scripts::{
    Outcome, RUN, RUN_SHUT, Script, assert_holds, assert_same, run_in_memory,
};
use crate::trials::worked_script::{
    COUNT, deliveries, first_lines, first_replies, lines_after, replies_after,
};
use std::alloc::Global;
use std::process::Abort;
use std::test::Fail;
use trials_buildings::worked_building;

/// More calls than the list makes of one file.
const MOST_CALLS: u64 = 5000;

// What the store in memory holds after so many deliveries of the list.
fn content_after(alloc: Global, building: &str, count: usize) -> Result<String, Fail> {
    let mut outcome = Outcome::new(alloc);
    let lines = first_lines(alloc, count)?;
    let script = Script {
        building,
        lines: lines.as_str(),
    };
    run_in_memory(alloc, script, &mut outcome)?;
    Ok(outcome.after)
}

/// The worked building, and what its tables hold before each delivery of the list and after the last one.
#[derive(Drop)]
struct Wanted {
    building: String,
    contents: Vec<String>,
}

impl Wanted {
    /// The contents of the store in memory.
    fn new(alloc: Global) -> Result<Wanted, Fail> {
        let building = worked_building(alloc)?;
        let mut contents = Vec::new(alloc);
        for count in 0..=COUNT {
            contents.push(content_after(alloc, building.as_str(), count)?)?;
        }
        Ok(Wanted { building, contents })
    }

    fn script<'a>(&'a self, lines: &'a str) -> Script<'a> {
        Script {
            building: self.building.as_str(),
            lines,
        }
    }

    /// Whether a content is that after so many deliveries.
    fn is_after(&self, count: usize, content: &str) -> bool {
        match self.contents.get(count) {
            Some(wanted) => wanted.as_str() == content,
            None => false,
        }
    }
}

// How many deliveries of the list are answered as wanted before the first other answer.
fn answered_in(printed: &str) -> usize {
    let mut count = 0usize;
    for (line, delivered) in printed.lines().zip(deliveries().iter()) {
        if line != delivered.reply {
            return count;
        }
        count = count.saturating_add(1);
    }
    count
}

// What is printed of the list, and then of a run of one delivery, where the store is shut after so many answers.
fn stopped_text(alloc: Global, answered: usize) -> Result<String, Fail> {
    let mut text = first_replies(alloc, answered)?;
    for place in answered..COUNT {
        text.push_str(if place == answered { "S2\n" } else { "S3\n" })?;
    }
    text.push_str(if answered == COUNT { RUN } else { RUN_SHUT })?;
    Ok(text)
}

// The delivery at which a disk meets trouble is answered S2, and each one after it S3, also in a run, which has no
// reply.
fn assert_reported(
    rt: &impl Abort,
    alloc: Global,
    place: Place,
    answered: usize,
    printed: &str,
) -> Result<(), Fail> {
    if answered == 0 && (printed == "no database\n" || printed == "S2\n") {
        return Ok(());
    }
    let wanted = stopped_text(alloc, answered)?;
    assert_same(rt, printed, wanted.as_str(), place);
    Ok(())
}

// The files hold the tables with what was answered, or with one delivery more; and the list goes on over them.
fn assert_goes_on(
    rt: &impl Abort,
    alloc: Global,
    wanted: &Wanted,
    image: Image<'_>,
    answered: usize,
    place: Place,
) -> Result<(), Fail> {
    let mut outcome = Outcome::new(alloc);
    let lines = lines_after(alloc, answered)?;
    let script = wanted.script(lines.as_str());
    let _left = run_on_disk(alloc, image, Place::nowhere(), script, &mut outcome)?;
    let is_repeat = !wanted.is_after(answered, outcome.before.as_str());
    if is_repeat {
        let is_made = wanted.is_after(answered.saturating_add(1), outcome.before.as_str());
        assert_holds(rt, is_made, (place, outcome.before.as_str()));
    }
    let mut replies = replies_after(alloc, answered, is_repeat)?;
    replies.push_str(RUN)?;
    assert_same(rt, outcome.printed.as_str(), replies.as_str(), place);
    let is_whole = wanted.is_after(COUNT, outcome.after.as_str());
    assert_holds(rt, is_whole, (place, outcome.after.as_str()));
    Ok(())
}

// Runs the list on a disk that meets trouble at a place. How many deliveries were answered; none if the run did not
// come to the place.
fn try_place(
    rt: &impl Abort,
    alloc: Global,
    wanted: &Wanted,
    start: Image<'_>,
    place: Place,
) -> Result<Option<usize>, Fail> {
    let mut outcome = Outcome::new(alloc);
    let lines = lines_after(alloc, 0)?;
    let script = wanted.script(lines.as_str());
    let left = run_on_disk(alloc, start, place, script, &mut outcome)?;
    let answered = answered_in(outcome.printed.as_str());
    assert_reported(rt, alloc, place, answered, outcome.printed.as_str())?;
    assert_holds(rt, answered == COUNT || left.has_failed, place);
    for image in left.images() {
        assert_goes_on(rt, alloc, wanted, image, answered, place)?;
    }
    Ok(left.has_failed.then_some(answered))
}

// Runs the list over files that hold nothing yet, with trouble after none, one, two and more calls of a file, as far as
// it comes. At how many deliveries it was.
fn try_places(rt: &impl Abort, alloc: Global, trouble: Trouble, file: File) -> Result<usize, Fail> {
    let wanted = Wanted::new(alloc)?;
    let (mut last, mut met) = (COUNT, 0usize);
    for calls in 0..MOST_CALLS {
        let place = Place {
            trouble,
            file,
            calls,
        };
        let Some(answered) = try_place(rt, alloc, &wanted, Image::empty(), place)? else {
            return Ok(met);
        };
        if answered != last {
            met = met.saturating_add(1);
            last = answered;
        }
    }
    Err(Fail::new("the list does not come to its end"))
}

/// How many deliveries of the list change the tables: each of them writes to the log.
const CHANGES: usize = 12;

#[test]
fn a_stop_of_the_log_leaves_whole_deliveries(rt: HostRuntime) -> Result<(), Fail> {
    let met = try_places(&rt, rt.alloc(), Trouble::Stop, File::Log)?;
    assert_holds(&rt, met >= CHANGES, met);
    Ok(())
}

#[test]
fn a_stop_of_the_database_file_leaves_whole_deliveries(rt: HostRuntime) -> Result<(), Fail> {
    let met = try_places(&rt, rt.alloc(), Trouble::Stop, File::Database)?;
    assert_holds(&rt, met > 1, met);
    Ok(())
}

#[test]
fn a_fault_of_the_log_leaves_whole_deliveries(rt: HostRuntime) -> Result<(), Fail> {
    let met = try_places(&rt, rt.alloc(), Trouble::Fault, File::Log)?;
    assert_holds(&rt, met >= CHANGES, met);
    Ok(())
}

#[test]
fn a_fault_of_the_database_file_leaves_whole_deliveries(rt: HostRuntime) -> Result<(), Fail> {
    let met = try_places(&rt, rt.alloc(), Trouble::Fault, File::Database)?;
    assert_holds(&rt, met > 1, met);
    Ok(())
}
