//! The program `panel`: a panel's end over HTTP, for scripts.
//!
//! `panel send ADDRESS NAME JOURNAL` presses each line of the standard input, a command without a number, and prints
//! its answer; `panel skip ADDRESS NAME JOURNAL` gives up what has no answer yet; `panel status NAME JOURNAL` says how
//! the panel stands. What is numbered, sent and concluded is `panel`'s, and so are the journal's lines.
#![tactic(auto)]

use crate::fault::Fault;
use crate::sender::Sender;
use cli_words::VERSION;
use points::Name;
use std::env;
use std::io::{self, BufRead, BufReader};
use std::process::ExitCode;

mod exchange;
mod fault;
mod journal;
mod progress;
mod sender;

const USAGE: &str =
    "usage: panel send ADDRESS NAME JOURNAL\n       panel skip ADDRESS NAME JOURNAL\n       panel status NAME JOURNAL\n       panel --version";

fn words(rt: &HostRuntime) -> io::Result<Vec<String>> {
    let mut words = Vec::new(rt.alloc());
    for word in env::args(rt)? {
        words.push(word)?;
    }
    Ok(words)
}

// Presses each line of the standard input. A line that is no command ends the input; what was pressed before it is
// answered still.
fn press_lines(rt: &HostRuntime, sender: &mut Sender) -> Result<(), Fault> {
    let input = BufReader::new(rt.alloc(), rt.reader())?;
    let mut count = 0u64;
    let mut bad_line = None;
    for line in input.lines(rt.alloc()) {
        count = count.saturating_add(1);
        if !sender.press_line(line?.as_str())? {
            bad_line = Some(count);
            break;
        }
    }
    sender.finish()?;
    match bad_line {
        Some(number) => Err(Fault::Line(number)),
        None => Ok(()),
    }
}

fn send(rt: &HostRuntime, address: &str, name: Name, path: &str) -> Result<(), Fault> {
    let mut sender = Sender::begin(rt, address, name, path)?;
    let ended = press_lines(rt, &mut sender);
    sender.clear_progress();
    ended
}

fn skip(rt: &HostRuntime, address: &str, name: Name, path: &str) -> Result<(), Fault> {
    let mut sender = Sender::begin(rt, address, name, path)?;
    sender.give_up()?;
    let ended = sender.finish();
    sender.clear_progress();
    ended
}

fn status(rt: &HostRuntime, name: Name, path: &str) -> Result<(), Fault> {
    match journal::look(rt, name, path)? {
        Some(end) => {
            let (next, waiting) = (end.next_number(), end.in_flight().len());
            println!(rt; "{name}: the next number is {next}, {waiting} in flight")?;
        }
        None => println!(rt; "{name}: no journal")?,
    }
    Ok(())
}

fn name_of(word: &str) -> Result<Name, Fault> {
    Name::read(word).map_err(|_| Fault::Name)
}

fn run(rt: &HostRuntime, words: &[String]) -> Result<(), Fault> {
    match words {
        [_, command, address, name, path] if command.as_str() == "send" => {
            send(rt, address.as_str(), name_of(name.as_str())?, path.as_str())
        }
        [_, command, address, name, path] if command.as_str() == "skip" => {
            skip(rt, address.as_str(), name_of(name.as_str())?, path.as_str())
        }
        [_, command, name, path] if command.as_str() == "status" => {
            status(rt, name_of(name.as_str())?, path.as_str())
        }
        [_, command] if command.as_str() == "--version" => {
            println!(rt; "panel {VERSION}")?;
            Ok(())
        }
        _ => Err(Fault::Words),
    }
}

fn run_words(rt: &HostRuntime) -> Result<(), Fault> {
    let words = words(rt)?;
    run(rt, words.as_slice())
}

fn main(rt: HostRuntime) -> ExitCode {
    match run_words(&rt) {
        Ok(()) => ExitCode::SUCCESS,
        Err(fault) => {
            let _printed = match fault {
                Fault::Words => eprintln!(rt; "{USAGE}"),
                _ => eprintln!(rt; "panel: {fault}"),
            };
            ExitCode::from(fault.code())
        }
    }
}
