//! The arguments of the subcommands.

ghost use Rattle.std.specs.Prelude.{◌≡◌, false};
ghost use Rattle.clap.specs.Words.{rule_of};
ghost use Rattle.cli_words.specs.Line.{flag_rule, from_rule, looked_over_rule, needed_rule, record_rule};
ghost use Rattle.cli_words.specs.Line.{rename_rule, requests_rule, until_rule};

use clap::{Arg, ArgAction};
use std::alloc::Global;

/// An argument that has to be there, by its place among the words unless it gets a name.
pub(crate) fn needed<'a>(alloc: Global, id: &'a str, value_name: &'a str, help: &'a str) -> Arg<'a>
    ensures rule { rule_of result ≡ needed_rule id.now }
    ensures local { result.global ≡ false }
{
    Arg::new(alloc, id)
        .required(true)
        .value_name(value_name)
        .help(help)
}

/// The database that is looked over beside a building.
pub(crate) fn looked_over<'a>(alloc: Global) -> Arg<'a>
    ensures rule { rule_of result ≡ looked_over_rule }
    ensures local { result.global ≡ false }
{
    Arg::new(alloc, "database").value_name("DB").help(
        "The database of the desk, which is only read; with --hints a holiday list",
    )
}

/// The number of connections.
pub(crate) fn requests_argument<'a>(alloc: Global) -> Arg<'a>
    ensures rule { rule_of result ≡ requests_rule }
    ensures local { result.global ≡ false }
{
    Arg::new(alloc, "requests")
        .long("requests")
        .value_name("N")
        .value_parser(clap::value_parser!(u64).range(1..1_000_001))
        .help("After how many connections to end, from 1 to 1000000; without it, never")
}

/// Where a list of deliveries ends.
pub(crate) fn until_argument<'a>(alloc: Global) -> Arg<'a>
    ensures rule { rule_of result ≡ until_rule }
    ensures local { result.global ≡ false }
{
    Arg::new(alloc, "until").long("until").value_name("AT").help(
        "Ends the list before its first tick later than this: 2026-11-29T14:00 of the building's clock, or hundredths of a second since 1970",
    )
}

/// From when on a list is told.
pub(crate) fn from_argument<'a>(alloc: Global) -> Arg<'a>
    ensures rule { rule_of result ≡ from_rule }
    ensures local { result.global ≡ false }
{
    Arg::new(alloc, "from").long("from").value_name("AT").help(
        "Leaves out what ended at this moment or before it; AT as for --until",
    )
}

/// What is said of a record that is kept.
pub(crate) const KEPT: &str =
    "Writes each delivery down at the end of this list, on the disk before it is made";

/// The path of a record.
pub(crate) fn record_argument<'a>(alloc: Global, help: &'a str) -> Arg<'a>
    ensures rule { rule_of result ≡ record_rule }
    ensures local { result.global ≡ false }
{
    Arg::new(alloc, "record")
        .long("record")
        .value_name("PATH")
        .help(help)
}

/// A renaming, of which there may be many.
pub(crate) fn rename_argument<'a>(alloc: Global) -> Arg<'a>
    ensures rule { rule_of result ≡ rename_rule }
    ensures local { result.global ≡ false }
{
    Arg::new(alloc, "rename")
        .long("rename")
        .action(ArgAction::Append)
        .value_name("OLD=NEW")
        .help("A name of the tables, and the one that the building has for it")
}

/// A flag.
pub(crate) fn flag<'a>(alloc: Global, name: &'a str, help: &'a str) -> Arg<'a>
    ensures rule { rule_of result ≡ flag_rule name.now }
    ensures local { result.global ≡ false }
{
    Arg::new(alloc, name)
        .long(name)
        .action(ArgAction::SetTrue)
        .help(help)
}
