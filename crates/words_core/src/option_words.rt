//! The options of the commands that read events, beside words of their own: on the input, and on what is written.
ghost use Rattle.std.specs.Prelude.{◌≡◌, fold, is_some, map, true, false};
ghost use Rattle.clap.specs.Words.{App, Rule, found_of, rows_of, rule_of, with_rule, with_subcommand};
ghost use Rattle.words_core.specs.CommandLine.{option_named};
ghost use Rattle.words_core.specs.RequestLine.{contradict, is_set, options_in, read_rule, writing_by};
ghost use Rattle.words_core.specs.computed.OfferedLine.{IsApp, IsLocal, offering};

use clap::{Arg, ArgAction, ArgMatches, Command};
use std::alloc::{AllocError, Global};

/// How a command writes what it tells.
#[derive(Clone, Copy)]
pub enum Writing {
    /// Lines of text.
    Lines,
    /// Lines of text, each behind the date of its event.
    Dated,
    /// JSON objects, one a line.
    Objects,
}

/// How a command takes its input, and how it writes what it tells.
#[derive(Clone, Copy)]
pub struct Options {
    /// Standard input is a capture, classic or pcapng, in place of a list.
    pub is_capture: bool,
    /// A frame whose first error is its EtherType tells only that time has passed; such frames are counted.
    pub skips_other: bool,
    /// Frames are looked at without HSR tags, and without each VLAN tag before another; before frames are skipped.
    pub unwraps: bool,
    /// Nothing is done to the frames of a file that is read by its name: frames are not unwrapped, and none are passed over.
    pub is_raw: bool,
    /// How each line is written.
    pub writes: Writing,
    /// Of the entries of a replay those are told that are changes.
    pub changes_alone: bool,
    /// A replay takes simulated frames from the start.
    pub simulates: bool,
}

/// A command, where memory for it is granted.
pub type Made<'a> = Result<Command<'a>, AllocError>;

// The options without a value that each command over events takes: the name, and what the help says of it. What stands above each is for
// the manual page.
const OPTIONS: [(&str, &str); 6] = [
    // Read a capture of any length in place of a list, in the classic libpcap format or in pcapng, which Wireshark saves.
    // Its packets are numbered from 1, as in Wireshark (which also numbers journal, custom and sysdig blocks). A packet of
    // another link type than Ethernet tells only that time has passed; standard error says at the end how many there were
    // of each.
    (
        "capture",
        "Reads a capture (classic or pcapng) in place of a list",
    ),
    // Take frames of other EtherTypes, which are errors otherwise, however long they are, as a sign that time passes.
    // Standard error says at the end how many there were of each, and which was the first.
    (
        "skip-other",
        "Takes frames of other EtherTypes as a sign that time passes, and counts them",
    ),
    // Look at frames without the HSR tags of a ring (IEC 62439-3), and without each VLAN tag before another, as a
    // provider's network puts them. Offsets count in what is left. With --skip-other frames are unwrapped first.
    (
        "unwrap",
        "Looks at frames without HSR tags, and without VLAN tags before another",
    ),
    // With -r: pass over no frames of other protocols, and look at frames with all tags.
    (
        "raw",
        "With -r: passes over no frames, and looks at them with all tags",
    ),
    // Begin each line with the date of the event that it is about, in UTC, as `2023-11-14T22:13:20.250000Z`, and a space.
    // There is a `-` in its place where a line is about no event, or the time is past the year 9999.
    (
        "time",
        "Begins each line with the date of its event, in UTC",
    ),
    // Write an object of JSON for each line, one a line, with the fields of the line by their names, with dates, and with
    // values of floating-point numbers.
    ("json", "Writes JSON objects, one a line, in place of text"),
];

// What the help says of `--read`.
const READ_HELP: &str = "Reads FILE in place of standard input, which - stands for";

// The option `-r`, `--read`.
fn read_option<'a>(alloc: Global) -> Arg<'a>
    ensures rule { rule_of result ≡ read_rule }
    ensures local { result.global ≡ false }
{
    Arg::new(alloc, "read")
        .short('r')
        .long("read")
        .value_name("FILE")
        .help(READ_HELP)
}

/// An option without a value.
pub fn flag_option<'a>(alloc: Global, name: &'a str, help: &'a str) -> Arg<'a>
    ensures rule { rule_of result ≡ option_named name.now }
    ensures local { result.global ≡ false }
{
    Arg::new(alloc, name)
        .long(name)
        .action(ArgAction::SetTrue)
        .help(help)
}

/// The command with one more argument, where memory for both is granted.
pub fn with_arg<'a>(command: Made<'a>, arg: Arg<'a>) -> Made<'a>
    requires { arg.global ≡ false }
    ensures app { (a : App) (rule : Rule) → rule_of arg.entry ≡ rule → IsApp a command.entry → IsApp (with_rule a rule) result }
    ensures local { IsLocal command.entry → IsLocal result }
{
    match command {
        Ok(command) => command.arg(arg),
        Err(error) => Err(error),
    }
}

// The command with these options, each by its name and what the help says of it.
fn with_each<'a>(alloc: Global, command: Made<'a>, options: &'a [(&'a str, &'a str)]) -> Made<'a>
    ensures app { (a : App) → IsApp a command.entry → IsApp (fold with_rule a (map (λ o. option_named o.0.now) options.now)) result }
    ensures local { IsLocal command.entry → IsLocal result }
{
    let mut command = command;
    for (name, help) in options {
        command = with_arg(command, flag_option(alloc, name, help));
    }
    command
}

// The command with the name of a file, and with the options, where it takes them.
fn with_options<'a>(alloc: Global, command: Made<'a>, takes_options: bool) -> Made<'a>
    ensures app { (a : App) → IsApp a command.entry → IsApp (offering takes_options a) result }
    ensures local { IsLocal command.entry → IsLocal result }
{
    let command = with_arg(command, read_option(alloc));
    if takes_options {
        with_each(alloc, command, &OPTIONS)
    } else {
        command
    }
}

// The program with one more subcommand, where memory for both is granted.
fn with_command<'a>(program: Made<'a>, command: Made<'a>) -> Made<'a>
    requires { IsLocal command }
    ensures { (a b : App) → IsApp a program.entry → IsApp b command.entry → IsApp (with_subcommand a b.top) result }
{
    match (program, command) {
        (Ok(program), Ok(command)) => program.subcommand(command),
        _ => Err(AllocError),
    }
}

/// The program with one more subcommand, which takes the options or not, where memory for both is granted.
pub fn with_offering<'a>(
    alloc: Global,
    program: Made<'a>,
    command: Made<'a>,
    takes_options: bool,
) -> Made<'a>
    requires { IsLocal command }
    ensures { (a b : App) → IsApp a program.entry → IsApp b command.entry → IsApp (with_subcommand a (offering takes_options b).top) result }
{
    with_command(program, with_options(alloc, command, takes_options))
}

// Whether an option without a value is given.
fn is_set(matches: &ArgMatches<'_>, name: &str) -> bool
    ensures { result ≡ is_set name.now (rows_of (found_of matches.now)) }
{
    matches.get_one(name) == Some(true)
}

// How is written what is told, with dates or as objects; none where both are asked for.
fn writing_by(has_dates: bool, has_objects: bool) -> Option<Writing>
    ensures { result ≡ writing_by has_dates has_objects }
{
    match (has_dates, has_objects) {
        (false, false) => Some(Writing::Lines),
        (true, false) => Some(Writing::Dated),
        (false, true) => Some(Writing::Objects),
        (true, true) => None,
    }
}

/// The options of the matches of a subcommand, or none where dates stand beside objects.
pub fn options_met(matches: &ArgMatches<'_>) -> Option<Options>
    ensures { result ≡ options_in (rows_of (found_of matches.now)) }
{
    let writes = writing_by(is_set(matches, "time"), is_set(matches, "json"))?;
    Some(Options {
        is_capture: is_set(matches, "capture"),
        skips_other: is_set(matches, "skip-other"),
        unwraps: is_set(matches, "unwrap"),
        is_raw: is_set(matches, "raw"),
        writes,
        changes_alone: is_set(matches, "changes"),
        simulates: is_set(matches, "simulation"),
    })
}

/// What is told of options that contradict each other: frames are to be taken as they are, and something is to be done to them too.
pub fn contradiction(options: Options) -> Option<&'static str>
    ensures { is_some result ≡ contradict options }
{
    if options.is_raw && options.skips_other {
        Some("the argument '--raw' cannot be used with '--skip-other'")
    } else if options.is_raw && options.unwraps {
        Some("the argument '--raw' cannot be used with '--unwrap'")
    } else {
        None
    }
}
