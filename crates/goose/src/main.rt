//! The program `goose`: reads recorded GOOSE and Sampled Values frames from standard input or a file and writes what its
//! subcommand asks for to standard output. Exit statuses: 0 done, also after help and the version;
//! 1 something was found; 2 wrong arguments; 3 an error in the input; 4 a read or write fault; 5 out of memory.
#![tactic(auto)]

mod console;
mod input;
mod messages;
mod opened;
mod output;
mod patient;

ghost use Rattle.std.specs.Prelude.{◌≡◌, ◌||◌, IfErr, IfOk, Ok, Some, false, not, true};
ghost use Rattle.clap.specs.Walk.{texts};
ghost use Rattle.words_core.specs.CommandLine.{HasPeriod, asked_by, import, publish, rewrite, takes_options};
ghost use Rattle.words_core.specs.RequestLine.{MayRefuseRequest, request_of_words};

use crate::console::Console;
use crate::input::{BLOCK, Input, Seen};
use crate::messages::advice::Advised;
use crate::messages::block_fields::block_fault;
use crate::messages::failure::{Failure, Unread};
use crate::messages::head::{Intake, advice_by_head};
use crate::messages::left_out::LeftOut;
use crate::messages::links::packets_of_other_links;
use crate::messages::passed::passed_frames;
use crate::messages::period::NoPeriod;
use crate::messages::unheard::Unheard;
use crate::messages::unjudged::unjudged_streams;
use crate::opened::{Begun, Opened};
use crate::output::Output;
use crate::patient::Patient;
use clap::error::ErrorKind as WordsErrorKind;
use engine_core::{Ending, status};
use list_core::{FromBuffered, ToWrite};
use std::alloc::{AllocError, Global};
use std::io::{BufReader, ErrorKind, IsTerminal};
use std::process::ExitCode;
use std::{env, io};
use tally_core::KindTally;
use task_engine::{
    FoundBlocks, Notes, Performed, Told, Unjudged, list_blocks, perform, replay_listed,
};
use words_core::{Options, Request, Task, WordsError, read_request};

// What is not inlined here needs much of the stack, which is free again when a task runs.

// What standard error says of a control block that can't be read, behind its position.
const BLOCK_FORM: &str =
    "A BLOCK is APPID,gocbRef,datSet,goID,confRev,entries, for example '0001,IED1LD/LLN0$GO$gcb,IED1LD/LLN0$ds,,1,2'";

// What standard error says behind the parser's own message: what would have been right, where that message leaves it open.
fn advice_on(kind: WordsErrorKind) -> Option<&'static str> {
    match kind {
        WordsErrorKind::InvalidSubcommand => Some(
            "The commands are show, check, rewrite, blocks, replay, publish, watch, losses and import; goose --help says what each does. A page of a capture: goose-report FILE, in a checkout tools/report FILE",
        ),
        WordsErrorKind::UnknownArgument => Some(
            "A list, script or capture is read by its name: goose COMMAND -r FILE; goose COMMAND --help says which arguments a command takes",
        ),
        WordsErrorKind::ValueValidation => {
            Some("N is a whole number from 2 to 65536: how many samples smpCnt counts in a second")
        }
        _ => None,
    }
}

// Says that a device failed, and why as far as it is known, and answers the exit status. Whoever reads no further has what was
// wanted, and nothing is said.
#[inline(never)]
fn answer_failure(rt: &HostRuntime, failure: Option<Failure>) -> u8 {
    let _ = match failure {
        Some(failure) if failure.is_reader_gone() => Ok(()),
        Some(failure) => eprintln!(Console::of(rt); "read or write fault: {failure}"),
        None => Console::of(rt).eprintln("read or write fault"),
    };
    status(&Ending::WriteFault)
}

// Says what the parser says of the words, and answers the exit status. Help that cannot be written is a write fault; a
// mistake in the words stays one, whether it can be told or not.
#[inline(never)]
fn answer_words(rt: &HostRuntime, error: &clap::Error) -> u8 {
    let code = error.exit_code() as u8;
    if let Err(failure) = error.print(&Console::of(rt)) {
        return if code == 0 {
            answer_failure(rt, Some(Failure::Write(failure)))
        } else {
            code
        };
    }
    if let Some(text) = advice_on(error.kind()) {
        let _ = Console::of(rt).eprintln(text);
    }
    code
}

// The words as texts, or the exit status where they can't be had.
fn texts_of(rt: &HostRuntime) -> Result<Vec<String>, u8> {
    match env::args(rt) {
        Ok(args) => args
            .collect(rt.alloc())
            .map_err(|_| status(&Ending::Memory)),
        Err(error) if error.kind() == ErrorKind::OutOfMemory => Err(status(&Ending::Memory)),
        Err(_) => Err(2),
    }
}

// The words, of which `help` stands for the option: `goose help COMMAND` is `goose COMMAND --help`.
fn words_of<'a>(rt: &HostRuntime, texts: &'a [String]) -> Result<Vec<&'a str>, AllocError> {
    let mut words = Vec::new(rt.alloc());
    for text in texts {
        words.push(text.as_str())?;
    }
    if words.get(1) == Some(&"help") {
        words.remove(1);
        words.push("--help")?;
    }
    Ok(words)
}

// The request that the words make.
#[inline(never)]
fn request_of<'a>(rt: &HostRuntime, words: &'a [&'a str]) -> Result<Request<'a>, WordsError>
    ensures period { IfOk result (λ r. HasPeriod (asked_by r.task)) }
    ensures request { IfOk result (λ r. request_of_words (texts words.now) ≡ Some (Ok (asked_by r.task, r.options))) }
    ensures refused { IfErr result (MayRefuseRequest (texts words.now)) }
{
    read_request(rt.alloc(), words)
}

// What a task reads by its options.
fn intake_of(task: &Task, options: Options) -> Intake
    ensures script { asked_by task.now ≡ publish → result ≡ Intake.Script }
    ensures records { asked_by task.now ≡ import → result ≡ Intake.Records }
    ensures list { asked_by task.now ≡ rewrite → result ≡ Intake.List }
    ensures packets { takes_options (asked_by task.now) ≡ true → options.is_capture ≡ true → result ≡ Intake.Packets }
    ensures events { takes_options (asked_by task.now) ≡ true → options.is_capture ≡ false → result ≡ Intake.ListOrCapture }
{
    match task {
        Task::Publish => Intake::Script,
        Task::Import => Intake::Records,
        Task::Rewrite => Intake::List,
        _ if options.is_capture => Intake::Packets,
        _ => Intake::ListOrCapture,
    }
}

// The options of a run that reads a file by its name: it is a capture where its first octets are those of one, frames of other
// protocols are passed over, and frames are unwrapped, unless they are to be taken as they are.
fn options_by_name(options: Options, is_capture: bool) -> Options
    ensures capture { result.is_capture ≡ (options.is_capture || is_capture) }
    ensures passes_over { result.skips_other ≡ not options.is_raw }
    ensures unwraps { result.unwraps ≡ not options.is_raw }
    ensures others { result ≡ record options { is_capture = result.is_capture; skips_other = result.skips_other; unwraps = result.unwraps } }
{
    Options {
        is_capture: options.is_capture || is_capture,
        skips_other: !options.is_raw,
        unwraps: !options.is_raw,
        ..options
    }
}

// Says that a file cannot be read, and why, and answers the exit status.
#[inline(never)]
fn answer_unread(rt: &HostRuntime, command: &str, file: Option<&str>, error: io::Error) -> u8 {
    let file = file.unwrap_or("-");
    let _ = eprintln!(Console::of(rt); "goose {command}: {}", Unread { file, error });
    status(&Ending::ReadFault)
}

// Says on a terminal what is awaited.
#[inline(never)]
fn say_awaited(rt: &HostRuntime, command: &str, intake: Intake) {
    if rt.stdin().is_terminal() {
        let awaited = match intake {
            Intake::Script => "script",
            Intake::Records | Intake::Packets => "capture",
            Intake::List | Intake::ListOrCapture => "list",
        };
        let _ = eprintln!(Console::of(rt);
            "goose {command}: waiting for a {awaited} on standard input (did you forget `< FILE`?)"
        );
    }
}

// Says why the input ended a run, and what to do about it, where its first octets or those at the fault tell.
#[inline(never)]
fn say_stop(rt: &HostRuntime, command: &str, told: Told, intake: Intake, head: &[u8]) {
    let Told { stop, advice } = told;
    let _ = eprintln!(Console::of(rt); "goose {command}: {stop}");
    if let Some(advice) = advice_by_head(intake, head).or(advice) {
        let _ = eprintln!(Console::of(rt); "{}", Advised(advice));
    }
}

// Why a device failed, if one did. A read may fail because what was written could not be handed on before.
fn failure_of<W: io::Write + Drop>(output: &Output<W>, seen: &Seen) -> Option<Failure> {
    match (output.failure(), seen.failure()) {
        (Some(error), _) => Some(Failure::Write(error)),
        (None, Some(error)) => Some(Failure::Read(error)),
        (None, None) => None,
    }
}

// How many blocks of which no frame came are told one by one.
const MOST_UNHEARD: usize = 16;

// What a task notes before its first event: a flag for each block of a replay, to be set where a frame of it comes; none where
// memory is refused, and then nothing is said of them.
fn notes_for(rt: &HostRuntime, task: &Task) -> Notes {
    let mut heard = Vec::new(rt.alloc());
    if let Task::Replay(blocks) = task {
        let _ = heard.resize(blocks.len(), false);
    }
    let unjudged = Unjudged::new(rt.alloc());
    Notes { heard, unjudged }
}

// The text of the block at a position. The texts stand behind the name of the command, with options between them, of which `-r`
// and `--read` have a word behind them, or the mark `--`, behind which all are texts.
fn block_text<'a>(words: &[&'a str], position: usize) -> Option<&'a str> {
    let mut is_marked = false;
    let mut is_name = false;
    let mut before = 0usize;
    for word in words.get(2..)? {
        if is_name {
            is_name = false;
        } else if !is_marked && word.starts_with("-") && *word != "-" {
            is_marked = *word == "--";
            is_name = matches!(*word, "-r" | "--read");
        } else if before == position {
            return Some(word);
        } else {
            before = before.saturating_add(1);
        }
    }
    None
}

// Says of which blocks no frame came.
#[inline(never)]
fn say_unheard(rt: &HostRuntime, words: &[&str], heard: &[bool]) {
    let mut count = 0usize;
    for (position, is_heard) in heard.iter().enumerate() {
        if *is_heard {
            continue;
        }
        if count < MOST_UNHEARD {
            let text = block_text(words, position).unwrap_or("");
            let _ = eprintln!(Console::of(rt); "goose replay: {}", Unheard { position, text });
        }
        count = count.saturating_add(1);
    }
    if count > MOST_UNHEARD {
        let _ = eprintln!(Console::of(rt);
            "goose replay: {} more were never seen",
            count - MOST_UNHEARD
        );
    }
}

// Says which frames of other protocols were passed over, if any were.
#[inline(never)]
fn say_passed(rt: &HostRuntime, command: &str, passed: &Option<KindTally>) {
    let Some(tally) = passed else { return };
    if let Some(passed) = passed_frames(tally) {
        let _ = eprintln!(Console::of(rt); "goose {command}: {passed}");
    }
}

// Says which packets were not captured on Ethernet, if any were not.
#[inline(never)]
fn say_links(rt: &HostRuntime, command: &str, links: &Option<KindTally>) {
    let Some(tally) = links else { return };
    if let Some(links) = packets_of_other_links(tally) {
        let _ = eprintln!(Console::of(rt); "goose {command}: {links}");
    }
}

// Says which streams were not judged, if any were not.
#[inline(never)]
fn say_unjudged(rt: &HostRuntime, command: &str, unjudged: &Unjudged<Global>) {
    if let Some(unjudged) = unjudged_streams(unjudged) {
        let _ = eprintln!(Console::of(rt); "goose {command}: {unjudged}");
    }
}

// Says that a replay has no control block, and where to find some, and answers the exit status.
#[inline(never)]
fn answer_unnamed(rt: &HostRuntime) -> u8 {
    let _ = Console::of(rt).eprintln(
        "error: the following required arguments were not provided:\n  <BLOCK>...\n\nUsage: goose replay <BLOCK>...\n\nFor more information, try '--help'.\n\
         goose blocks lists them; with -r FILE all of them are taken",
    );
    2
}

// Whether a task is a replay without a control block.
fn is_unnamed(task: &Task) -> bool {
    match task {
        Task::Replay(blocks) => blocks.is_empty(),
        _ => false,
    }
}

// What a run reads, and its options: those of a file that is read by its name are others. Or the exit status, where it cannot be read.
fn begun<'a>(
    rt: &'a HostRuntime,
    command: &str,
    file: Option<&str>,
    options: Options,
    opened: Opened,
) -> Result<(Begun<Patient<'a, HostRuntime, Opened>>, Options), u8> {
    let opened = Patient::new(rt, opened);
    if file.is_none() {
        return Ok((Begun::new(opened), options));
    }
    match Begun::looked_at(opened) {
        Ok((opened, is_capture)) => Ok((opened, options_by_name(options, is_capture))),
        Err(error) => Err(answer_unread(rt, command, file, error)),
    }
}

// Says which control blocks of a file a replay leaves out, or that there is none.
#[inline(never)]
fn say_found(rt: &HostRuntime, file: &str, found: &FoundBlocks<Global>) {
    if found.listed.is_empty() {
        let _ = eprintln!(Console::of(rt); "goose replay: no control block in {file}");
    }
    for block in found.listed.as_slice() {
        if !block.is_named {
            let _ = eprintln!(Console::of(rt); "goose replay: {}", LeftOut(block.text.as_slice()));
        }
    }
}

// The control blocks of the file that is named, which must be a regular one, since it is read twice; or the exit status.
fn found_in(
    rt: &HostRuntime,
    file: Option<&str>,
    options: Options,
) -> Result<FoundBlocks<Global>, u8> {
    let name = match file {
        None | Some("-") => return Err(answer_unnamed(rt)),
        Some(name) => name,
    };
    let opened = match Opened::by_name(rt, file) {
        Ok(opened) => opened,
        Err(error) => return Err(answer_unread(rt, "replay", file, error)),
    };
    if !opened.is_regular() {
        return Err(answer_unnamed(rt));
    }
    let (opened, options) = begun(rt, "replay", file, options, opened)?;
    let Ok(input) = BufReader::with_capacity(rt.alloc(), BLOCK, opened) else {
        return Err(status(&Ending::Memory));
    };
    match list_blocks(rt.alloc(), options, FromBuffered::new(input)) {
        Ok(listed) => {
            say_found(rt, name, &listed.found);
            Ok(listed.found)
        }
        Err(_) => Err(status(&Ending::Memory)),
    }
}

// Runs a task from standard input, or from the file that is named, to standard output, and answers the exit status. Where a replay
// has no control block, those of the file are found first.
fn run(rt: &HostRuntime, request: Request<'_>, words: &[&str]) -> u8
    requires { HasPeriod (asked_by request.task) }
{
    let Request {
        task,
        options,
        file,
    } = request;
    let command = task.name();
    let found = if is_unnamed(&task) {
        match found_in(rt, file, options) {
            Ok(found) => Some(found),
            Err(code) => return code,
        }
    } else {
        None
    };
    if matches!(file, None | Some("-")) {
        say_awaited(rt, command, intake_of(&task, options));
    }
    let opened = match Opened::by_name(rt, file) {
        Ok(opened) => opened,
        Err(error) => return answer_unread(rt, command, file, error),
    };
    match begun(rt, command, file, options, opened) {
        Ok((opened, options)) => run_over(rt, task, found, options, opened, words),
        Err(code) => code,
    }
}

// Runs a task from a reader to standard output, a replay over the control blocks that were found where some were looked for, and
// answers the exit status.
fn run_over(
    rt: &HostRuntime,
    task: Task,
    found: Option<FoundBlocks<Global>>,
    options: Options,
    opened: Begun<Patient<'_, HostRuntime, Opened>>,
    words: &[&str],
) -> u8
    requires { HasPeriod (asked_by task) }
{
    let Ok(output) = Output::new(rt.alloc(), Patient::new(rt, io::writer(rt))) else {
        return status(&Ending::Memory);
    };
    let seen = Seen::new();
    let input = Input::new(opened, &output, &seen);
    let Ok(input) = BufReader::with_capacity(rt.alloc(), BLOCK, input) else {
        return status(&Ending::Memory);
    };
    let command = task.name();
    let intake = intake_of(&task, options);
    let mut notes = notes_for(rt, &task);
    let mut writer = ToWrite::new(&output);
    let reader = FromBuffered::new(input);
    let Performed {
        ending,
        told,
        passed,
        other_links,
        reader: _,
    } = match found {
        Some(found) => replay_listed(rt.alloc(), found, options, reader, &mut notes, &mut writer),
        None => perform(rt.alloc(), task, options, reader, &mut notes, &mut writer),
    };
    let is_written = ending != Ending::WriteFault && output.hand_on().is_ok();
    let failure = failure_of(&output, &seen);
    output.let_go();
    if !is_written || ending == Ending::ReadFault {
        return answer_failure(rt, failure);
    }
    say_passed(rt, command, &passed);
    say_links(rt, command, &other_links);
    say_unjudged(rt, command, &notes.unjudged);
    match told {
        Some(told) => say_stop(rt, command, told, intake, seen.into_head().as_slice()),
        None if ending == Ending::Done => say_unheard(rt, words, notes.heard.as_slice()),
        None => {}
    }
    status(&ending)
}

// Says which text is no control block, and why, and answers the exit status.
#[inline(never)]
fn answer_block(rt: &HostRuntime, words: &[&str], position: usize) -> u8 {
    let _ = eprintln!(Console::of(rt); "block {position} BlockForm");
    let fault = match block_text(words, position) {
        Some(text) => block_fault(text),
        None => None,
    };
    if let Some(fault) = fault {
        let _ = eprintln!(Console::of(rt); "{fault}");
    }
    let _ = Console::of(rt).eprintln(BLOCK_FORM);
    2
}

// The text of the use of `--period` at a position. The words are the options of `losses`, of which `-r` and `--read` have a word
// behind them too.
fn period_text<'a>(words: &[&'a str], position: usize) -> Option<&'a str> {
    let mut is_name = false;
    let mut is_period = false;
    let mut before = 0usize;
    for word in words.get(2..)? {
        let text = if is_period {
            Some(*word)
        } else if is_name {
            None
        } else {
            word.strip_prefix("--period=")
        };
        let is_value = is_name || is_period;
        is_period = !is_value && *word == "--period";
        is_name = !is_value && matches!(*word, "-r" | "--read");
        if text.is_some() {
            if before == position {
                return text;
            }
            before = before.saturating_add(1);
        }
    }
    None
}

// Says which text is no period, and why, and answers the exit status.
#[inline(never)]
fn answer_period(rt: &HostRuntime, words: &[&str], position: usize) -> u8 {
    let text = period_text(words, position).unwrap_or("");
    let _ = eprintln!(Console::of(rt);
        "error: {}\n\nFor more information, try '--help'.",
        NoPeriod(text)
    );
    if let Some(text) = advice_on(WordsErrorKind::ValueValidation) {
        let _ = Console::of(rt).eprintln(text);
    }
    2
}

// Does what the words ask for, and answers the exit status.
fn answer(rt: &HostRuntime, texts: &[String]) -> u8 {
    let Ok(words) = words_of(rt, texts) else {
        return status(&Ending::Memory);
    };
    match request_of(rt, words.as_slice()) {
        Ok(request) => run(rt, request, words.as_slice()),
        Err(WordsError::Words(error)) => answer_words(rt, &error),
        Err(WordsError::Block(position)) => answer_block(rt, words.as_slice(), position),
        Err(WordsError::Period(position)) => answer_period(rt, words.as_slice(), position),
        Err(WordsError::Memory) => status(&Ending::Memory),
    }
}

// Says on standard error what status 5 means; what the others do is said by then.
fn say(rt: &HostRuntime, code: u8) {
    if code == status(&Ending::Memory) {
        let _ = Console::of(rt).eprintln("out of memory");
    }
}

fn main(rt: HostRuntime) -> ExitCode {
    let code = match texts_of(&rt) {
        Ok(texts) => answer(&rt, texts.as_slice()),
        Err(2) => {
            let _ = Console::of(&rt).eprintln(
                "error: each argument must be text in UTF-8, and one is not",
            );
            2
        }
        Err(status) => status,
    };
    say(&rt, code);
    ExitCode::from(code)
}
