//! The command line of the program `goose`. The parser of words, `clap`, is called here alone.
ghost use Rattle.std.specs.Prelude.{◌≡◌, ◌≢◌, ℕ, true, false, codes, fold, is_some, map, option_map, Option, Some, [], IfOk, IfErr, IfSome, Err, Ok, option_and_then};
ghost use Rattle.clap.specs.Words.{App, Text, all_of, app_of, first_of, found_of, kind_of, new_app, rows_of, rule_of, subcommand_rows_of, takes, with_subcommand};
ghost use Rattle.clap.specs.Walk.{texts};
ghost use Rattle.clap.specs.declared.error.kind.ErrorKind.TheVariants.{OutOfMemory};
ghost use Rattle.words_core.specs.CommandLine.{AnswersTask, AnswersUnsaid, Asked, HasPeriod, IsNoMistake, Unsaid};
ghost use Rattle.words_core.specs.CommandLine.{asked_by, bare_program, block_rule, id_rule, is_plain, losing, losses_asked, names_blocks};
ghost use Rattle.words_core.specs.CommandLine.{losses_of, name_of, period_rule, readers, replay_asked, replay_of, replaying, stream_period_rule, task_asked, watch, watch_asked, watching};
ghost use Rattle.words_core.specs.computed.PrivateCalls.{AnswersWords, MayAnswer};
ghost use Rattle.words_core.specs.RequestLine.{AnswersAsked, AnswersRequest, AreTexts, Asks, AsksWith, MayRefuseRequest, MayRefuseWords, RefusesUnsaid, contradict, file_asked, file_of_words};
ghost use Rattle.words_core.specs.RequestLine.{offered, request_asked, request_faults, request_line, request_of_words, takes_request, takes_words, task_of_words, word_faults};
ghost use Rattle.words_core.specs.computed.OfferedLine.{Excludes, IsApp, IsExclusion, IsLocal, IsUnnamed, MayGrant};

use crate::option_words::{
    Made, Options, contradiction, flag_option, options_met, with_arg, with_offering,
};
use crate::period_words::{PeriodError, read_period};
use block_core::{Block, BlockError, read_block};
use clap::error::ErrorKind;
use clap::{Arg, ArgAction, ArgMatches, Command, value_parser};
use loss_core::StreamPeriod;
use std::alloc::Global;
use thiserror::Error;

/// What a command line asks for.
#[derive(Drop)]
pub enum Task {
    /// One line an event.
    Show,
    /// One line a note on a frame.
    Check,
    /// The list in written form.
    Rewrite,
    /// One line a control block or a stream that a list holds, and one where its configuration changes.
    Blocks,
    /// One line an entry of a subscriber of these control blocks; words that name none have none here.
    Replay(Vec<Block<Global>, Global>),
    /// The list of frames that a publisher sends by a script.
    Publish,
    /// One line a sample of a stream, and what its count is after those before it.
    Watch {
        /// After how many samples the counter begins at 0 again, 2 to 65,536.
        period: u32,
        /// svID, the name of the stream.
        id: Vec<u8, Global>,
    },
    /// A capture as a list.
    Import,
    /// What is missing of each control block and stream, and when.
    Losses {
        /// The periods of streams, each 2 to 65,536; a stream without one is counted alone.
        periods: Vec<StreamPeriod<Global>, Global>,
    },
}

impl Task {
    /// The name of the subcommand that asks for it.
    pub fn name(&self) -> &'static str
        ensures { result.now ≡ name_of (asked_by self.now) }
    {
        match self {
            Task::Show => "show",
            Task::Check => "check",
            Task::Rewrite => "rewrite",
            Task::Blocks => "blocks",
            Task::Replay(_) => "replay",
            Task::Publish => "publish",
            Task::Watch { .. } => "watch",
            Task::Import => "import",
            Task::Losses { .. } => "losses",
        }
    }
}

/// What a command line asks for: a task, its options, and the file that it is to read.
#[derive(Drop)]
pub struct Request<'a> {
    /// What to do.
    pub task: Task,
    /// How to take the input, and how to write what is told.
    pub options: Options,
    /// The name of the file that is to be read in place of standard input, if one is given; `-` stands for standard input.
    pub file: Option<&'a str>,
}

/// Why words ask for nothing that can be done.
#[derive(Debug, Drop, Error)]
pub enum WordsError {
    /// A mistake in the words, or a request for help or the version. Its `Display` is the text
    /// for the user, its `exit_code` 2 for a mistake and else 0.
    #[error(transparent)]
    Words(clap::Error),
    /// The text of a control block says none: the position, from 0, of the first such text.
    #[error("block {0} cannot be read")]
    Block(usize),
    /// The text of a period says none: the position, from 0, of the first such text.
    #[error("period {0} cannot be read")]
    Period(usize),
    /// Memory was refused.
    #[error("out of memory")]
    Memory,
}

// What is told of dates beside objects.
const EXCLUDED: &str = "the argument '--time' cannot be used with '--json'";

// What the help of `show` and of `blocks` ends with: they find nothing to be told by a status.
const SHOW_MORE: &str =
    "Times in a list are microseconds where its first line is V2, else milliseconds; in the output they are always microseconds.\n\
     Exit status: 0 done, 2 wrong arguments, 3 an error in the input, 4 reading or writing failed, 5 out of memory.\n\
     More: man goose";

// What the help of `publish` ends with.
const PUBLISH_MORE: &str =
    "Times in the input are microseconds where its first line is V2, else milliseconds; in the output they are always microseconds.\n\
     Exit status: 0 done, 2 wrong arguments, 3 an error in the input, 4 reading or writing failed, 5 out of memory.\n\
     More: man goose";

// What the help of `check` ends with: an encoding is no error.
const CHECK_MORE: &str =
    "A line fault is an error of the frame. A line not-written is a note and no error: the frame is valid, but encoded otherwise than rewrite would write it. \
     A line destination is a note too: the frame is sent to another address than the standards recommend.\n\n\
     Times in a list are microseconds where its first line is V2, else milliseconds.\n\
     Exit status: 0 nothing to note, 1 a line was written for some frame, 2 wrong arguments, 3 an error in the input, 4 reading or writing failed, 5 out of memory.\n\
     More: man goose";

// What the help of `rewrite` ends with.
const REWRITE_MORE: &str =
    "Times in the input are microseconds where its first line is V2, else milliseconds; in the output they are always microseconds.\n\
     Exit status: 0 done, 1 some frame could not be written anew, 2 wrong arguments, 3 an error in the input, 4 reading or writing failed, 5 out of memory.\n\
     More: man goose";

// What the help of `replay` ends with.
const REPLAY_MORE: &str =
    "Times in a list are microseconds where its first line is V2, else milliseconds.\n\
     Exit status: 0 done, 2 wrong arguments, 3 an error in the input, or two blocks have one APPID and gocbRef, 4 reading or writing failed, 5 out of memory.\n\
     More: man goose";

// What the help of `watch` ends with.
const WATCH_MORE: &str =
    "Times in a list are microseconds where its first line is V2, else milliseconds.\n\
     Exit status: 0 each line says first or next, 1 some line says another word, 2 wrong arguments, 3 an error in the input, 4 reading or writing failed, 5 out of memory.\n\
     More: man goose";

// What the help of `losses` ends with.
const LOSSES_MORE: &str =
    "Times in a list are microseconds where its first line is V2, else milliseconds.\n\
     Exit status: 0 nothing is missing, 1 something is missing, late, silent, restarted or out of range, 2 wrong arguments, 3 an error in the input, 4 reading or writing failed, 5 out of memory.\n\
     More: man goose";

// What the help of `import` ends with: a capture has a unit of its own.
const IMPORT_MORE: &str =
    "Times in the output are microseconds, whatever the capture has. A record that no list can hold is left out, and a comment says so.\n\
     Exit status: 0 done, 1 a record was left out, 2 wrong arguments, 3 an error in the input, 4 reading or writing failed, 5 out of memory.\n\
     More: man goose";

// The program before its subcommands, one of which must be named.
fn program<'a>(alloc: Global) -> Command<'a>
    ensures { app_of result ≡ bare_program }
{
    Command::new(alloc, "goose")
        .version("1.0.0")
        .before_help(
            "Example: goose blocks --capture < FILE.pcapng\nThen: goose replay --capture 'BLOCK' < FILE.pcapng, with a BLOCK that this lists",
        )
        .after_help(
            "Run goose COMMAND --help for an example of each command.\n\
             Times in lists and scripts are microseconds where the first line is V2, else milliseconds; what is written is always in microseconds.\n\
             Exit status: 0 done, 1 something was found, 2 wrong arguments, 3 an error in the input, 4 reading or writing failed, 5 out of memory.\n\
             More: man goose",
        )
        .about(
            "Reads recorded GOOSE and Sampled Values frames from standard input and tells what they say",
        )
        .disable_help_subcommand(true)
        .subcommand_required(true)
}

// A command before its words.
fn named<'a>(
    alloc: Global,
    name: &'a str,
    about: &'a str,
    example: &'a str,
    more: &'a str,
) -> Made<'a>
    ensures app { IsApp (new_app name.now) result }
    ensures local { IsLocal result }
{
    Ok(
        Command::new(alloc, name)
            .before_help(example)
            .after_help(more)
            .about(about),
    )
}

// The program with one more subcommand, which takes no words of its own, and takes the options or not.
fn with_plain<'a>(
    alloc: Global,
    program: Made<'a>,
    takes_options: bool,
    name: &'a str,
    about: &'a str,
    example: &'a str,
    more: &'a str,
) -> Made<'a>
    ensures { (a : App) → IsApp a program.entry → IsApp (with_subcommand a (offered takes_options (new_app name.now).top)) result }
{
    let plain = named(alloc, name, about, example, more);
    with_offering(alloc, program, plain, takes_options)
}

// The words of `replay`: the texts of its control blocks, if there are any.
fn block_words<'a>(alloc: Global) -> Arg<'a>
    ensures rule { rule_of result ≡ block_rule }
    ensures local { result.global ≡ false }
{
    Arg::new(alloc, "BLOCK").num_args(1..).help(
        "A control block: APPID,gocbRef,datSet,goID,confRev,entries, as 0001,IED1LD/LLN0$GO$gcb,IED1LD/LLN0$ds,,1,2. \
         APPID has 4 hexadecimal digits; an empty goID is not compared; entries is the number of members. Put it in single quotes: $ names a variable in a shell. \
         With -r FILE and without a BLOCK: all those that goose blocks -r FILE lists",
    )
}

// What the help says of `--changes`.
const CHANGES_HELP: &str = "Leaves out the lines refreshed, repeated, not-subscribed and sampled";

// What the help says of `--simulation`.
const SIMULATION_HELP: &str =
    "Takes simulated frames from the start, as a device whose LPHD.Sim is on";

// The program with the subcommand `replay`.
fn with_replay<'a>(alloc: Global, program: Made<'a>) -> Made<'a>
    ensures { (a : App) → IsApp a program.entry → IsApp (with_subcommand a (offered true replaying.shape)) result }
{
    let replay = named(
        alloc,
        "replay",
        "Shows what a device that subscribes to control blocks does with each frame",
        "Example: goose replay --capture '3001,BAY1PROT/LLN0$GO$gcbTrip,BAY1PROT/LLN0$dsTrip,BAY1_Trip,1,2' < examples/two_bays.pcapng",
        REPLAY_MORE,
    );
    let replay = with_arg(replay, block_words(alloc));
    let replay = with_arg(replay, flag_option(alloc, "changes", CHANGES_HELP));
    let replay = with_arg(replay, flag_option(alloc, "simulation", SIMULATION_HELP));
    with_offering(alloc, program, replay, true)
}

// What the help of `watch` says of `--period`.
const PERIOD_HELP: &str =
    "How many samples smpCnt counts before it begins at 0 again, from 2 to 65536: those of one second, so 4000 for 80 samples a cycle at 50 Hz";

// What the help of `losses` says of it.
const STREAM_PERIOD_HELP: &str =
    "How many samples smpCnt counts before it begins at 0 again, from 2 to 65536: those of one second, so 4000 for 80 samples a cycle at 50 Hz. \
     May be given several times: ID=N is the N of the streams with the svID ID, N alone that of all others, and of several the last one counts. \
     The samples of a stream without a period are counted, and changes of smpSynch told";

// The option `--period` of `losses`, which may be given several times.
fn stream_period_option<'a>(alloc: Global) -> Arg<'a>
    ensures rule { rule_of result ≡ stream_period_rule }
    ensures local { result.global ≡ false }
{
    Arg::new(alloc, "period")
        .long("period")
        .action(ArgAction::Append)
        .value_name("[ID=]N")
        .help(STREAM_PERIOD_HELP)
}

// The option `--period` of `watch`.
fn period_option<'a>(alloc: Global) -> Arg<'a>
    ensures rule { rule_of result ≡ period_rule }
    ensures local { result.global ≡ false }
{
    Arg::new(alloc, "period")
        .long("period")
        .required(true)
        .value_name("N")
        .value_parser(value_parser!(u32).range(2..=65536))
        .help(PERIOD_HELP)
}

// The option `--id` of `watch`.
fn id_option<'a>(alloc: Global) -> Arg<'a>
    ensures rule { rule_of result ≡ id_rule }
    ensures local { result.global ≡ false }
{
    Arg::new(alloc, "id")
        .long("id")
        .required(true)
        .value_name("TEXT")
        .help("The svID of the stream, as MU01")
}

// The program with the subcommand `watch`.
fn with_watch<'a>(alloc: Global, program: Made<'a>) -> Made<'a>
    ensures { (a : App) → IsApp a program.entry → IsApp (with_subcommand a (offered true watching.shape)) result }
{
    let watch = named(
        alloc,
        "watch",
        "Shows each sample of one stream, and whether its count is the next one",
        "Example: goose watch --period 4000 --id MU01 < examples/sample_counts.list",
        WATCH_MORE,
    );
    let watch = with_arg(watch, period_option(alloc));
    with_offering(alloc, program, with_arg(watch, id_option(alloc)), true)
}

// The program with the subcommand `losses`.
fn with_losses<'a>(alloc: Global, program: Made<'a>) -> Made<'a>
    ensures { (a : App) → IsApp a program.entry → IsApp (with_subcommand a (offered true losing.shape)) result }
{
    let losses = named(
        alloc,
        "losses",
        "Shows what is missing of each control block and stream, and when",
        "Example: goose losses --capture < examples/two_bays.pcapng",
        LOSSES_MORE,
    );
    let losses = with_arg(losses, stream_period_option(alloc));
    with_offering(alloc, program, losses, true)
}

// The program with the subcommands that read a list and take no words of their own.
fn with_readers<'a>(alloc: Global, program: Made<'a>) -> Made<'a>
    ensures { (a : App) → IsApp a program.entry → IsApp (fold with_subcommand a (map (λ s. offered s.has_options s.shape) readers)) result }
{
    let program = with_plain(
        alloc,
        program,
        true,
        "show",
        "Shows each event on one line: every field of a frame, or its first error",
        "Example: goose show --capture --time < examples/two_bays.pcapng",
        SHOW_MORE,
    );
    let program = with_plain(
        alloc,
        program,
        true,
        "check",
        "Writes a line for each error of a frame, and for each note on a valid one",
        "Example: goose check --capture < examples/two_bays.pcapng",
        CHECK_MORE,
    );
    let program = with_plain(
        alloc,
        program,
        false,
        "rewrite",
        "Writes the list again, each valid frame in its canonical encoding",
        "Example: goose rewrite < examples/long_lengths.list",
        REWRITE_MORE,
    );
    with_plain(
        alloc,
        program,
        true,
        "blocks",
        "Lists control blocks and streams, and each whose datSet, goID, confRev or size changes",
        "Example: goose blocks --capture < examples/two_bays.pcapng",
        SHOW_MORE,
    )
}

// The whole command line.
fn command<'a>(alloc: Global) -> Made<'a>
    ensures { IsApp request_line result }
{
    let program = Ok(program(alloc));
    let program = with_readers(alloc, program);
    let program = with_replay(alloc, program);
    let program = with_plain(
        alloc,
        program,
        false,
        "publish",
        "Reads a script and writes the list of frames that a publisher sends",
        "Example: goose publish < examples/publisher.script",
        PUBLISH_MORE,
    );
    let program = with_watch(alloc, program);
    let program = with_losses(alloc, program);
    with_plain(
        alloc,
        program,
        false,
        "import",
        "Reads a capture (classic libpcap, as tcpdump -w writes) and writes it as a list",
        "Example: goose import < examples/two_frames.pcap",
        IMPORT_MORE,
    )
}

// The task of a replay of the control blocks that texts say.
fn replay_task(alloc: Global, words: &[&str]) -> Result<Task, WordsError>
    ensures { AnswersWords (replay_of (texts words.now)) result }
{
    let mut blocks = Vec::new(alloc);
    for (position, text) in words.iter().enumerate() {
        match read_block(alloc, text) {
            Ok(block) => {
                if blocks.push(block).is_err() {
                    return Err(WordsError::Memory);
                }
            }
            Err(BlockError::BlockForm) => return Err(WordsError::Block(position)),
            Err(BlockError::Memory(_)) => return Err(WordsError::Memory),
        }
    }
    Ok(Task::Replay(blocks))
}

// The task of the matches of `replay`.
fn replay_met(alloc: Global, matches: &ArgMatches<'_>) -> Result<Task, WordsError>
    ensures { MayAnswer (replay_asked (rows_of (found_of matches.now))) (Some result) }
{
    match matches.get_raw("BLOCK") {
        Some(words) => replay_task(alloc, words),
        None => replay_task(alloc, &[]),
    }
}

// The task of a watch over the stream with this svID.
fn watch_task(alloc: Global, period: u32, id: &str) -> Result<Task, WordsError>
    ensures { AnswersWords (Ok (watch period id.now)) result }
{
    let mut octets = Vec::new(alloc);
    match octets.extend_from_slice(id.as_bytes()) {
        Ok(()) => Ok(Task::Watch { period, id: octets }),
        Err(_) => Err(WordsError::Memory),
    }
}

// The task of the matches of `watch`.
fn watch_met(alloc: Global, matches: &ArgMatches<'_>) -> Option<Result<Task, WordsError>>
    ensures { MayAnswer (watch_asked (rows_of (found_of matches.now))) result }
{
    let period = matches.get_one::<u32>("period")?;
    let id = matches.get_str("id")?;
    Some(watch_task(alloc, period, id))
}

// The task of telling losses, where streams have the periods that texts say.
fn losses_task(alloc: Global, words: &[&str]) -> Result<Task, WordsError>
    ensures { AnswersWords (losses_of (texts words.now)) result }
{
    let mut periods = Vec::new(alloc);
    for (position, given) in words.iter().enumerate() {
        match read_period(alloc, given) {
            Ok(period) => {
                if periods.push(period).is_err() {
                    return Err(WordsError::Memory);
                }
            }
            Err(PeriodError::PeriodForm) => return Err(WordsError::Period(position)),
            Err(PeriodError::Memory) => return Err(WordsError::Memory),
        }
    }
    Ok(Task::Losses { periods })
}

// The task of the matches of `losses`.
fn losses_met(alloc: Global, matches: &ArgMatches<'_>) -> Result<Task, WordsError>
    ensures { MayAnswer (losses_asked (rows_of (found_of matches.now))) (Some result) }
{
    match matches.get_raw("period") {
        Some(words) => losses_task(alloc, words),
        None => losses_task(alloc, &[]),
    }
}

// The task of a subcommand's name and its matches.
fn task_of(alloc: Global, name: &str, matches: &ArgMatches<'_>) -> Option<Result<Task, WordsError>>
    ensures { MayAnswer (task_asked (name.now, rows_of (found_of matches.now))) result }
{
    match name {
        "show" => Some(Ok(Task::Show)),
        "check" => Some(Ok(Task::Check)),
        "rewrite" => Some(Ok(Task::Rewrite)),
        "blocks" => Some(Ok(Task::Blocks)),
        "replay" => Some(replay_met(alloc, matches)),
        "publish" => Some(Ok(Task::Publish)),
        "watch" => watch_met(alloc, matches),
        "losses" => Some(losses_met(alloc, matches)),
        "import" => Some(Ok(Task::Import)),
        _ => None,
    }
}

// The words are refused by options that exclude each other. A rule of `clap` on them would cost what it promises of the other faults.
fn exclusion(alloc: Global, text: &str) -> WordsError
    ensures { IsExclusion result }
{
    let mut program = Command::new(alloc, "goose").override_usage("goose <COMMAND> [OPTIONS]");
    match program.error(ErrorKind::ArgumentConflict, text) {
        Ok(error) => WordsError::Words(error),
        Err(_) => WordsError::Memory,
    }
}

// The request of a task, where there is one, and its options do not contradict each other.
fn with_these<'a>(
    alloc: Global,
    answer: Result<Task, WordsError>,
    options: Options,
    file: Option<&'a str>,
) -> Result<Request<'a>, WordsError>
    ensures file { IfOk result (λ r. option_map (λ s. s.now) r.file ≡ option_map (λ s. s.now) file.entry) }
    ensures answered { (asked : Asked) → AnswersTask asked answer → contradict options ≡ false → AnswersRequest asked options result }
    ensures excluded { (asked : Asked) → AnswersTask asked answer → contradict options ≡ true → Excludes result }
    ensures refused { (unsaid : Unsaid) → AnswersUnsaid unsaid answer → RefusesUnsaid unsaid result }
{
    let task = answer?;
    match contradiction(options) {
        Some(text) => Err(exclusion(alloc, text)),
        None => Ok(Request {
            task,
            options,
            file,
        }),
    }
}

// The request of a subcommand's name and its matches; none where dates stand beside objects.
fn request_of<'a>(
    alloc: Global,
    name: &str,
    matches: &ArgMatches<'a>,
) -> Option<Result<Request<'a>, WordsError>>
    ensures request { MayGrant (request_asked (name.now, rows_of (found_of matches.now))) result }
    ensures file { IfSome result (λ answer. IfOk answer (λ r. option_map (λ s. s.now) r.file ≡ first_of (codes "read") (rows_of (found_of matches.now)))) }
{
    let options = options_met(matches)?;
    let file = matches.get_str("read");
    match task_of(alloc, name, matches) {
        Some(answer) => Some(with_these(alloc, answer, options, file)),
        None => None,
    }
}

// The request of the subcommand that the words named; none where dates stand beside objects.
fn request_met<'a>(
    alloc: Global,
    matches: &ArgMatches<'a>,
) -> Option<Result<Request<'a>, WordsError>>
    ensures request { MayGrant (option_and_then request_asked (subcommand_rows_of matches.now)) result }
    ensures file { IfSome result (λ answer. IfOk answer (λ r. option_map (λ s. s.now) r.file ≡ option_and_then file_asked (subcommand_rows_of matches.now))) }
{
    match matches.subcommand() {
        Some((name, inner)) => request_of(alloc, name, inner),
        None => None,
    }
}

// Want of memory is told apart from a mistake in the words.
fn refusal(error: clap::Error) -> WordsError
    ensures memory { kind_of error ≡ OutOfMemory → result ≡ WordsError.Memory }
    ensures words { (kind_of error ≢ OutOfMemory) → result ≡ WordsError.Words error }
{
    match error.kind() {
        ErrorKind::OutOfMemory => WordsError::Memory,
        _ => WordsError::Words(error),
    }
}

// The request that the words make.
fn read_line<'a>(alloc: Global, words: &'a [&'a str]) -> Result<Request<'a>, WordsError>
    ensures file { IfOk result (λ r. option_map (λ s. s.now) r.file ≡ file_of_words (texts words.now)) }
    ensures wish { IfOk result (λ r. request_of_words (texts words.now) ≡ Some (Ok (asked_by r.task, r.options))) }
    ensures faultless { IfOk result (λ r. request_faults (texts words.now) ≡ []) }
    ensures taken { takes request_line (texts words.now) ≡ true → is_some (request_of_words (texts words.now)) ≡ true → IfErr result IsNoMistake }
    ensures refused { IfErr result (MayRefuseRequest (texts words.now)) }
{
    let Ok(command) = command(alloc) else {
        return Err(WordsError::Memory);
    };
    match command.try_get_matches_from(words) {
        Ok(matches) => match request_met(alloc, &matches) {
            Some(answer) => answer,
            // A subcommand is required, and each has its task.
            None => Err(exclusion(alloc, EXCLUDED)),
        },
        Err(error) => Err(refusal(error)),
    }
}

// What is known of words once their octets are read: each is text.
fn know_texts(words: &[&str])
    ensures { AreTexts (texts words.now) }
{
    for word in words {
        let _octets = word.as_bytes();
    }
}

/// The task that the words ask for, its options, which the commands `show`, `check`, `blocks`, `replay`, `watch` and `losses` take, `replay`
/// two more than the others, and the file that it is to read, `-r` or `--read`, which all take. The first word is the program's name. Where
/// `replay` has no BLOCK, the task is a replay of no control block: it is for the caller to take those of the file, or to refuse.
///
/// # Errors
///
/// `Words` where the words have a mistake or ask for help or the version; `Block` where they ask for a
/// replay and some text says no control block; `Period` where they ask for losses and some text says no period; `Memory` where memory is
/// refused. An option that is given twice is a mistake, and so is one of another command, or two that exclude each other: `--time` beside
/// `--json`, and `--raw` beside `--skip-other` or `--unwrap`.
pub fn read_request<'a>(alloc: Global, words: &'a [&'a str]) -> Result<Request<'a>, WordsError>
    ensures found { IfOk result (λ r. is_plain (asked_by r.task) ≡ true → AsksWith (texts words.now) (asked_by r.task) r.options (option_map (λ s. s.now) r.file)) }
    ensures file { IfOk result (λ r. option_map (λ s. s.now) r.file ≡ file_of_words (texts words.now)) }
    ensures only { (asked : Asked) (options : Options) (from : Option Text) → AsksWith (texts words.now) asked options from → AnswersAsked asked options from result }
    ensures period { IfOk result (λ r. HasPeriod (asked_by r.task)) }
    ensures request { IfOk result (λ r. request_of_words (texts words.now) ≡ Some (Ok (asked_by r.task, r.options))) }
    ensures faultless { IfOk result (λ r. request_faults (texts words.now) ≡ []) }
    ensures taken { takes_request (texts words.now) ≡ true → IfErr result IsNoMistake }
    ensures refused { IfErr result (MayRefuseRequest (texts words.now)) }
    ensures unsaid { (unsaid : Unsaid) → request_faults (texts words.now) ≡ [] → request_of_words (texts words.now) ≡ Some (Err unsaid) → RefusesUnsaid unsaid result }
{
    know_texts(words);
    read_line(alloc, words)
}

// What is told of a replay without a control block.
const UNNAMED: &str = "the following required arguments were not provided: <BLOCK>...";

// A replay has no control block.
fn unnamed(alloc: Global) -> WordsError
    ensures { IsUnnamed result }
{
    let mut program = Command::new(alloc, "goose").override_usage("goose replay <BLOCK>...");
    match program.error(ErrorKind::MissingRequiredArgument, UNNAMED) {
        Ok(error) => WordsError::Words(error),
        Err(_) => WordsError::Memory,
    }
}

// The task is no replay, or one of a control block at least.
fn names_blocks(task: &Task) -> bool
    ensures { result ≡ names_blocks (asked_by task.now) }
{
    match task {
        Task::Replay(blocks) => !blocks.is_empty(),
        _ => true,
    }
}

/// The task that the words ask for, whatever options stand beside it: the task of [`read_request`], where a replay must have a
/// control block.
///
/// # Errors
///
/// As of [`read_request`], and `Words` for a replay without a BLOCK.
pub fn read_words<'a>(alloc: Global, words: &'a [&'a str]) -> Result<Task, WordsError>
    ensures found { IfOk result (λ t. is_plain (asked_by t) ≡ true → Asks (texts words.now) (asked_by t)) }
    ensures only { (asked : Asked) → Asks (texts words.now) asked → AnswersTask asked result }
    ensures named { IfOk result (λ t. names_blocks (asked_by t) ≡ true) }
    ensures period { IfOk result (λ t. HasPeriod (asked_by t)) }
    ensures task { IfOk result (λ t. task_of_words (texts words.now) ≡ Some (Ok (asked_by t))) }
    ensures faultless { IfOk result (λ t. word_faults (texts words.now) ≡ []) }
    ensures taken { takes_words (texts words.now) ≡ true → IfErr result IsNoMistake }
    ensures refused { IfErr result (MayRefuseWords (texts words.now)) }
    ensures unsaid { (unsaid : Unsaid) → request_faults (texts words.now) ≡ [] → request_of_words (texts words.now) ≡ Some (Err unsaid) → AnswersUnsaid unsaid result }
{
    match read_request(alloc, words) {
        Ok(request) => {
            if names_blocks(&request.task) {
                Ok(request.task)
            } else {
                Err(unnamed(alloc))
            }
        }
        Err(error) => Err(error),
    }
}
