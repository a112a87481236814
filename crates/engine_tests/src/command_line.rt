//! The words of the command line. The texts of help and of refusals are tested through the program.

use crate::blocks::{Fields, has_fields};
use clap::error::ErrorKind;
use goose_cmd::{Options, Request, Task, WordsError, Writing, read_request, read_words};
use loss_core::period_of;

// The name of the task that these words ask for, or `none`.
fn task_named(rt: &HostRuntime, words: &[&str]) -> &'static str {
    match read_words(rt.alloc(), words) {
        Ok(Task::Show) => "show",
        Ok(Task::Check) => "check",
        Ok(Task::Rewrite) => "rewrite",
        Ok(Task::Blocks) => "blocks",
        Ok(Task::Publish) => "publish",
        Ok(Task::Import) => "import",
        Ok(Task::Replay(_)) => "replay",
        Ok(Task::Watch { .. }) => "watch",
        Ok(Task::Losses { .. }) => "losses",
        Err(_) => "none",
    }
}

// Words that ask for a task, and which one.
const TASKS: [(&[&str], &str); 11] = [
    (&["goose", "show"], "show"),
    (&["goose", "check"], "check"),
    (&["goose", "rewrite"], "rewrite"),
    (&["goose", "blocks"], "blocks"),
    (&["goose", "publish"], "publish"),
    (&["goose", "import"], "import"),
    (&["goose", "replay", "0001,G,D,,1,1"], "replay"),
    (
        &["goose", "watch", "--period", "4000", "--id", "S"],
        "watch",
    ),
    // A mark of no more flags may follow.
    (&["goose", "show", "--"], "show"),
    // Options may stand beside it, and what is missing is a task as any other.
    (&["goose", "show", "--capture", "--json"], "show"),
    (&["goose", "losses"], "losses"),
];

#[test]
fn each_subcommand(rt: HostRuntime) {
    for (words, wanted) in TASKS {
        assert!(rt; task_named(&rt, words) == wanted, "{wanted}");
    }
}

// Whether these words ask for a replay of two blocks with these fields.
fn are_blocks(rt: &HostRuntime, words: &[&str], wanted: &[Fields; 2]) -> bool {
    match read_words(rt.alloc(), words) {
        Ok(Task::Replay(blocks)) => match blocks.as_slice() {
            [first, second] => has_fields(first, &wanted[0]) && has_fields(second, &wanted[1]),
            _ => false,
        },
        _ => false,
    }
}

// Two blocks.
const BLOCKS: [Fields; 2] = [
    Fields {
        app_id: 1,
        gocb_ref: b"G",
        dat_set: b"D",
        go_id: None,
        conf_rev: 1,
        entries: 1,
    },
    Fields {
        app_id: 0xAB02,
        gocb_ref: b"H",
        dat_set: b"E",
        go_id: Some(b"I"),
        conf_rev: 2,
        entries: 3,
    },
];

#[test]
fn a_replay_has_its_blocks_in_order(rt: HostRuntime) {
    let words = ["goose", "replay", "0001,G,D,,1,1", "aB02,H,E,I,2,3"];
    assert!(rt; are_blocks(&rt, words.as_slice(), &BLOCKS));
    // A mark may stand among them.
    let words = ["goose", "replay", "0001,G,D,,1,1", "--", "aB02,H,E,I,2,3"];
    assert!(rt; are_blocks(&rt, words.as_slice(), &BLOCKS));
}

// The position of the text that these words are refused by, or 99.
fn bad_block(rt: &HostRuntime, words: &[&str]) -> usize {
    match read_words(rt.alloc(), words) {
        Err(WordsError::Block(position)) => position,
        _ => 99,
    }
}

// Words of which a text is no block, and its position. Blocks given twice are found by the replay itself; an empty text is no
// block; and behind the mark a word that begins with a hyphen is a text.
const BAD_BLOCKS: [(&[&str], usize); 5] = [
    (&["goose", "replay", "1,G,D,,1,1"], 0),
    (&["goose", "replay", "0001,G,D,,1,1", "0002,G,D,,1"], 1),
    (&["goose", "replay", "x", "0001,G,D,,1,1", "y"], 0),
    (
        &["goose", "replay", "0001,G,D,,1,1", "0001,G,D,,1,1", ""],
        2,
    ),
    (&["goose", "replay", "0001,G,D,,1,1", "--", "-x"], 1),
];

#[test]
fn the_first_text_that_is_no_block(rt: HostRuntime) {
    let mut case = 0u32;
    for (words, wanted) in BAD_BLOCKS {
        assert!(rt; bad_block(&rt, words) == wanted, "case {case}");
        case = case.saturating_add(1);
    }
}

// Whether these words ask for a watch of this period over the stream with this svID.
fn is_watch(rt: &HostRuntime, words: &[&str], wanted: u32, stream: &str) -> bool {
    match read_words(rt.alloc(), words) {
        Ok(Task::Watch { period, id }) => period == wanted && id.as_slice() == stream.as_bytes(),
        _ => false,
    }
}

// Words that ask for a watch, its period and its stream.
const WATCHES: [(&[&str], u32, &str); 6] = [
    (
        &["goose", "watch", "--period", "4000", "--id", "S"],
        4000,
        "S",
    ),
    (
        &["goose", "watch", "--id", "MU 01", "--period", "2"],
        2,
        "MU 01",
    ),
    (
        &["goose", "watch", "--period=65536", "--id=--period"],
        65536,
        "--period",
    ),
    (&["goose", "watch", "--id", "", "--period=007"], 7, ""),
    (&["goose", "watch", "--id=", "--period", "+5"], 5, ""),
    (
        &["goose", "watch", "--id", "-", "--period", "5", "--"],
        5,
        "-",
    ),
];

#[test]
fn a_watch_has_its_period_and_its_stream(rt: HostRuntime) {
    for (words, period, stream) in WATCHES {
        assert!(rt; is_watch(&rt, words, period, stream), "{period}");
    }
}

// Whether these words are refused by this kind of error.
fn is_refused_by(rt: &HostRuntime, words: &[&str], kind: ErrorKind) -> bool {
    match read_words(rt.alloc(), words) {
        Err(WordsError::Words(error)) => error.kind() == kind,
        _ => false,
    }
}

// Words that are refused, and by which kind of error: no mistake is told as want of memory.
const REFUSALS: [(&[&str], ErrorKind); 18] = [
    (&[], ErrorKind::MissingSubcommand),
    (&["goose"], ErrorKind::MissingSubcommand),
    (&["goose", "fly"], ErrorKind::InvalidSubcommand),
    // Options exclude each other, and a command that writes lists takes none.
    (
        &["goose", "show", "--json", "--time"],
        ErrorKind::ArgumentConflict,
    ),
    (
        &["goose", "check", "--raw", "-r", "a", "--skip-other"],
        ErrorKind::ArgumentConflict,
    ),
    (
        &["goose", "replay", "--unwrap", "0001,G,D,,1,1", "--raw"],
        ErrorKind::ArgumentConflict,
    ),
    (
        &["goose", "rewrite", "--capture"],
        ErrorKind::UnknownArgument,
    ),
    (&["goose", "--loud", "show"], ErrorKind::UnknownArgument),
    (&["goose", "show", "list"], ErrorKind::UnknownArgument),
    (
        &["goose", "replay", "x", "--loud"],
        ErrorKind::UnknownArgument,
    ),
    (&["goose", "replay"], ErrorKind::MissingRequiredArgument),
    (
        &["goose", "watch", "--id", "S"],
        ErrorKind::MissingRequiredArgument,
    ),
    (
        &["goose", "watch", "--period", "5", "--id"],
        ErrorKind::InvalidValue,
    ),
    (
        &["goose", "watch", "--period=5", "--period=5", "--id=S"],
        ErrorKind::ArgumentConflict,
    ),
    (
        &["goose", "watch", "--period", "1", "--id", "S"],
        ErrorKind::ValueValidation,
    ),
    (&["goose", "-h", "fly"], ErrorKind::DisplayHelp),
    (&["goose", "watch", "--help"], ErrorKind::DisplayHelp),
    (&["goose", "-V"], ErrorKind::DisplayVersion),
];

#[test]
fn each_refusal_has_its_kind(rt: HostRuntime) {
    let mut case = 0u32;
    for (words, kind) in REFUSALS {
        assert!(rt; is_refused_by(&rt, words, kind), "case {case}");
        case = case.saturating_add(1);
    }
}

// Whether these are the options: on the input, and whether lines have dates.
fn are_options(options: &Options, is_capture: bool, skips_other: bool, is_dated: bool) -> bool {
    let has_dates = match options.writes {
        Writing::Lines | Writing::Objects => false,
        Writing::Dated => true,
    };
    options.is_capture == is_capture && options.skips_other == skips_other && has_dates == is_dated
}

// The name of the task that these words ask for with these options, or `none`.
fn request_named(
    rt: &HostRuntime,
    words: &[&str],
    is_capture: bool,
    skips_other: bool,
) -> &'static str {
    match read_request(rt.alloc(), words) {
        Ok(Request { task, options, .. })
            if options.is_capture == is_capture && options.skips_other == skips_other => {
            task.name()
        }
        _ => "none",
    }
}

// Words that ask for a task with options: its name, and whether `--capture` and `--skip-other` are given.
const REQUESTS: [(&[&str], &str, bool, bool); 16] = [
    (&["goose", "show"], "show", false, false),
    (
        &["goose", "losses", "--unwrap", "--skip-other"],
        "losses",
        false,
        true,
    ),
    (&["goose", "show", "--capture"], "show", true, false),
    (
        &["goose", "check", "--skip-other", "--capture"],
        "check",
        true,
        true,
    ),
    (
        &["goose", "blocks", "--capture", "--skip-other", "--"],
        "blocks",
        true,
        true,
    ),
    (&["goose", "rewrite"], "rewrite", false, false),
    (&["goose", "publish", "--"], "publish", false, false),
    (&["goose", "import"], "import", false, false),
    // An option stands anywhere among the texts, before the mark.
    (
        &["goose", "replay", "--skip-other", "0001,G,D,,1,1"],
        "replay",
        false,
        true,
    ),
    (
        &[
            "goose",
            "replay",
            "0001,G,D,,1,1",
            "--capture",
            "0002,G,D,,1,1",
        ],
        "replay",
        true,
        false,
    ),
    (
        &["goose", "replay", "--capture", "--", "0001,G,D,,1,1"],
        "replay",
        true,
        false,
    ),
    (
        &["goose", "watch", "--id", "S", "--capture", "--period", "5"],
        "watch",
        true,
        false,
    ),
    (
        &[
            "goose",
            "watch",
            "--skip-other",
            "--id=S",
            "--period=5",
            "--capture",
        ],
        "watch",
        true,
        true,
    ),
    // What stands behind `=` is the value of an option, whatever it is.
    (
        &["goose", "watch", "--id=--capture", "--period", "5"],
        "watch",
        false,
        false,
    ),
    // The first word is the program's name.
    (&["--capture", "show"], "show", false, false),
    // Without a BLOCK there is none in the task.
    (
        &["goose", "replay", "-r", "FILE", "--capture"],
        "replay",
        true,
        false,
    ),
];

#[test]
fn a_request_has_its_options(rt: HostRuntime) {
    let mut case = 0u32;
    for (words, wanted, is_capture, skips_other) in REQUESTS {
        assert!(rt;
            request_named(&rt, words, is_capture, skips_other) == wanted,
            "case {case}"
        );
        case = case.saturating_add(1);
    }
}

// The file that these words name, if they ask for something.
fn file_named<'a>(rt: &HostRuntime, words: &'a [&'a str]) -> Option<&'a str> {
    match read_request(rt.alloc(), words) {
        Ok(request) => request.file,
        Err(_) => None,
    }
}

// Words, and the file that they name.
const FILES: [(&[&str], Option<&str>); 6] = [
    (&["goose", "show"], None),
    (&["goose", "show", "-r", "a.pcap"], Some("a.pcap")),
    (&["goose", "losses", "--time", "-ra.pcap"], Some("a.pcap")),
    (&["goose", "import", "--read=a.pcap"], Some("a.pcap")),
    (&["goose", "replay", "0001,G,D,,1,1", "-r", "-"], Some("-")),
    // Given twice.
    (&["goose", "show", "-r", "a", "--read", "b"], None),
];

#[test]
fn a_request_names_its_file(rt: HostRuntime) {
    let mut case = 0u32;
    for (words, wanted) in FILES {
        assert!(rt; file_named(&rt, words) == wanted, "case {case}");
        case = case.saturating_add(1);
    }
}

// Whether these words ask for what is missing on a capture, and a stream with the svID S and one with MU01 have these periods or none.
fn are_losses(rt: &HostRuntime, words: &[&str], s: Option<u32>, mu: Option<u32>) -> bool {
    match read_request(rt.alloc(), words) {
        Ok(Request { task, options, .. }) => match task {
            Task::Losses { periods } => {
                period_of(periods.as_slice(), b"S") == s
                    && period_of(periods.as_slice(), b"MU01") == mu
                    && options.is_capture
            }
            _ => false,
        },
        Err(_) => false,
    }
}

// Words that ask for what is missing on a capture, and the periods of two streams.
const LOSSES: [(&[&str], Option<u32>, Option<u32>); 8] = [
    (&["goose", "losses", "--capture"], None, None),
    (
        &["goose", "losses", "--capture", "--skip-other", "--"],
        None,
        None,
    ),
    (
        &["goose", "losses", "--period", "2", "--capture"],
        Some(2),
        Some(2),
    ),
    (
        &["goose", "losses", "--capture", "--period=65536"],
        Some(65_536),
        Some(65_536),
    ),
    (
        &[
            "goose",
            "losses",
            "--time",
            "--period=+5",
            "--capture",
            "--",
        ],
        Some(5),
        Some(5),
    ),
    (
        &["goose", "losses", "--period", "MU01=4000", "--capture"],
        None,
        Some(4000),
    ),
    (
        &[
            "goose",
            "losses",
            "--period",
            "MU01=2",
            "--period=9",
            "--capture",
            "--period=MU01=3",
            "--period",
            "7",
        ],
        Some(7),
        Some(3),
    ),
    (
        &[
            "goose",
            "losses",
            "--capture",
            "--period=A=S=4",
            "--period==5",
        ],
        None,
        None,
    ),
];

#[test]
fn losses_have_the_periods_of_the_words(rt: HostRuntime) {
    let mut case = 0u32;
    for (words, s, mu) in LOSSES {
        assert!(rt; are_losses(&rt, words, s, mu), "case {case}");
        case = case.saturating_add(1);
    }
}

// The position of the text of a period that these words are refused by, or 99.
fn bad_period(rt: &HostRuntime, words: &[&str]) -> usize {
    match read_request(rt.alloc(), words) {
        Err(WordsError::Period(position)) => position,
        _ => 99,
    }
}

// Words of which a text says no period, and its position.
const NO_PERIODS: [(&[&str], usize); 6] = [
    (&["goose", "losses", "--period", "1"], 0),
    (&["goose", "losses", "--period=65537"], 0),
    (&["goose", "losses", "--period=5", "--period", "S="], 1),
    (&["goose", "losses", "--period=S", "--period=S=x"], 0),
    (&["goose", "losses", "--period=", "--capture"], 0),
    (
        &[
            "goose",
            "losses",
            "--period=A=2",
            "--period=B=3",
            "--period=C=1",
        ],
        2,
    ),
];

#[test]
fn a_text_that_says_no_period_has_a_position(rt: HostRuntime) {
    let mut case = 0u32;
    for (words, position) in NO_PERIODS {
        assert!(rt; bad_period(&rt, words) == position, "case {case}");
        case = case.saturating_add(1);
    }
}

// Words that ask for dates, on a capture.
const DATED: [&[&str]; 6] = [
    &["goose", "show", "--time", "--capture"],
    &["goose", "check", "--capture", "--time", "--"],
    &["goose", "blocks", "--capture", "--time"],
    &["goose", "replay", "0001,G,D,,1,1", "--time", "--capture"],
    &[
        "goose",
        "replay",
        "--capture",
        "--time",
        "--",
        "0001,G,D,,1,1",
    ],
    &[
        "goose",
        "watch",
        "--time",
        "--id=S",
        "--period=5",
        "--capture",
    ],
];

// Whether these words ask for a task on a capture, with dates.
fn is_dated(rt: &HostRuntime, words: &[&str]) -> bool {
    match read_request(rt.alloc(), words) {
        Ok(request) => are_options(&request.options, true, false, true),
        Err(_) => false,
    }
}

#[test]
fn a_request_has_dates(rt: HostRuntime) {
    let mut case = 0u32;
    for words in DATED {
        assert!(rt; is_dated(&rt, words), "case {case}");
        case = case.saturating_add(1);
    }
}

// Whether these words ask for a task that skips other frames, and for objects.
fn has_objects(rt: &HostRuntime, words: &[&str]) -> bool {
    match read_request(rt.alloc(), words) {
        Ok(request) => {
            request.options.skips_other && matches!(&request.options.writes, Writing::Objects)
        }
        Err(_) => false,
    }
}

#[test]
fn a_request_has_objects(rt: HostRuntime) {
    let words = ["goose", "check", "--skip-other", "--json"];
    assert!(rt; has_objects(&rt, words.as_slice()));
}

// Whether the options are refused where they are offered, by this kind of error.
fn is_no_request(rt: &HostRuntime, words: &[&str], kind: ErrorKind) -> bool {
    match read_request(rt.alloc(), words) {
        Err(WordsError::Words(error)) => error.kind() == kind,
        _ => false,
    }
}

// Words with options that are refused, and by which kind of error.
const NO_REQUESTS: [(&[&str], ErrorKind); 19] = [
    (
        &["goose", "rewrite", "--capture"],
        ErrorKind::UnknownArgument,
    ),
    (
        &["goose", "publish", "--skip-other"],
        ErrorKind::UnknownArgument,
    ),
    (
        &["goose", "import", "--capture"],
        ErrorKind::UnknownArgument,
    ),
    (&["goose", "--capture", "show"], ErrorKind::UnknownArgument),
    (&["goose", "show", "--cap"], ErrorKind::UnknownArgument),
    // Behind the mark no word is an option.
    (
        &["goose", "show", "--", "--capture"],
        ErrorKind::UnknownArgument,
    ),
    (
        &["goose", "show", "--capture", "--capture"],
        ErrorKind::ArgumentConflict,
    ),
    (
        &["goose", "blocks", "--skip-other=yes"],
        ErrorKind::TooManyValues,
    ),
    (
        &["goose", "watch", "--capture", "--id=S"],
        ErrorKind::MissingRequiredArgument,
    ),
    (
        &["goose", "watch", "--id", "--capture", "--period", "5"],
        ErrorKind::InvalidValue,
    ),
    (&["goose", "rewrite", "--time"], ErrorKind::UnknownArgument),
    (&["goose", "import", "--json"], ErrorKind::UnknownArgument),
    // Dates and objects exclude each other, also where a text says no block.
    (
        &["goose", "watch", "--json", "--id=S", "--period=5", "--time"],
        ErrorKind::ArgumentConflict,
    ),
    (
        &["goose", "replay", "--time", "x", "--json"],
        ErrorKind::ArgumentConflict,
    ),
    (
        &["goose", "blocks", "--time", "--time"],
        ErrorKind::ArgumentConflict,
    ),
    (&["goose", "show", "--help"], ErrorKind::DisplayHelp),
    (
        &["goose", "losses", "0001,G,D,,1,1"],
        ErrorKind::UnknownArgument,
    ),
    (
        &["goose", "losses", "--period=5", "--json", "--time"],
        ErrorKind::ArgumentConflict,
    ),
    (&["goose", "losses", "--help"], ErrorKind::DisplayHelp),
];

#[test]
fn each_refused_request_has_its_kind(rt: HostRuntime) {
    let mut case = 0u32;
    for (words, kind) in NO_REQUESTS {
        assert!(rt; is_no_request(&rt, words, kind), "case {case}");
        case = case.saturating_add(1);
    }
}

// The position of the text that these words are refused by where options are offered, or 99.
fn bad_block_of_request(rt: &HostRuntime, words: &[&str]) -> usize {
    match read_request(rt.alloc(), words) {
        Err(WordsError::Block(position)) => position,
        _ => 99,
    }
}

#[test]
fn an_option_is_no_text_of_a_block(rt: HostRuntime) {
    let words = ["goose", "replay", "--capture", "0001,G,D,,1,1", "x"];
    assert!(rt; bad_block_of_request(&rt, words.as_slice()) == 1);
    // Behind the mark it is one, and says no block.
    let words = ["goose", "replay", "0001,G,D,,1,1", "--", "--capture"];
    assert!(rt; bad_block_of_request(&rt, words.as_slice()) == 1);
}
