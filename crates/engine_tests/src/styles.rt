//! The engines over events in each style: lines of text, each behind the date of its event, and objects.
ghost use Rattle.std.specs.Prelude.{◌≡◌, false};
ghost use Rattle.list_core.specs.declared.device.InputEnd.{InputEnd};

use crate::engines::{Example, judges_streams, one_block, run, text_of};
use crate::losses;
use crate::losses::tell_losses;
use engine_core::{Ending, Style};
use exchange_engines::{PLAINLY, ReplayManner, replay_over, watch_over};
use frame_engines::{check_over, show_over};
use inventory_engine::blocks_over;
use list_core::{EventLines, ItemReader, Sink, Source};
use object_core::{Counted, Form};
use std::alloc::Allocator;

/// An example, and the style in which it is run over the events of its list; without one it is run by the call over lists.
#[derive(Clone, Copy)]
pub(super) struct Case {
    pub example: Example,
    pub style: Option<Style>,
}

/// The styles beside lines of text.
pub(super) const STYLES: [Style; 2] = [Style::Dated, Style::Lines(Form::Object(Counted::Line))];

/// The examples that are run in each style: of each engine over events, with every kind of line.
pub(super) const OVER_EVENTS: [Example; 11] = [
    Example::Show,
    Example::Floats,
    Example::Check,
    Example::Blocks,
    Example::Replay,
    Example::ReplayedChanges,
    Example::Watch,
    Example::Losses,
    Example::CountedLosses,
    Example::MarkedShow,
    Example::FaultyCheck,
];

/// Those that want no memory in any style.
pub(super) const FREE_OVER_EVENTS: [Example; 5] = [
    Example::QuietShow,
    Example::QuietCheck,
    Example::QuietBlocks,
    Example::QuietWatch,
    Example::QuietLosses,
];

// What the engine writes of its input behind dates.
fn dated_text_of(example: Example) -> &'static [u8] {
    match example {
        Example::Show => {
            b"1970-01-01T00:00:00.000000Z 1 goose 010ccd010001 020000000001 tag=- appid=0001 r1=0000 r2=0000 ref=\"G\" live=2000 set=\"D\" id=\"I\\\"\\\\\" t=0000000000000000 st=1 sq=0 sim=false rev=1 com=false {\"a\\\"b\\\\\" bits:1010 ([int:-5 uint:7] false) bits: oct: utc:600000018000000a} trailer=-\n1970-01-01T00:00:00.001000Z 2 goose 010ccd010001 020000000001 tag=8000 appid=0001 r1=0000 r2=0000 ref=\"G\" live=2000 set=\"D\" id=- t=0000000000000000 st=1 sq=0 sim=false rev=1 com=false {true} trailer=00000000\n1970-01-01T00:00:00.002000Z 3 sv 010ccd040001 020000000001 tag=- appid=4000 r1=0000 r2=0000 {(id=\"S\" set=\"D\" cnt=3998 rev=1 t=600000018000000a synch=2 rate=4000 sample=002a mod=00 f89=07) (id=\"S\" set=- cnt=3998 rev=1 t=- synch=2 rate=- sample=002a mod=- f89=-)} trailer=-\n1970-01-01T00:00:00.003000Z 4 fault 59 EntryCount\n"
        }
        Example::Floats => {
            b"2023-11-14T22:13:20.000000Z 2 goose 010ccd010001 020000000001 tag=- appid=0001 r1=0000 r2=0000 ref=\"G\" live=2000 set=\"D\" id=- t=6553f0ff800000ea st=1 sq=0 sim=false rev=1 com=false {float:0843c80000 float:0bc08f400000000000 float:087fc00000 utc:6553f0ff800000ea} trailer=-\n"
        }
        Example::Check => {
            b"1970-01-01T00:00:00.000000Z 1 fault 1 Truncated\n1970-01-01T00:00:00.002000Z 3 fault 2 Truncated\n"
        }
        Example::Blocks => {
            b"1970-01-01T00:00:00.000000Z 1 block 0001,G,D,,1,1\n1970-01-01T00:00:00.007000Z 8 block-changed 0001,G,D,,2,1\n1970-01-01T00:00:02.007000Z 10 stream id=\"S\" rev=1\n"
        }
        Example::Replay => {
            b"1970-01-01T00:00:00.000000Z 1 act 0 st=1 sq=0 t=0000000000000000 {true}\n1970-01-01T00:00:00.001000Z 2 repeated 0 st=1 sq=0\n1970-01-01T00:00:00.003000Z 4 switched 0\n1970-01-01T00:00:00.003000Z 4 act 0 st=1 sq=0 t=0000000000000000 {true}\n1970-01-01T00:00:00.004000Z 5 refused 0 Simulated\n1970-01-01T00:00:00.005000Z 6 switched 0\n1970-01-01T00:00:00.006000Z 7 act 0 st=3 sq=4 t=0000000000000000 {true}\n1970-01-01T00:00:00.007000Z 8 refused 0 ConfRev\n1970-01-01T00:00:02.006000Z 9 expired 0\n1970-01-01T00:00:02.007000Z 10 sampled\n1970-01-01T00:00:02.008000Z 11 fault 1 Truncated\n"
        }
        Example::ReplayedChanges => {
            b"1970-01-01T00:00:00.000000Z 1 act 0 st=1 sq=0 t=0000000000000000 {true}\n1970-01-01T00:00:00.003000Z 4 switched 0\n1970-01-01T00:00:00.003000Z 4 act 0 st=1 sq=0 t=0000000000000000 {true}\n1970-01-01T00:00:00.004000Z 5 refused 0 Simulated\n1970-01-01T00:00:00.005000Z 6 switched 0\n1970-01-01T00:00:00.006000Z 7 act 0 st=3 sq=4 t=0000000000000000 {true}\n1970-01-01T00:00:00.007000Z 8 refused 0 ConfRev\n1970-01-01T00:00:02.006000Z 9 expired 0\n1970-01-01T00:00:02.008000Z 11 fault 1 Truncated\n"
        }
        Example::Watch => {
            b"1970-01-01T00:00:00.000000Z 1 0 3 first\n1970-01-01T00:00:00.000000Z 1 1 4 next\n1970-01-01T00:00:00.001000Z 2 0 7 skipped 2\n"
        }
        Example::MarkedShow => {
            b"1970-01-01T00:00:00.000001Z 2 clock 1\n1970-01-01T00:00:00.000002Z 3 mode 2 on\n1970-01-01T00:00:00.000003Z 5 clock 3\n"
        }
        Example::FaultyCheck => b"1970-01-01T00:00:00.000000Z 1 not-written\n- 3 list Hex\n",
        Example::Losses => losses::JUDGED_DATED,
        Example::CountedLosses => losses::COUNTED_DATED,
        _ => b"",
    }
}

// What it writes as objects.
fn objects_of(example: Example) -> &'static [u8] {
    match example {
        Example::Show => {
            b"{\"line\":1,\"microseconds\":0,\"time\":\"1970-01-01T00:00:00.000000Z\",\"kind\":\"goose\",\"destination\":\"010ccd010001\",\"source\":\"020000000001\",\"tag\":null,\"appid\":\"0001\",\"reserved1\":\"0000\",\"reserved2\":\"0000\",\"gocbRef\":\"G\",\"timeAllowedtoLive\":2000,\"datSet\":\"D\",\"goID\":\"I\\\"\\\\\",\"t\":\"0000000000000000\",\"tTime\":\"1970-01-01T00:00:00.000000Z\",\"tQuality\":{\"leapSecondsKnown\":false,\"clockFailure\":false,\"clockNotSynchronized\":false,\"timeAccuracy\":0},\"stNum\":1,\"sqNum\":0,\"simulation\":false,\"confRev\":1,\"ndsCom\":false,\"members\":[\"a\\\"b\\\\\",{\"bits\":\"1010\"},{\"structure\":[{\"array\":[{\"int\":-5},{\"uint\":7}]},false]},{\"bits\":\"\"},{\"oct\":\"\"},{\"utc\":\"600000018000000a\",\"time\":\"2021-01-14T08:25:37.500000Z\",\"quality\":{\"leapSecondsKnown\":false,\"clockFailure\":false,\"clockNotSynchronized\":false,\"timeAccuracy\":10}}],\"trailer\":null}\n{\"line\":2,\"microseconds\":1000,\"time\":\"1970-01-01T00:00:00.001000Z\",\"kind\":\"goose\",\"destination\":\"010ccd010001\",\"source\":\"020000000001\",\"tag\":\"8000\",\"appid\":\"0001\",\"reserved1\":\"0000\",\"reserved2\":\"0000\",\"gocbRef\":\"G\",\"timeAllowedtoLive\":2000,\"datSet\":\"D\",\"goID\":null,\"t\":\"0000000000000000\",\"tTime\":\"1970-01-01T00:00:00.000000Z\",\"tQuality\":{\"leapSecondsKnown\":false,\"clockFailure\":false,\"clockNotSynchronized\":false,\"timeAccuracy\":0},\"stNum\":1,\"sqNum\":0,\"simulation\":false,\"confRev\":1,\"ndsCom\":false,\"members\":[true],\"trailer\":\"00000000\"}\n{\"line\":3,\"microseconds\":2000,\"time\":\"1970-01-01T00:00:00.002000Z\",\"kind\":\"sv\",\"destination\":\"010ccd040001\",\"source\":\"020000000001\",\"tag\":null,\"appid\":\"4000\",\"reserved1\":\"0000\",\"reserved2\":\"0000\",\"asdus\":[{\"svID\":\"S\",\"datSet\":\"D\",\"smpCnt\":3998,\"confRev\":1,\"refrTm\":\"600000018000000a\",\"refrTime\":\"2021-01-14T08:25:37.500000Z\",\"refrQuality\":{\"leapSecondsKnown\":false,\"clockFailure\":false,\"clockNotSynchronized\":false,\"timeAccuracy\":10},\"smpSynch\":2,\"smpRate\":4000,\"sample\":\"002a\",\"smpMod\":\"00\",\"field89\":\"07\"},{\"svID\":\"S\",\"datSet\":null,\"smpCnt\":3998,\"confRev\":1,\"refrTm\":null,\"smpSynch\":2,\"smpRate\":null,\"sample\":\"002a\",\"smpMod\":null,\"field89\":null}],\"trailer\":null}\n{\"line\":4,\"microseconds\":3000,\"time\":\"1970-01-01T00:00:00.003000Z\",\"kind\":\"fault\",\"offset\":59,\"error\":\"EntryCount\"}\n"
        }
        Example::Floats => {
            b"{\"line\":2,\"microseconds\":1700000000000000,\"time\":\"2023-11-14T22:13:20.000000Z\",\"kind\":\"goose\",\"destination\":\"010ccd010001\",\"source\":\"020000000001\",\"tag\":null,\"appid\":\"0001\",\"reserved1\":\"0000\",\"reserved2\":\"0000\",\"gocbRef\":\"G\",\"timeAllowedtoLive\":2000,\"datSet\":\"D\",\"goID\":null,\"t\":\"6553f0ff800000ea\",\"tTime\":\"2023-11-14T22:13:19.500000Z\",\"tQuality\":{\"leapSecondsKnown\":true,\"clockFailure\":true,\"clockNotSynchronized\":true,\"timeAccuracy\":10},\"stNum\":1,\"sqNum\":0,\"simulation\":false,\"confRev\":1,\"ndsCom\":false,\"members\":[{\"float\":\"0843c80000\",\"value\":400.0},{\"float\":\"0bc08f400000000000\",\"value\":-1000.0},{\"float\":\"087fc00000\",\"value\":null},{\"utc\":\"6553f0ff800000ea\",\"time\":\"2023-11-14T22:13:19.500000Z\",\"quality\":{\"leapSecondsKnown\":true,\"clockFailure\":true,\"clockNotSynchronized\":true,\"timeAccuracy\":10}}],\"trailer\":null}\n"
        }
        Example::Check => {
            b"{\"line\":1,\"microseconds\":0,\"time\":\"1970-01-01T00:00:00.000000Z\",\"kind\":\"fault\",\"offset\":1,\"error\":\"Truncated\"}\n{\"line\":3,\"microseconds\":2000,\"time\":\"1970-01-01T00:00:00.002000Z\",\"kind\":\"fault\",\"offset\":2,\"error\":\"Truncated\"}\n"
        }
        Example::Blocks => {
            b"{\"line\":1,\"microseconds\":0,\"time\":\"1970-01-01T00:00:00.000000Z\",\"kind\":\"block\",\"text\":\"0001,G,D,,1,1\",\"appid\":\"0001\",\"gocbRef\":\"G\",\"datSet\":\"D\",\"goID\":null,\"confRev\":1,\"entries\":1}\n{\"line\":8,\"microseconds\":7000,\"time\":\"1970-01-01T00:00:00.007000Z\",\"kind\":\"block-changed\",\"text\":\"0001,G,D,,2,1\",\"appid\":\"0001\",\"gocbRef\":\"G\",\"datSet\":\"D\",\"goID\":null,\"confRev\":2,\"entries\":1}\n{\"line\":10,\"microseconds\":2007000,\"time\":\"1970-01-01T00:00:02.007000Z\",\"kind\":\"stream\",\"confRev\":1,\"svID\":\"S\"}\n"
        }
        Example::Replay => {
            b"{\"line\":1,\"microseconds\":0,\"time\":\"1970-01-01T00:00:00.000000Z\",\"kind\":\"act\",\"block\":0,\"appid\":\"0001\",\"gocbRef\":\"G\",\"t\":\"0000000000000000\",\"tTime\":\"1970-01-01T00:00:00.000000Z\",\"tQuality\":{\"leapSecondsKnown\":false,\"clockFailure\":false,\"clockNotSynchronized\":false,\"timeAccuracy\":0},\"delay\":0,\"stNum\":1,\"sqNum\":0,\"members\":[true]}\n{\"line\":2,\"microseconds\":1000,\"time\":\"1970-01-01T00:00:00.001000Z\",\"kind\":\"repeated\",\"block\":0,\"appid\":\"0001\",\"gocbRef\":\"G\",\"stNum\":1,\"sqNum\":0}\n{\"line\":4,\"microseconds\":3000,\"time\":\"1970-01-01T00:00:00.003000Z\",\"kind\":\"switched\",\"block\":0,\"appid\":\"0001\",\"gocbRef\":\"G\"}\n{\"line\":4,\"microseconds\":3000,\"time\":\"1970-01-01T00:00:00.003000Z\",\"kind\":\"act\",\"block\":0,\"appid\":\"0001\",\"gocbRef\":\"G\",\"t\":\"0000000000000000\",\"tTime\":\"1970-01-01T00:00:00.000000Z\",\"tQuality\":{\"leapSecondsKnown\":false,\"clockFailure\":false,\"clockNotSynchronized\":false,\"timeAccuracy\":0},\"delay\":3000,\"stNum\":1,\"sqNum\":0,\"members\":[true]}\n{\"line\":5,\"microseconds\":4000,\"time\":\"1970-01-01T00:00:00.004000Z\",\"kind\":\"refused\",\"block\":0,\"appid\":\"0001\",\"gocbRef\":\"G\",\"reason\":\"Simulated\"}\n{\"line\":6,\"microseconds\":5000,\"time\":\"1970-01-01T00:00:00.005000Z\",\"kind\":\"switched\",\"block\":0,\"appid\":\"0001\",\"gocbRef\":\"G\"}\n{\"line\":7,\"microseconds\":6000,\"time\":\"1970-01-01T00:00:00.006000Z\",\"kind\":\"act\",\"block\":0,\"appid\":\"0001\",\"gocbRef\":\"G\",\"t\":\"0000000000000000\",\"tTime\":\"1970-01-01T00:00:00.000000Z\",\"tQuality\":{\"leapSecondsKnown\":false,\"clockFailure\":false,\"clockNotSynchronized\":false,\"timeAccuracy\":0},\"delay\":6000,\"stNum\":3,\"sqNum\":4,\"members\":[true]}\n{\"line\":8,\"microseconds\":7000,\"time\":\"1970-01-01T00:00:00.007000Z\",\"kind\":\"refused\",\"block\":0,\"appid\":\"0001\",\"gocbRef\":\"G\",\"reason\":\"ConfRev\"}\n{\"line\":9,\"microseconds\":2006000,\"time\":\"1970-01-01T00:00:02.006000Z\",\"kind\":\"expired\",\"block\":0,\"appid\":\"0001\",\"gocbRef\":\"G\"}\n{\"line\":10,\"microseconds\":2007000,\"time\":\"1970-01-01T00:00:02.007000Z\",\"kind\":\"sampled\"}\n{\"line\":11,\"microseconds\":2008000,\"time\":\"1970-01-01T00:00:02.008000Z\",\"kind\":\"fault\",\"offset\":1,\"error\":\"Truncated\"}\n"
        }
        Example::ReplayedChanges => {
            b"{\"line\":1,\"microseconds\":0,\"time\":\"1970-01-01T00:00:00.000000Z\",\"kind\":\"act\",\"block\":0,\"appid\":\"0001\",\"gocbRef\":\"G\",\"t\":\"0000000000000000\",\"tTime\":\"1970-01-01T00:00:00.000000Z\",\"tQuality\":{\"leapSecondsKnown\":false,\"clockFailure\":false,\"clockNotSynchronized\":false,\"timeAccuracy\":0},\"delay\":0,\"stNum\":1,\"sqNum\":0,\"members\":[true]}\n{\"line\":4,\"microseconds\":3000,\"time\":\"1970-01-01T00:00:00.003000Z\",\"kind\":\"switched\",\"block\":0,\"appid\":\"0001\",\"gocbRef\":\"G\"}\n{\"line\":4,\"microseconds\":3000,\"time\":\"1970-01-01T00:00:00.003000Z\",\"kind\":\"act\",\"block\":0,\"appid\":\"0001\",\"gocbRef\":\"G\",\"t\":\"0000000000000000\",\"tTime\":\"1970-01-01T00:00:00.000000Z\",\"tQuality\":{\"leapSecondsKnown\":false,\"clockFailure\":false,\"clockNotSynchronized\":false,\"timeAccuracy\":0},\"delay\":3000,\"stNum\":1,\"sqNum\":0,\"members\":[true]}\n{\"line\":5,\"microseconds\":4000,\"time\":\"1970-01-01T00:00:00.004000Z\",\"kind\":\"refused\",\"block\":0,\"appid\":\"0001\",\"gocbRef\":\"G\",\"reason\":\"Simulated\"}\n{\"line\":6,\"microseconds\":5000,\"time\":\"1970-01-01T00:00:00.005000Z\",\"kind\":\"switched\",\"block\":0,\"appid\":\"0001\",\"gocbRef\":\"G\"}\n{\"line\":7,\"microseconds\":6000,\"time\":\"1970-01-01T00:00:00.006000Z\",\"kind\":\"act\",\"block\":0,\"appid\":\"0001\",\"gocbRef\":\"G\",\"t\":\"0000000000000000\",\"tTime\":\"1970-01-01T00:00:00.000000Z\",\"tQuality\":{\"leapSecondsKnown\":false,\"clockFailure\":false,\"clockNotSynchronized\":false,\"timeAccuracy\":0},\"delay\":6000,\"stNum\":3,\"sqNum\":4,\"members\":[true]}\n{\"line\":8,\"microseconds\":7000,\"time\":\"1970-01-01T00:00:00.007000Z\",\"kind\":\"refused\",\"block\":0,\"appid\":\"0001\",\"gocbRef\":\"G\",\"reason\":\"ConfRev\"}\n{\"line\":9,\"microseconds\":2006000,\"time\":\"1970-01-01T00:00:02.006000Z\",\"kind\":\"expired\",\"block\":0,\"appid\":\"0001\",\"gocbRef\":\"G\"}\n{\"line\":11,\"microseconds\":2008000,\"time\":\"1970-01-01T00:00:02.008000Z\",\"kind\":\"fault\",\"offset\":1,\"error\":\"Truncated\"}\n"
        }
        Example::Watch => {
            b"{\"line\":1,\"microseconds\":0,\"time\":\"1970-01-01T00:00:00.000000Z\",\"kind\":\"first\",\"asdu\":0,\"smpCnt\":3}\n{\"line\":1,\"microseconds\":0,\"time\":\"1970-01-01T00:00:00.000000Z\",\"kind\":\"next\",\"asdu\":1,\"smpCnt\":4}\n{\"line\":2,\"microseconds\":1000,\"time\":\"1970-01-01T00:00:00.001000Z\",\"kind\":\"skipped\",\"asdu\":0,\"smpCnt\":7,\"missing\":2}\n"
        }
        Example::MarkedShow => {
            b"{\"line\":2,\"microseconds\":1,\"time\":\"1970-01-01T00:00:00.000001Z\",\"kind\":\"clock\"}\n{\"line\":3,\"microseconds\":2,\"time\":\"1970-01-01T00:00:00.000002Z\",\"kind\":\"mode\",\"mode\":\"on\"}\n{\"line\":5,\"microseconds\":3,\"time\":\"1970-01-01T00:00:00.000003Z\",\"kind\":\"clock\"}\n"
        }
        Example::FaultyCheck => {
            b"{\"line\":1,\"microseconds\":0,\"time\":\"1970-01-01T00:00:00.000000Z\",\"kind\":\"not-written\"}\n{\"line\":3,\"kind\":\"list\",\"error\":\"Hex\"}\n"
        }
        Example::Losses => losses::JUDGED_OBJECTS,
        Example::CountedLosses => losses::COUNTED_OBJECTS,
        _ => b"",
    }
}

/// What the engine writes of its input.
pub(super) fn text_of_case(case: Case) -> &'static [u8] {
    match case.style {
        None | Some(Style::Lines(Form::Text)) => text_of(case.example),
        Some(Style::Lines(Form::Object(_))) => objects_of(case.example),
        Some(Style::Dated) => dated_text_of(case.example),
    }
}

/// How the last line ends where a read fails.
pub(super) fn end_at_failed_read(case: Case) -> &'static [u8] {
    match case.style {
        Some(Style::Lines(Form::Object(_))) => b"\"error\":\"ReadFailed\"}\n",
        _ => b" ReadFailed\n",
    }
}

// Simulated frames from the start, and changes alone.
const CHANGES: ReplayManner = ReplayManner {
    simulates: true,
    changes_alone: true,
};

/// Replays over events with one block, simulated frames from the start and changes alone.
pub(super) fn replay_changes<A: Allocator + Copy, R: Source, W: Sink>(
    alloc: A,
    style: Style,
    events: ItemReader<R, EventLines>,
    writer: &mut W,
) -> (Ending, R)
    requires works { W.failed writer.old ≡ false }
{
    replay_one_over(alloc, style, CHANGES, events, writer)
}

// Replays over events with one block. Want of memory for the block counts as the run's.
fn replay_one_over<A: Allocator + Copy, R: Source, W: Sink>(
    alloc: A,
    style: Style,
    manner: ReplayManner,
    events: ItemReader<R, EventLines>,
    writer: &mut W,
) -> (Ending, R)
    requires works { W.failed writer.old ≡ false }
{
    match one_block(alloc) {
        Some(blocks) => replay_over(
            alloc,
            style,
            manner,
            events,
            blocks,
            &mut [false],
            writer,
        ).into_source(),
        None => (Ending::Memory, events.into_reader()),
    }
}

// Runs the engine over the events of a list in a style.
fn run_over<A: Allocator + Copy, R: Source, W: Sink>(
    example: Example,
    style: Style,
    alloc: A,
    reader: R,
    writer: &mut W,
) -> (Ending, R)
    requires works { W.failed writer.old ≡ false }
{
    let events = ItemReader::new(reader, EventLines::First);
    match example {
        Example::Check | Example::FaultyCheck | Example::QuietCheck => check_over(
            alloc, style, events, writer,
        ).into_source(),
        Example::Blocks | Example::QuietBlocks => blocks_over(
            alloc, style, events, writer,
        ).into_source(),
        Example::Replay => replay_one_over(alloc, style, PLAINLY, events, writer),
        Example::ReplayedChanges => replay_changes(alloc, style, events, writer),
        Example::Watch | Example::QuietWatch => watch_over(
            alloc, style, events, 9, b"S", writer,
        ).into_source(),
        Example::Losses | Example::CountedLosses | Example::QuietLosses => {
            let are_judged = judges_streams(example);
            tell_losses(alloc, style, events, are_judged, writer)
        }
        _ => show_over(alloc, style, events, writer).into_source(),
    }
}

/// Runs the engine.
pub(super) fn run_case<A: Allocator + Copy, R: Source, W: Sink>(
    case: Case,
    alloc: A,
    reader: R,
    writer: &mut W,
) -> (Ending, R)
    requires open { R.ending reader ≡ InputEnd.Open }
    requires works { W.failed writer.old ≡ false }
{
    match case.style {
        Some(style) => run_over(case.example, style, alloc, reader, writer),
        None => run(case.example, alloc, reader, writer),
    }
}
