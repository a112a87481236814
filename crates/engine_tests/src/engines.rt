//! The nine engines, each with inputs, and what it writes of them.
ghost use Rattle.std.specs.Prelude.{◌≡◌, false};
ghost use Rattle.list_core.specs.declared.device.InputEnd.{InputEnd};

use crate::losses;
use crate::losses::{AT_END, tell_losses};
use crate::styles::replay_changes;
use engine_core::Style;
use goose_cmd::{Ending, blocks, check, import, publish, read_block, replay, rewrite, show, watch};
use list_core::{EventLines, ItemReader, Sink, Source};
use object_core::Form;
use std::alloc::Allocator;
use subscribe_core::Block;

/// An engine, and which input it is given: one without a fault of its lines; one that ends by a fault, of which a list is
/// `FAULTY`; clock moments and a mode, `QUIET`, of which `show` and `rewrite` write lines; one that wants no memory; or a frame
/// of floating-point numbers.
#[derive(Clone, Copy)]
pub(super) enum Example {
    Show,
    Rewrite,
    Check,
    Blocks,
    Publish,
    Replay,
    Watch,
    Import,
    Losses,
    CountedLosses,
    FaultyShow,
    FaultyRewrite,
    FaultyCheck,
    FaultyBlocks,
    FaultyReplay,
    FaultyWatch,
    FaultyLosses,
    FaultyPublish,
    RefusedPublish,
    MarkedShow,
    MarkedRewrite,
    QuietShow,
    QuietRewrite,
    QuietCheck,
    QuietBlocks,
    QuietPublish,
    QuietReplay,
    QuietWatch,
    QuietLosses,
    EmptyReplay,
    ReplayedChanges,
    CutImport,
    Floats,
}

/// Those of which something is written beside the version.
pub(super) const EXAMPLES: [Example; 23] = [
    Example::Show,
    Example::Rewrite,
    Example::Check,
    Example::Blocks,
    Example::Publish,
    Example::Replay,
    Example::Watch,
    Example::Import,
    Example::Losses,
    Example::CountedLosses,
    Example::FaultyShow,
    Example::FaultyRewrite,
    Example::FaultyCheck,
    Example::FaultyBlocks,
    Example::FaultyReplay,
    Example::FaultyWatch,
    Example::FaultyLosses,
    Example::FaultyPublish,
    Example::RefusedPublish,
    Example::MarkedShow,
    Example::MarkedRewrite,
    Example::CutImport,
    Example::Floats,
];

/// Those that want no memory.
pub(super) const FREE: [Example; 9] = [
    Example::QuietShow,
    Example::QuietRewrite,
    Example::QuietCheck,
    Example::QuietBlocks,
    Example::QuietPublish,
    Example::QuietWatch,
    Example::QuietLosses,
    Example::Import,
    Example::CutImport,
];

// Four frames in written form: with a goID and members of many kinds, of which texts have quotes; with a tag and a trailer;
// of Sampled Values, one ASDU of all fields and one of few; and with a wrong count of entries.
const FRAMES: &[u8] =
    b"F 0 010ccd01000102000000000188b80001005d000000006153800147810207d0820144830349225c840800000000000000008501018601008701008801018901008a0106ab268a046122625c840204a0a20ba1068501fb86010783010084010089009108600000018000000a\nF 1 010ccd0100010200000000018100800088b80001003500000000612b800147810207d0820144840800000000000000008501018601008701008801018901008a0101ab038301ff00000000\nF 2 010ccd04000102000000000188ba40000052000000006048800102a243302b80015381014482020f9e8304000000018408600000018000000a85010286020fa08702002a880100890107301480015382020f9e8304000000018501028702002a\nF 3 010ccd01000102000000000188b80001003500000000612b800147810207d0820144840800000000000000008501018601008701008801018901008a0102ab038301ff\n";

// A list that ends by a fault: a frame with a boolean that is not in written form, one of Sampled Values, and an odd count
// of digits.
const FAULTY: &[u8] =
    b"F 0 010ccd01000102000000000188b80001003500000000612b800147810207d0820144840800000000000000008501018601008701008801018901008a0101ab03830101\nF 1 010ccd04000102000000000188ba4000002800000000601e800101a2193017800153820200038304000000018501028702002a880100\nF 2 0\nC 3\n";

// A list of a version, a clock moment, the mode, a comment and another clock moment.
const QUIET: &[u8] = b"V2\nC 1\nM 2 on\n# nothing\nC 3\n";

// A frame of a day in 2023: a binary32, a binary64, what is no number, and a time whose quality has all flags, as its t has.
const FLOATS: &[u8] =
    b"V2\nF 1700000000000000 010ccd01000102000000000188b80001005500000000614b800147810207d082014484086553f0ff800000ea8501018601008701008801018901008a0104ab2387050843c8000087090bc08f4000000000008705087fc0000091086553f0ff800000ea\n";

// A list without events.
const EMPTY: &[u8] = b"# nothing\n\n";

// A publisher without texts, which is asked for a frame before its first change.
const UNCHANGED: &[u8] =
    b"control,010ccd010001,020000000001,,0001,,,,1,1,0,0,1\nstep,10,2000\nstep,20,2000\npoll,5\n";

// What the engine is given.
pub(super) fn input_of(example: Example) -> &'static [u8] {
    match example {
        Example::Show | Example::Rewrite => FRAMES,
        Example::Floats => FLOATS,
        Example::Check => b"F 0 00\nC 1\nF 2 0000\n",
        Example::Publish => {
            b"control,010ccd010001,020000000001,,0001,G,D,,1,1,0,0,1\nstep,10,2000\nstep,1000,3000\nchange,0,0000000000000000,8301ff\npoll,9\npoll,10\npoll,1009\npoll,1010\nchange,1500,0000000000000000,830100\n"
        }
        Example::Replay | Example::ReplayedChanges | Example::Blocks => {
            b"F 0 010ccd01000102000000000188b80001003500000000612b800147810207d0820144840800000000000000008501018601008701008801018901008a0101ab038301ff\nF 1 010ccd01000102000000000188b80001003500000000612b800147810207d0820144840800000000000000008501018601008701008801018901008a0101ab038301ff\nM 2 on\nF 3 010ccd01000102000000000188b80001003500000000612b800147810203e8820144840800000000000000008501018601008701ff8801018901008a0101ab038301ff\nF 4 010ccd01000102000000000188b80001003500000000612b800147810207d0820144840800000000000000008501038601008701008801018901008a0101ab038301ff\nM 5 off\nF 6 010ccd01000102000000000188b80001003500000000612b800147810207d0820144840800000000000000008501038601048701008801018901008a0101ab038301ff\nF 7 010ccd01000102000000000188b80001003500000000612b800147810207d0820144840800000000000000008501038601058701008801028901008a0101ab038301ff\nC 2006\nF 2007 010ccd04000102000000000188ba4000002800000000601e800101a2193017800153820200038304000000018501028702002a880100\nF 2008 00\n"
        }
        Example::Watch => {
            b"F 0 010ccd04000102000000000188ba40000041000000006037800102a2323017800153820200038304000000018501028702002a8801003017800153820200048304000000018501028702002a880100\nF 1 010ccd04000102000000000188ba4000002800000000601e800101a2193017800153820200078304000000018501028702002a880100\n"
        }
        Example::Import => {
            b"\xd4\xc3\xb2\xa1\x02\x00\x04\x00\x00\x00\x00\x00\x00\x00\x00\x00\xff\xff\x00\x00\x01\x00\x00\x00\x00\x00\x00\x00\x00\x00\x00\x00\x00\x00\x00\x00\x00\x00\x00\x00\x05\x00\x00\x00\x06\x00\x00\x00\x03\x00\x00\x00\x09\x00\x00\x00\xaa\xbb\xcc"
        }
        Example::FaultyShow
        | Example::FaultyRewrite
        | Example::FaultyCheck
        | Example::FaultyBlocks
        | Example::FaultyReplay
        | Example::FaultyWatch
        | Example::FaultyLosses => FAULTY,
        Example::FaultyPublish => {
            b"control,010ccd010001,020000000001,,0001,G,D,,1,1,0,0,1\nstep,10,2000\nchange,0,0000000000000000,8301ff\nchange,5,0000000000000000,8300\npoll,9\n"
        }
        Example::RefusedPublish => {
            b"control,010ccd010001,020000000001,,0001,G,D,,1,1,0,0,1\nstep,10,2000\nchange,0,0000000000000000,8301ff\nchange,5,0000000000000000,8301ff8301ff\npoll,9\n"
        }
        Example::MarkedShow
        | Example::MarkedRewrite
        | Example::QuietCheck
        | Example::QuietBlocks
        | Example::QuietReplay
        | Example::QuietWatch
        | Example::QuietLosses => QUIET,
        Example::Losses | Example::CountedLosses => losses::LIST,
        Example::QuietShow | Example::QuietRewrite | Example::EmptyReplay => EMPTY,
        Example::QuietPublish => UNCHANGED,
        Example::CutImport => {
            b"\xd4\xc3\xb2\xa1\x02\x00\x04\x00\x00\x00\x00\x00\x00\x00\x00\x00\xff\xff\x00\x00\x01\x00\x00\x00\x05\x00\x00\x00\x06\x00\x00\x00\x03\x00\x00\x00\x09\x00\x00\x00\xaa\xbb\xcc\x00"
        }
    }
}

// What the engine writes of its input.
pub(super) fn text_of(example: Example) -> &'static [u8] {
    match example {
        Example::Show => {
            b"1 goose 010ccd010001 020000000001 tag=- appid=0001 r1=0000 r2=0000 ref=\"G\" live=2000 set=\"D\" id=\"I\\\"\\\\\" t=0000000000000000 st=1 sq=0 sim=false rev=1 com=false {\"a\\\"b\\\\\" bits:1010 ([int:-5 uint:7] false) bits: oct: utc:600000018000000a} trailer=-\n2 goose 010ccd010001 020000000001 tag=8000 appid=0001 r1=0000 r2=0000 ref=\"G\" live=2000 set=\"D\" id=- t=0000000000000000 st=1 sq=0 sim=false rev=1 com=false {true} trailer=00000000\n3 sv 010ccd040001 020000000001 tag=- appid=4000 r1=0000 r2=0000 {(id=\"S\" set=\"D\" cnt=3998 rev=1 t=600000018000000a synch=2 rate=4000 sample=002a mod=00 f89=07) (id=\"S\" set=- cnt=3998 rev=1 t=- synch=2 rate=- sample=002a mod=- f89=-)} trailer=-\n4 fault 59 EntryCount\n"
        }
        Example::Rewrite => {
            b"V2\nF 0 010ccd01000102000000000188b80001005d000000006153800147810207d0820144830349225c840800000000000000008501018601008701008801018901008a0106ab268a046122625c840204a0a20ba1068501fb86010783010084010089009108600000018000000a\nF 1000 010ccd0100010200000000018100800088b80001003500000000612b800147810207d0820144840800000000000000008501018601008701008801018901008a0101ab038301ff00000000\nF 2000 010ccd04000102000000000188ba40000052000000006048800102a243302b80015381014482020f9e8304000000018408600000018000000a85010286020fa08702002a880100890107301480015382020f9e8304000000018501028702002a\nF 3000 010ccd01000102000000000188b80001003500000000612b800147810207d0820144840800000000000000008501018601008701008801018901008a0102ab038301ff\n"
        }
        Example::Floats => {
            b"2 goose 010ccd010001 020000000001 tag=- appid=0001 r1=0000 r2=0000 ref=\"G\" live=2000 set=\"D\" id=- t=6553f0ff800000ea st=1 sq=0 sim=false rev=1 com=false {float:0843c80000 float:0bc08f400000000000 float:087fc00000 utc:6553f0ff800000ea} trailer=-\n"
        }
        Example::Check => b"1 fault 1 Truncated\n3 fault 2 Truncated\n",
        Example::Publish => {
            b"V2\nF 0 010ccd01000102000000000188b80001003500000000612b800147810207d0820144840800000000000000008501018601008701008801018901008a0101ab038301ff\nF 10000 010ccd01000102000000000188b80001003500000000612b80014781020bb8820144840800000000000000008501018601018701008801018901008a0101ab038301ff\nF 1010000 010ccd01000102000000000188b80001003500000000612b80014781020bb8820144840800000000000000008501018601028701008801018901008a0101ab038301ff\nF 1500000 010ccd01000102000000000188b80001003500000000612b800147810207d0820144840800000000000000008501028601008701008801018901008a0101ab03830100\n"
        }
        Example::Replay => {
            b"1 act 0 st=1 sq=0 t=0000000000000000 {true}\n2 repeated 0 st=1 sq=0\n4 switched 0\n4 act 0 st=1 sq=0 t=0000000000000000 {true}\n5 refused 0 Simulated\n6 switched 0\n7 act 0 st=3 sq=4 t=0000000000000000 {true}\n8 refused 0 ConfRev\n9 expired 0\n10 sampled\n11 fault 1 Truncated\n"
        }
        Example::ReplayedChanges => {
            b"1 act 0 st=1 sq=0 t=0000000000000000 {true}\n4 switched 0\n4 act 0 st=1 sq=0 t=0000000000000000 {true}\n5 refused 0 Simulated\n6 switched 0\n7 act 0 st=3 sq=4 t=0000000000000000 {true}\n8 refused 0 ConfRev\n9 expired 0\n11 fault 1 Truncated\n"
        }
        Example::Blocks => {
            b"1 block 0001,G,D,,1,1\n8 block-changed 0001,G,D,,2,1\n10 stream id=\"S\" rev=1\n"
        }
        Example::Watch => b"1 0 3 first\n1 1 4 next\n2 0 7 skipped 2\n",
        Example::Import => b"V2\n# record 1 of 0 octets left out\nF 5000006 aabbcc\n",
        Example::FaultyShow => {
            b"1 goose 010ccd010001 020000000001 tag=- appid=0001 r1=0000 r2=0000 ref=\"G\" live=2000 set=\"D\" id=- t=0000000000000000 st=1 sq=0 sim=false rev=1 com=false {true} trailer=-\n2 sv 010ccd040001 020000000001 tag=- appid=4000 r1=0000 r2=0000 {(id=\"S\" set=- cnt=3 rev=1 t=- synch=2 rate=- sample=002a mod=00 f89=-)} trailer=-\n3 list Hex\n"
        }
        Example::FaultyRewrite => {
            b"V2\nF 0 010ccd01000102000000000188b80001003500000000612b800147810207d0820144840800000000000000008501018601008701008801018901008a0101ab038301ff\nF 1000 010ccd04000102000000000188ba4000002800000000601e800101a2193017800153820200038304000000018501028702002a880100\n# 3 list Hex\n"
        }
        Example::FaultyCheck => b"1 not-written\n3 list Hex\n",
        Example::FaultyBlocks => { b"1 block 0001,G,D,,1,1\n2 stream id=\"S\" rev=1\n3 list Hex\n" }
        Example::FaultyReplay => {
            b"1 act 0 st=1 sq=0 t=0000000000000000 {true}\n2 sampled\n3 list Hex\n"
        }
        Example::FaultyWatch => b"2 0 3 first\n3 list Hex\n",
        Example::FaultyLosses => b"3 list Hex\n",
        Example::Losses => losses::JUDGED,
        Example::CountedLosses => losses::COUNTED,
        Example::FaultyPublish => {
            b"V2\nF 0 010ccd01000102000000000188b80001003500000000612b800147810207d0820144840800000000000000008501018601008701008801018901008a0101ab038301ff\n# 4 script Members 1 BooleanLength\n"
        }
        Example::RefusedPublish => {
            b"V2\nF 0 010ccd01000102000000000188b80001003500000000612b800147810207d0820144840800000000000000008501018601008701008801018901008a0101ab038301ff\n# 4 script EntriesDiffer\n"
        }
        Example::MarkedShow => b"2 clock 1\n3 mode 2 on\n5 clock 3\n",
        Example::MarkedRewrite => b"V2\nC 1\nM 2 on\nC 3\n",
        Example::QuietRewrite | Example::QuietPublish => b"V2\n",
        Example::CutImport => b"V2\nF 5000006 aabbcc\n# 2 capture CaptureShort\n",
        Example::QuietShow
        | Example::QuietCheck
        | Example::QuietBlocks
        | Example::QuietReplay
        | Example::QuietWatch
        | Example::QuietLosses
        | Example::EmptyReplay => b"",
    }
}

// With what it ends then.
pub(super) fn ending_of(example: Example) -> Ending {
    match example {
        Example::Rewrite
        | Example::Check
        | Example::Watch
        | Example::Import
        | Example::Losses
        | Example::CountedLosses => Ending::Findings,
        Example::FaultyShow
        | Example::FaultyRewrite
        | Example::FaultyCheck
        | Example::FaultyBlocks
        | Example::FaultyReplay
        | Example::FaultyWatch
        | Example::FaultyLosses
        | Example::FaultyPublish
        | Example::RefusedPublish
        | Example::CutImport => Ending::InputFault,
        _ => Ending::Done,
    }
}

/// Behind which line of its input each line of its text is written, 0 for none; of a capture, behind which read where each
/// gives one octet. `AT_END` is behind the end of the input.
pub(super) fn places_of(example: Example) -> &'static [usize] {
    match example {
        Example::Show => &[1, 2, 3, 4],
        Example::Rewrite => &[0, 1, 2, 3, 4],
        Example::Check | Example::FaultyCheck => &[1, 3],
        Example::Publish => &[0, 4, 6, 8, 9],
        Example::Replay => &[1, 2, 4, 4, 5, 6, 7, 8, 9, 10, 11],
        Example::ReplayedChanges => &[1, 4, 4, 5, 6, 7, 8, 9, 11],
        Example::Blocks => &[1, 8, 10],
        Example::Watch => &[1, 1, 2],
        Example::FaultyShow | Example::FaultyBlocks | Example::FaultyReplay => &[1, 2, 3],
        Example::FaultyRewrite => &[0, 1, 2, 3],
        Example::FaultyWatch => &[2, 3],
        Example::FaultyLosses => &[3],
        Example::Losses => &[
            3, 3, 4, 5, 5, 6, 6, 6, 6, 6, 8, AT_END, AT_END, AT_END, AT_END,
        ],
        Example::CountedLosses => &[3, 3, 4, 5, 5, 6, 8, AT_END, AT_END, AT_END],
        Example::FaultyPublish | Example::RefusedPublish => &[0, 3, 4],
        Example::Floats => &[2],
        Example::MarkedShow => &[2, 3, 5],
        Example::MarkedRewrite => &[0, 2, 3, 5],
        Example::Import => &[0, 40, 59],
        Example::CutImport => &[0, 43, 45],
        _ => &[],
    }
}

// Whether its text begins with `V2`, which is written before anything is read.
pub(super) fn begins_with_version(example: Example) -> bool {
    matches!(
        example,
        Example::Rewrite
            | Example::Publish
            | Example::Import
            | Example::FaultyRewrite
            | Example::FaultyPublish
            | Example::RefusedPublish
            | Example::MarkedRewrite
            | Example::CutImport
    )
}

/// The block of the examples, or none where memory is refused.
pub(super) fn one_block<A: Allocator + Copy>(alloc: A) -> Option<Vec<Block<A>, A>> {
    let Ok(block) = read_block(alloc, "0001,G,D,,1,1") else {
        return None;
    };
    let mut blocks = Vec::new(alloc);
    match blocks.push(block) {
        Ok(()) => Some(blocks),
        Err(_) => None,
    }
}

// Replays with one block. Want of memory for the block counts as the run's.
fn replay_one<A: Allocator + Copy, R: Source, W: Sink>(
    alloc: A,
    reader: R,
    writer: &mut W,
) -> (Ending, R)
    requires open { R.ending reader ≡ InputEnd.Open }
    requires works { W.failed writer.old ≡ false }
{
    match one_block(alloc) {
        Some(blocks) => replay(alloc, reader, blocks, writer),
        None => (Ending::Memory, reader),
    }
}

/// Whether streams have a period, where `losses` is run. The list of periods takes memory, so that none is given where none is to
/// be asked for.
pub(super) fn judges_streams(example: Example) -> bool {
    matches!(example, Example::Losses | Example::FaultyLosses)
}

// Runs the engine.
pub(super) fn run<A: Allocator + Copy, R: Source, W: Sink>(
    example: Example,
    alloc: A,
    reader: R,
    writer: &mut W,
) -> (Ending, R)
    requires open { R.ending reader ≡ InputEnd.Open }
    requires works { W.failed writer.old ≡ false }
{
    match example {
        Example::Show
        | Example::FaultyShow
        | Example::MarkedShow
        | Example::QuietShow
        | Example::Floats => show(alloc, reader, writer),
        Example::Rewrite
        | Example::FaultyRewrite
        | Example::MarkedRewrite
        | Example::QuietRewrite => rewrite(alloc, reader, writer),
        Example::Check | Example::FaultyCheck | Example::QuietCheck => check(alloc, reader, writer),
        Example::Blocks | Example::FaultyBlocks | Example::QuietBlocks => blocks(
            alloc, reader, writer,
        ),
        Example::Publish
        | Example::FaultyPublish
        | Example::RefusedPublish
        | Example::QuietPublish => publish(alloc, reader, writer),
        Example::Replay | Example::FaultyReplay | Example::QuietReplay | Example::EmptyReplay =>
            replay_one(alloc, reader, writer),
        Example::ReplayedChanges => {
            let events = ItemReader::new(reader, EventLines::First);
            replay_changes(alloc, Style::Lines(Form::Text), events, writer)
        }
        Example::Watch | Example::FaultyWatch | Example::QuietWatch => watch(
            alloc, reader, 9, b"S", writer,
        ),
        Example::Losses | Example::CountedLosses | Example::FaultyLosses | Example::QuietLosses => {
            let events = ItemReader::new(reader, EventLines::First);
            let are_judged = judges_streams(example);
            tell_losses(alloc, Style::Lines(Form::Text), events, are_judged, writer)
        }
        Example::Import | Example::CutImport => import(alloc, reader, writer),
    }
}
