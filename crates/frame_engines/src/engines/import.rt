//! `import`: a capture as a list.
ghost use Rattle.std.specs.Prelude.{◌≡◌, ◌≤◌, ℕ, List, Option, Result, Err, [], false};
ghost use Rattle.list_core.specs.declared.device.InputEnd.{InputEnd};
ghost use Rattle.list_core.specs.Device.{GivesOctets};
ghost use Rattle.capture_core.specs.Capture.{CaptureRecord};
ghost use Rattle.capture_core.specs.Packets.{is_failed_read};
ghost use Rattle.capture_core.specs.RecordAnswers.{ReadsRecord};
ghost use Rattle.capture_core.specs.declared.capture_fault.CaptureFault as fault;
ghost use Rattle.engine_core.specs.computed.EngineStep.{is_failed_write, stops_by};
ghost use Rattle.engine_core.specs.Ending.{ending_by_fault, is_write_fault};
ghost use Rattle.frame_engines.specs.computed.ImportStep.{ImportHalts, ImportWrites};
ghost use Rattle.frame_engines.specs.ImportText.{Imports, ImportsTo, capture_fault_line, left_out_line};

use capture_core::{CaptureFault, CaptureForm, Captured, LONGEST_FRAME, read_header, read_record};
use engine_core::{Ending, Halt, Next, Stopped, ended_by, ending_where};
use list_core::{FrameLines, Sink, Source, put_all};
use std::alloc::Allocator;
use text_core::names::capture_cause_name;
use text_core::short::ShortText;

// The comment on a record that is left out.
fn left_out_comment(number: u64, size: u64) -> ShortText
    ensures { result ≡ left_out_line number size }
{
    let mut comment = ShortText::new();
    comment.put(b" octets left out\n");
    comment.put_decimal(size);
    comment.put(b" of ");
    comment.put_decimal(number);
    comment.put(b"# record ");
    comment
}

// The comment on a fault.
fn fault_comment(fault: CaptureFault) -> ShortText
    ensures { result ≡ capture_fault_line fault }
{
    let mut comment = ShortText::new();
    comment.put(b"\n");
    comment.put(capture_cause_name(fault.cause));
    comment.put(b" capture ");
    comment.put_decimal(fault.number);
    comment.put(b"# ");
    comment
}

// Writes the comment on a fault, with which the text ends.
fn answer_fault<W: Sink>(fault: CaptureFault, writer: &mut W) -> Halt<CaptureFault>
    requires { W.failed writer.old ≡ false }
    ensures writes { (before : ℕ) → ImportHalts before (Err fault) result (W.contents writer.old) (W.contents writer.new) }
    ensures fails { W.failed writer.new ≡ is_failed_write result }
{
    match put_all(writer, fault_comment(fault).as_slice()) {
        Ok(()) => Halt::Fault(fault),
        Err(_) => Halt::WriteFault,
    }
}

// Reads the record behind others and writes its line, or the comment on a fault.
fn answer_record<R: Source, W: Sink>(
    reader: &mut R,
    form: CaptureForm,
    before: u64,
    frame: &mut [u8; LONGEST_FRAME],
    lines: &mut FrameLines,
    writer: &mut W,
) -> Next<CaptureFault>
    requires few { before ≤ 999999 }
    requires works { W.failed writer.old ≡ false }
    ensures step { (answer : Result (Option CaptureRecord) fault.CaptureFault)
        × ReadsRecord form before [] (R.left reader.old) (R.ending reader.old) answer (R.left reader.new) (R.ending reader.new)
        × ImportWrites before answer result (W.contents writer.old) (W.contents writer.new) }
    ensures read_fault { (why : fault.CaptureFault) → result ≡ Next.Stop (Halt.Fault why) → ending_by_fault is_failed_read why ≡ Ending.ReadFault → R.ending reader.new ≡ InputEnd.Failed }
    ensures fails { W.failed writer.new ≡ stops_by is_failed_write result }
{
    match read_record(reader, form, before, frame) {
        Ok(None) => Next::Ended,
        Ok(Some(Captured::Frame { moment, size })) => {
            match lines.write_frame(writer, moment, &frame[..size]) {
                Ok(()) => Next::Wrote(false),
                Err(_) => Next::Stop(Halt::WriteFault),
            }
        }
        Ok(Some(Captured::LeftOut { size })) => {
            match put_all(writer, left_out_comment(before + 1, size as u64).as_slice()) {
                Ok(()) => Next::Wrote(true),
                Err(_) => Next::Stop(Halt::WriteFault),
            }
        }
        Err(fault) => Next::Stop(answer_fault(fault, writer)),
    }
}

// Writes the first line, then each record of the capture in its turn.
fn import_all<R: Source, W: Sink>(reader: &mut R, writer: &mut W) -> (Ending, Option<CaptureFault>)
    requires { W.failed writer.old ≡ false }
    ensures text { (given : List ℕ) × GivesOctets (R.left reader.old) (R.left reader.new) given
        × ImportsTo (R.ending reader.old) result.0 (R.ending reader.new) given (W.contents writer.old) (W.contents writer.new) result.1 }
    ensures read_fault { result.0 ≡ Ending.ReadFault → R.ending reader.new ≡ InputEnd.Failed }
    ensures fault { W.failed writer.new ≡ is_write_fault result.0 }
{
    match put_all(writer, b"V2\n") {
        Ok(()) => {}
        Err(_) => return (Ending::WriteFault, None),
    }
    let form = match read_header(reader) {
        Ok(form) => form,
        Err(fault) => return ended_by(answer_fault(fault, writer)),
    };
    let mut frame = [0u8; LONGEST_FRAME];
    let mut lines = FrameLines::new();
    let mut count = 0;
    let mut found = false;
    'records: loop {
        match answer_record(reader, form, count, &mut frame, &mut lines, writer) {
            Next::Wrote(is_left_out) => {
                found |= is_left_out;
                count += 1;
            }
            Next::Ended => return (ending_where(found), None),
            Next::Stop(halt) => return ended_by(halt),
        }
    }
}

/// Writes a capture as a list of version 2: each record as the line of its frame, or as a comment where its size is
/// not that of a frame in a list; and where the capture has a fault, a comment with it at last.
///
/// Ends with `Findings` where a record was left out, and else with `Done`, unless the capture has a fault.
///
/// The writer has not failed. The whole text is written at `Done`, `Findings`, `InputFault` and `ReadFault`, and a prefix of
/// it at `WriteFault`: docs/PROOFS.md says it in full, under "What a run leaves written". One record is held at a time, on
/// the stack: no memory is taken of the allocator, and `Memory` is never answered.
#[inline(never)]
pub fn import<A: Allocator + Copy, R: Source, W: Sink>(
    alloc: A,
    reader: R,
    writer: &mut W,
) -> (Ending, R)
    requires { W.failed writer.old ≡ false }
    ensures text { (given : List ℕ) × GivesOctets (R.left reader) (R.left result.1) given
        × Imports (R.ending reader) result.0 (R.ending result.1) given (W.contents writer.old) (W.contents writer.new) }
    ensures read_fault { result.0 ≡ Ending.ReadFault → R.ending result.1 ≡ InputEnd.Failed }
    ensures fault { W.failed writer.new ≡ is_write_fault result.0 }
{
    let stopped = import_to_stop(alloc, reader, writer);
    (stopped.ending, stopped.reader)
}

/// As `import`, and hands out the fault by which it ended.
#[inline(never)]
pub fn import_to_stop<A: Allocator + Copy, R: Source, W: Sink>(
    _alloc: A,
    mut reader: R,
    writer: &mut W,
) -> Stopped<R, CaptureFault>
    requires { W.failed writer.old ≡ false }
    ensures text { (given : List ℕ) × GivesOctets (R.left reader) (R.left result.reader) given
        × ImportsTo (R.ending reader) result.ending (R.ending result.reader) given (W.contents writer.old) (W.contents writer.new) result.fault }
    ensures read_fault { result.ending ≡ Ending.ReadFault → R.ending result.reader ≡ InputEnd.Failed }
    ensures fault { W.failed writer.new ≡ is_write_fault result.ending }
{
    let (ending, fault) = import_all(&mut reader, writer);
    Stopped {
        ending,
        fault,
        reader,
    }
}
