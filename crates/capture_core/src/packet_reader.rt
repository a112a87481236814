//! The packets of a capture, one at a time.
ghost use Rattle.std.specs.Prelude.{◌≡◌, ◌<◌, ◌≤◌, ◌+◌, [], None, IfOk, IfSome};
ghost use Rattle.list_core.specs.declared.device.InputEnd.{InputEnd};
ghost use Rattle.tally_core.specs.Tally.{no_tally};

use crate::at_hand::{take_frame, take_record};
use crate::block::read_block;
use crate::body::Said;
use crate::capture_fault::{CaptureCause, CaptureFault, ended_in};
use crate::filling::{Filled, fill};
use crate::form::{CaptureForm, OctetOrder};
use crate::interface::Interface;
use crate::packet_block::Section;
use crate::packet_record::read_packet_record;
use crate::start::{Start, read_start};
use list_core::{Event, EventKind, InputEnd, ReadError, Source};
use std::alloc::{AllocError, Allocator};
use tally_core::KindTally;

/// The most records or blocks of a capture.
const MOST: u64 = 999_999_999_999_999_998;

/// The most blocks behind the first.
const MOST_BEHIND: u64 = 999_999_999_999_999_997;

/// What of a capture was read.
#[derive(Clone, Copy)]
pub(crate) enum Progress {
    /// Nothing.
    Nothing,
    /// The header of the classic form, and some records.
    Records(CaptureForm),
    /// Some blocks of pcapng. The section's numbers have this order.
    Blocks(OctetOrder),
    /// All of it, or all to its first fault.
    Over(Option<CaptureFault>),
    /// It was given up, since memory was wanted.
    GivenUp,
}

/// What a step of a reader gave.
#[derive(Drop)]
pub(crate) enum Step<A: Allocator> {
    /// What was read has no packet.
    Passed,
    /// The answer to the caller.
    Answered(Result<Option<Event<A>>, ReadError<CaptureFault>>),
}

/// Reads a capture packet by packet, in the classic form of libpcap or in pcapng. It holds the interfaces of one section, and counts the
/// packets that were not captured on Ethernet.
#[derive(Drop)]
pub struct PacketReader<R, A: Allocator> {
    reader: R,
    progress: Progress,
    interfaces: Vec<Interface, A>,
    moment: u64,
    answered: u64,
    most: u64,
    other_links: KindTally,
    ghost few: { answered + most ≤ 999999999999999998 },
}

impl<R: Source, A: Allocator + Copy> PacketReader<R, A> {
    ghost use Rattle.list_core.specs.ReadItems.{told_as};
    ghost use Rattle.capture_core.specs.PacketReader.{AnswersPacket, at_start, packet_number, packet_number_told, packet_state, things_left};
    ghost use Rattle.capture_core.specs.computed.Steps.{GivesEvent, IsAsBefore, IsReading, Settles, Steps};

    /// A reader of the capture that the source gives. It takes no memory yet.
    pub fn new(alloc: A, reader: R) -> Self
        ensures left { (packet_state R.left R.ending result).left ≡ R.left reader }
        ensures ending { (packet_state R.left R.ending result).ending ≡ R.ending reader }
        ensures answered { (packet_state R.left R.ending result).answered ≡ 0 }
        ensures stage { (packet_state R.left R.ending result).stage ≡ at_start }
        ensures number { packet_number result ≡ 0 }
        ensures none { (packet_state R.left R.ending result).other_links ≡ no_tally }
    {
        PacketReader {
            reader,
            progress: Progress::Nothing,
            interfaces: Vec::new(alloc),
            moment: 0,
            answered: 0,
            most: MOST,
            other_links: KindTally::new(),
        }
    }

    /// The source as it stands.
    pub fn into_reader(self) -> R
        ensures left { R.left result ≡ (packet_state R.left R.ending self).left }
        ensures ending { R.ending result ≡ (packet_state R.left R.ending self).ending }
    {
        self.into_parts().0
    }

    /// The source as it stands, and how many of the packets answered were not captured on Ethernet.
    pub fn into_parts(self) -> (R, KindTally)
        ensures left { R.left result.0 ≡ (packet_state R.left R.ending self).left }
        ensures ending { R.ending result.0 ≡ (packet_state R.left R.ending self).ending }
        ensures other_links { result.1 ≡ (packet_state R.left R.ending self).other_links }
    {
        let PacketReader {
            reader,
            progress: _,
            interfaces: _,
            moment: _,
            answered: _,
            most: _,
            other_links,
        } = self;
        (reader, other_links)
    }

    /// How many of the packets answered were not captured on Ethernet, by their link types.
    pub fn other_links(&self) -> &KindTally
        ensures { result.now ≡ (packet_state R.left R.ending self.now).other_links }
    {
        &self.other_links
    }

    /// The number of the packet last answered or refused, 0 before the first.
    pub fn number(&self) -> u64
        ensures { result ≡ packet_number self.now }
    {
        match self.progress {
            Progress::Nothing => 0,
            Progress::Over(Some(fault)) => fault.number,
            _ => self.answered,
        }
    }

    /// A section begins, whose numbers have this order. It has no interface yet.
    fn begin_section(&mut self, order: OctetOrder)
        ensures reader { self.new.reader ≡ self.old.reader }
        ensures progress { self.new.progress ≡ Progress.Blocks order }
        ensures interfaces { self.new.interfaces.items ≡ [] }
        ensures moment { self.new.moment ≡ self.old.moment }
        ensures answered { self.new.answered ≡ self.old.answered }
        ensures most { self.new.most ≡ self.old.most }
        ensures other_links { self.new.other_links ≡ self.old.other_links }
    {
        self.progress = Progress::Blocks(order);
        self.interfaces.clear();
    }

    /// Reads the header of the classic form, or the first block.
    fn begin(&mut self) -> Step<A>
        requires { self.old.progress ≡ Progress.Nothing }
        ensures { Steps (packet_state R.left R.ending self.old) result (packet_number self.old) (packet_state R.left R.ending self.new) (packet_number self.new) }
    {
        match read_start(&mut self.reader) {
            Ok(Start::Records(form)) => {
                self.progress = Progress::Records(form);
                self.answered = 0;
                self.most = MOST;
                Step::Passed
            }
            Ok(Start::Blocks(order)) => {
                self.begin_section(order);
                self.moment = 0;
                self.answered = 0;
                self.most = MOST_BEHIND;
                Step::Passed
            }
            Err(fault) => {
                self.progress = Progress::Over(Some(fault));
                Step::Answered(Err(ReadError::Fault(fault)))
            }
        }
    }

    /// Reads a record.
    fn read_record(&mut self, alloc: A, spare: &mut Option<Event<A>>, form: CaptureForm) -> Step<A>
        requires records { self.old.progress ≡ Progress.Records form }
        requires room { 0 < self.old.most }
        ensures { Steps (packet_state R.left R.ending self.old) result (packet_number self.old) (packet_state R.left R.ending self.new) (packet_number self.new) }
    {
        match read_packet_record(&mut self.reader, alloc, spare, form, self.answered + 1) {
            Ok(Some(event)) => {
                self.answered += 1;
                self.most -= 1;
                Step::Answered(Ok(Some(event)))
            }
            Ok(None) => {
                self.progress = Progress::Over(None);
                Step::Answered(Ok(None))
            }
            Err(ReadError::Fault(fault)) => {
                self.progress = Progress::Over(Some(fault));
                Step::Answered(Err(ReadError::Fault(fault)))
            }
            Err(ReadError::Memory(error)) => {
                self.progress = Progress::GivenUp;
                Step::Answered(Err(ReadError::Memory(error)))
            }
        }
    }

    /// Reads a block where it is at hand and a frame, and answers its event. Where it does not, nothing was read.
    #[inline(always)]
    fn take_block(
        &mut self,
        alloc: A,
        spare: &mut Option<Event<A>>,
        order: OctetOrder,
    ) -> Option<Event<A>>
        requires order { self.old.progress ≡ Progress.Blocks order }
        requires room { 0 < self.old.most }
        requires open { R.ending self.old.reader ≡ InputEnd.Open }
        ensures taken { IfSome result (λ e. GivesEvent (packet_state R.left R.ending self.old) e (packet_number self.old) (packet_state R.left R.ending self.new) (packet_number self.new)) }
        ensures kept { result ≡ None → IsAsBefore (packet_state R.left R.ending self.old) (packet_number self.old) (packet_state R.left R.ending self.new) (packet_number self.new) }
    {
        let section = Section {
            order,
            interfaces: self.interfaces.as_slice(),
            moment: self.moment,
        };
        let Some(event) = take_frame(&mut self.reader, alloc, spare, section) else {
            return None;
        };
        self.moment = event.moment;
        self.answered += 1;
        self.most -= 1;
        Some(event)
    }

    /// Reads a record where it is at hand and a frame, and answers its event. Where it does not, nothing was read.
    #[inline(always)]
    fn take_record(
        &mut self,
        alloc: A,
        spare: &mut Option<Event<A>>,
        form: CaptureForm,
    ) -> Option<Event<A>>
        requires records { self.old.progress ≡ Progress.Records form }
        requires room { 0 < self.old.most }
        requires open { R.ending self.old.reader ≡ InputEnd.Open }
        ensures taken { IfSome result (λ e. GivesEvent (packet_state R.left R.ending self.old) e (packet_number self.old) (packet_state R.left R.ending self.new) (packet_number self.new)) }
        ensures kept { result ≡ None → IsAsBefore (packet_state R.left R.ending self.old) (packet_number self.old) (packet_state R.left R.ending self.new) (packet_number self.new) }
    {
        let Some(event) = take_record(&mut self.reader, alloc, spare, form) else {
            return None;
        };
        self.answered += 1;
        self.most -= 1;
        Some(event)
    }

    /// Reads a record or a block where it is at hand and a frame, as nearly always, and answers its event. Where it does not, nothing
    /// was read.
    #[inline(always)]
    fn take_at_hand(&mut self, alloc: A, spare: &mut Option<Event<A>>) -> Option<Event<A>>
        ensures taken { IfSome result (λ e. GivesEvent (packet_state R.left R.ending self.old) e (packet_number self.old) (packet_state R.left R.ending self.new) (packet_number self.new)) }
        ensures kept { result ≡ None → IsAsBefore (packet_state R.left R.ending self.old) (packet_number self.old) (packet_state R.left R.ending self.new) (packet_number self.new) }
    {
        match self.reader.ending() {
            InputEnd::Open if self.most > 0 => match self.progress {
                Progress::Blocks(order) => self.take_block(alloc, spare, order),
                Progress::Records(form) => self.take_record(alloc, spare, form),
                _ => None,
            },
            _ => None,
        }
    }

    /// The next packet's event, or None at the capture's end.
    #[inline(always)]
    pub fn next(
        &mut self,
        alloc: A,
        spare: &mut Option<Event<A>>,
    ) -> Result<Option<Event<A>>, ReadError<CaptureFault>>
        ensures packet { AnswersPacket (packet_state R.left R.ending self.old) (told_as (packet_number self.new) result) (packet_state R.left R.ending self.new) }
        ensures number { packet_number self.new ≡ packet_number_told (told_as (packet_number self.new) result) (packet_number self.old) }
        ensures fewer { IfOk result (λ o. IfSome o (λ _. things_left (packet_state R.left R.ending self.new) < things_left (packet_state R.left R.ending self.old))) }
    {
        match self.take_at_hand(alloc, spare) {
            Some(event) => Ok(Some(event)),
            None => self.next_by_steps(alloc, spare),
        }
    }

    /// The same, part by part.
    #[inline(never)]
    fn next_by_steps(
        &mut self,
        alloc: A,
        spare: &mut Option<Event<A>>,
    ) -> Result<Option<Event<A>>, ReadError<CaptureFault>>
        ensures packet { AnswersPacket (packet_state R.left R.ending self.old) (told_as (packet_number self.new) result) (packet_state R.left R.ending self.new) }
        ensures number { packet_number self.new ≡ packet_number_told (told_as (packet_number self.new) result) (packet_number self.old) }
        ensures fewer { IfOk result (λ o. IfSome o (λ _. things_left (packet_state R.left R.ending self.new) < things_left (packet_state R.left R.ending self.old))) }
    {
        'steps: loop {
            match self.step(alloc, spare) {
                Step::Passed => {}
                Step::Answered(answer) => return answer,
            }
        }
    }

    /// Reads a block.
    fn read_next_block(
        &mut self,
        alloc: A,
        spare: &mut Option<Event<A>>,
        order: OctetOrder,
    ) -> Step<A>
        requires order { self.old.progress ≡ Progress.Blocks order }
        requires room { 0 < self.old.most }
        ensures { Steps (packet_state R.left R.ending self.old) result (packet_number self.old) (packet_state R.left R.ending self.new) (packet_number self.new) }
    {
        let section = Section {
            order,
            interfaces: self.interfaces.as_slice(),
            moment: self.moment,
        };
        match read_block(&mut self.reader, alloc, spare, section, self.answered + 1) {
            Ok(Some(said)) => self.settle(said),
            Ok(None) => {
                self.progress = Progress::Over(None);
                Step::Answered(Ok(None))
            }
            Err(ReadError::Fault(fault)) => {
                self.progress = Progress::Over(Some(fault));
                Step::Answered(Err(ReadError::Fault(fault)))
            }
            Err(ReadError::Memory(error)) => {
                self.progress = Progress::GivenUp;
                Step::Answered(Err(ReadError::Memory(error)))
            }
        }
    }

    /// Settles that a packet was captured at this moment on a link of this type, which is not Ethernet: only time has passed. Never inlined, so
    /// that packets of Ethernet take no step for it.
    #[inline(never)]
    fn settle_other(&mut self, moment: u64, link_type: u16) -> Step<A>
        requires room { 0 < self.old.most }
        ensures reader { self.new.reader ≡ self.old.reader }
        ensures said { Settles self.old (Said.CapturesOther moment link_type) result self.new }
    {
        self.moment = moment;
        self.answered += 1;
        self.most -= 1;
        self.other_links.count(self.answered, link_type);
        Step::Answered(Ok(Some(Event {
            moment,
            kind: EventKind::Clock,
        })))
    }

    /// Settles what a block said.
    fn settle(&mut self, said: Said<A>) -> Step<A>
        requires room { 0 < self.old.most }
        ensures reader { self.new.reader ≡ self.old.reader }
        ensures said { Settles self.old said result self.new }
    {
        match said {
            Said::Captures(event) => {
                self.moment = event.moment;
                self.answered += 1;
                self.most -= 1;
                return Step::Answered(Ok(Some(event)));
            }
            Said::CapturesOther { moment, link_type } => {
                return self.settle_other(moment, link_type);
            }
            Said::Begins(order) => self.begin_section(order),
            Said::Describes(interface) => match self.interfaces.push(interface) {
                Ok(()) => {}
                Err(error) => {
                    self.progress = Progress::GivenUp;
                    return Step::Answered(Err(ReadError::Memory(error.into())));
                }
            },
            Said::Passes => {}
        }
        self.most -= 1;
        Step::Passed
    }

    /// Where no more may come, the capture's end, or that there is more.
    fn read_last(&mut self) -> Step<A>
        requires reading { IsReading self.old.progress }
        requires none { self.old.most ≡ 0 }
        ensures { Steps (packet_state R.left R.ending self.old) result (packet_number self.old) (packet_state R.left R.ending self.new) (packet_number self.new) }
    {
        let mut octet = [0u8; 1];
        let number = self.answered + 1;
        let fault = match fill(&mut self.reader, &mut octet) {
            Filled::Whole => Some(CaptureCause::TooManyRecords.in_record(number)),
            Filled::Short(_) => ended_in(number, self.reader.ending()),
        };
        self.progress = Progress::Over(fault);
        match fault {
            None => Step::Answered(Ok(None)),
            Some(fault) => Step::Answered(Err(ReadError::Fault(fault))),
        }
    }

    /// Reads a header, a record or a block, or tells again how the capture stopped.
    fn step(&mut self, alloc: A, spare: &mut Option<Event<A>>) -> Step<A>
        ensures { Steps (packet_state R.left R.ending self.old) result (packet_number self.old) (packet_state R.left R.ending self.new) (packet_number self.new) }
    {
        match self.progress {
            Progress::Nothing => self.begin(),
            Progress::Over(None) => Step::Answered(Ok(None)),
            Progress::Over(Some(fault)) => Step::Answered(Err(ReadError::Fault(fault))),
            Progress::GivenUp => Step::Answered(Err(ReadError::Memory(AllocError))),
            Progress::Records(form) => {
                if self.most == 0 {
                    self.read_last()
                } else {
                    self.read_record(alloc, spare, form)
                }
            }
            Progress::Blocks(order) => {
                if self.most == 0 {
                    self.read_last()
                } else {
                    self.read_next_block(alloc, spare, order)
                }
            }
        }
    }
}
