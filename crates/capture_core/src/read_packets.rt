//! A capture as an input: its packets are items.
ghost use Rattle.std.specs.Prelude.{◌≡◌};
ghost use Rattle.capture_core.specs.PacketReader.{AnswersPacket, packet_number, packet_state, things_left};
ghost use Rattle.capture_core.specs.Packets.{is_failed_read};

use crate::capture_fault::{CaptureCause, CaptureFault};
use crate::packet_reader::PacketReader;
use list_core::{Event, InputFault, ReadError, ReadItems, Source};
use std::alloc::Allocator;

impl InputFault for CaptureFault {
    type Refusal = CaptureCause;

    ghost refused = { λ number why. record { number = number; cause = why } };

    ghost failed = { λ f. is_failed_read f };

    fn of_refused(number: u64, why: CaptureCause) -> CaptureFault {
        CaptureFault { number, cause: why }
    }

    fn is_failed_read(&self) -> bool {
        match self.cause {
            CaptureCause::ReadFailed => true,
            _ => false,
        }
    }
}

impl<R: Source, A: Allocator + Copy> ReadItems<A> for PacketReader<R, A> {
    type Item = Event<A>;

    type Fault = CaptureFault;

    ghost answers = { λ old answer new. AnswersPacket (packet_state R.left R.ending old) answer (packet_state R.left R.ending new) };

    ghost number = { λ s. packet_number s };

    ghost most = { λ s. things_left (packet_state R.left R.ending s) };

    #[inline(always)]
    fn read_item(
        &mut self,
        alloc: A,
        spare: &mut Option<Event<A>>,
    ) -> Result<Option<Event<A>>, ReadError<CaptureFault>> {
        self.next(alloc, spare)
    }

    fn item_number(&self) -> u64 {
        self.number()
    }
}
