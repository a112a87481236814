//! An APDU in memory of its own, from where it stands.

ghost use Rattle.std.specs.Prelude.{◌≡◌, [], IfOk, IfSome, IsOk};
ghost use Rattle.pdu_core.specs.Memory.{GooseNeedsNoMemory};
ghost use Rattle.pdu_core.specs.Views.{octets_if, pdu_of};

use crate::goose::GoosePdu;
use crate::view::GooseView;
use mms_data::{Octets, ValueList};
use std::alloc::{AllocError, Allocator};

// Octets that may be absent, in memory of their own.
pub(crate) fn own_if<A: Allocator>(
    alloc: A,
    octets: Option<&[u8]>,
) -> Result<Option<Octets<A>>, AllocError>
    ensures value { IfOk result (λ o. o ≡ octets_if octets.entry) }
    ensures none { IfSome (octets_if octets.entry) (λ o. o ≡ []) → IsOk result }
{
    match octets {
        Some(octets) => Ok(Some(Octets::try_from_slice(alloc, octets)?)),
        None => Ok(None),
    }
}

impl<'a> GooseView<'a> {
    /// The APDU that the view stands for, in memory of its own.
    ///
    /// # Errors
    ///
    /// `AllocError` where memory is refused.
    pub fn to_pdu<A: Allocator + Copy>(&self, alloc: A) -> Result<GoosePdu<A>, AllocError>
        ensures value { IfOk result (λ p. p ≡ pdu_of self.now) }

        // An APDU that needs no memory is made without any.
        ensures none { GooseNeedsNoMemory (pdu_of {A = A} self.now) → IsOk result }
    {
        Ok(GoosePdu {
            gocb_ref: Octets::try_from_slice(alloc, self.gocb_ref)?,
            live: self.live,
            dat_set: Octets::try_from_slice(alloc, self.dat_set)?,
            go_id: own_if(alloc, self.go_id)?,
            t: self.t,
            st_num: self.st_num,
            sq_num: self.sq_num,
            simulation: self.simulation,
            conf_rev: self.conf_rev,
            nds_com: self.nds_com,
            members: ValueList::from(self.members.to_values(alloc)?),
        })
    }
}
