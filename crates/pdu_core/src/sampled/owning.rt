//! A savPdu in memory of its own, from where it stands.

ghost use Rattle.std.specs.Prelude.{◌≡◌, [], IfOk, IsOk};
ghost use Rattle.pdu_core.specs.Memory.{AsduNeedsNoMemory};
ghost use Rattle.pdu_core.specs.SampledViews.{asdu_of, asdus_left, sv_of};

use crate::owning::own_if;
use crate::sampled::asdu::{Asdu, AsduList, SvPdu};
use crate::sampled::view::{AsduView, SvView};
use mms_data::Octets;
use std::alloc::{AllocError, Allocator};

impl<'a> AsduView<'a> {
    /// The ASDU that the view stands for, in memory of its own.
    ///
    /// # Errors
    ///
    /// `AllocError` where memory is refused.
    pub fn to_asdu<A: Allocator + Copy>(&self, alloc: A) -> Result<Asdu<A>, AllocError>
        ensures value { IfOk result (λ a. a ≡ asdu_of self.now) }

        // An ASDU that needs no memory is made without any.
        ensures none { AsduNeedsNoMemory (asdu_of {A = A} self.now) → IsOk result }
    {
        Ok(Asdu {
            sv_id: Octets::try_from_slice(alloc, self.sv_id)?,
            dat_set: own_if(alloc, self.dat_set)?,
            smp_cnt: self.smp_cnt,
            conf_rev: self.conf_rev,
            refr_tm: self.refr_tm,
            smp_synch: self.smp_synch,
            smp_rate: self.smp_rate,
            sample: Octets::try_from_slice(alloc, self.sample)?,
            smp_mod: own_if(alloc, self.smp_mod)?,
            field_89: own_if(alloc, self.field_89)?,
        })
    }
}

impl<'a> SvView<'a> {
    /// The APDU that the view stands for, in memory of its own; that of the list is taken once.
    ///
    /// # Errors
    ///
    /// `AllocError` where memory is refused.
    pub fn to_pdu<A: Allocator + Copy>(&self, alloc: A) -> Result<SvPdu<A>, AllocError>
        ensures value { IfOk result (λ p. p ≡ sv_of self.now) }

        // No ASDUs need no memory.
        ensures none { asdus_left {A = A} self.now.asdus ≡ [] → IsOk result }
    {
        let mut asdus = Vec::with_capacity(alloc, self.count as usize)?;
        for view in self.asdus {
            asdus.push(view.to_asdu(alloc)?)?;
        }
        Ok(SvPdu {
            asdus: AsduList::from(asdus),
        })
    }
}
