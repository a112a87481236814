//! An ASDU in memory of its own, seen where it stands.

ghost use Rattle.std.specs.Prelude.{◌≡◌};
ghost use Rattle.pdu_core.specs.SampledViews.{asdu_of};

use crate::parts::slice_if;
use crate::sampled::asdu::Asdu;
use crate::sampled::view::AsduView;
use mms_data::Octets;
use std::alloc::Allocator;

impl<A: Allocator> Asdu<A> {
    // The view that stands for the ASDU.
    pub(crate) fn as_view(&self) -> AsduView<'_>
        ensures { asdu_of result ≡ self.now }
    {
        AsduView {
            sv_id: self.sv_id.as_slice(),
            dat_set: slice_if(&self.dat_set),
            smp_cnt: self.smp_cnt,
            conf_rev: self.conf_rev,
            refr_tm: self.refr_tm,
            smp_synch: self.smp_synch,
            smp_rate: self.smp_rate,
            sample: self.sample.as_slice(),
            smp_mod: slice_if(&self.smp_mod),
            field_89: slice_if(&self.field_89),
        }
    }
}
