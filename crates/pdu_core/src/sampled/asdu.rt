//! The APDU of Sampled Values in memory of its own.

use mms_data::{Octets, UtcTime};
use std::alloc::Allocator;
use std::marker::Model;

/// An ASDU of Sampled Values (IEC 61850-9-2). Texts are octets from 20 to 7E.
#[derive(Drop)]
pub struct Asdu<A: Allocator> {
    /// svID, the name of the stream.
    pub sv_id: Octets<A>,
    /// datSet, the name of the data set, which may be absent.
    pub dat_set: Option<Octets<A>>,
    /// smpCnt, which counts samples and in most streams begins at 0 again each second.
    pub smp_cnt: u16,
    /// confRev, which counts changes of the control block's configuration.
    pub conf_rev: u32,
    /// refrTm, the moment at which the buffer was refreshed, which may be absent.
    pub refr_tm: Option<UtcTime>,
    /// smpSynch: how the samples are synchronised.
    pub smp_synch: u8,
    /// smpRate, in the unit that smpMod names, which may be absent.
    pub smp_rate: Option<u16>,
    /// sample, the data set's values, kept as the octets that they are.
    pub sample: Octets<A>,
    /// smpMod, one to sixteen octets kept as they are, which may be absent.
    pub smp_mod: Option<Octets<A>>,
    /// The field 89, one to sixteen octets kept as they are, which may be absent.
    pub field_89: Option<Octets<A>>,
}

/// ASDUs one after the other, made from a `Vec` and given back as one. A contract sees the list of them.
#[derive(Drop)]
pub struct AsduList<A: Allocator> {
    asdus: Vec<Asdu<A>, A>,
}

impl<A: Allocator> Model for AsduList<A> {
    ghost use Rattle.std.specs.Prelude.{List};
    ghost use Rattle.pdu_core.specs.declared.sampled.asdu.Asdu.{Asdu};

    ghost Value = { List (Asdu A) };

    ghost view = { λ l. l.asdus.items };
}

impl<A: Allocator> AsduList<A> {
    ghost use Rattle.std.specs.Prelude.{◌≡◌};

    /// The ASDUs.
    pub fn as_slice(&self) -> &[Asdu<A>]
        ensures { result.now ≡ self.now }
    {
        self.asdus.as_slice()
    }

    /// The vector that holds the ASDUs.
    pub fn into_vec(self) -> Vec<Asdu<A>, A>
        ensures { result.items ≡ self }
    {
        let AsduList { asdus } = self;
        asdus
    }
}

impl<A: Allocator> From<Vec<Asdu<A>, A>> for AsduList<A> {
    ghost use Rattle.std.specs.Prelude.{◌≡◌};

    ghost from_gives = { λ v l. l ≡ v.items };

    fn from(asdus: Vec<Asdu<A>, A>) -> AsduList<A> {
        AsduList { asdus }
    }
}

/// A savPdu (IEC 61850-9-2). The number of ASDUs is that of the list.
#[derive(Drop)]
pub struct SvPdu<A: Allocator> {
    /// The ASDUs.
    pub asdus: AsduList<A>,
}
