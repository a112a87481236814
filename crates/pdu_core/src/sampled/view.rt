//! The APDU of Sampled Values where it stands.

ghost use Rattle.std.specs.Prelude.{◌≡◌, ◌≤◌, length};
ghost use Rattle.pdu_core.specs.computed.SampledValue.{asdus_in, AreAsdus};

use crate::sampled::known::{known_asdu, known_usual};
use mms_data::UtcTime;

/// An ASDU of Sampled Values (IEC 61850-9-2) where it stands: the fields of `Asdu`, texts and octets as parts of
/// the octets that spell it.
#[derive(Clone, Copy)]
pub struct AsduView<'a> {
    /// svID, the name of the stream.
    pub sv_id: &'a [u8],
    /// datSet, the name of the data set, which may be absent.
    pub dat_set: Option<&'a [u8]>,
    /// smpCnt, which counts samples and in most streams begins at 0 again each second.
    pub smp_cnt: u16,
    /// confRev, which counts changes of the control block's configuration.
    pub conf_rev: u32,
    /// refrTm, the moment at which the buffer was refreshed, which may be absent.
    pub refr_tm: Option<UtcTime>,
    /// smpSynch: how the samples are synchronised.
    pub smp_synch: u8,
    /// smpRate, in the unit that smpMod names, which may be absent.
    pub smp_rate: Option<u16>,
    /// sample, the data set's values, as the octets that they are.
    pub sample: &'a [u8],
    /// smpMod, one to sixteen octets as they are, which may be absent.
    pub smp_mod: Option<&'a [u8]>,
    /// The field 89, one to sixteen octets as they are, which may be absent.
    pub field_89: Option<&'a [u8]>,
}

/// ASDUs that are still to come, seen where they stand: an iterator over one `AsduView` an ASDU, which takes no
/// memory and ends.
#[derive(Clone, Copy)]
pub struct Asdus<'a> {
    octets: &'a [u8],
    at: usize,
    end: usize,
    pub ghost ordered: { at ≤ end },
    pub ghost inside: { end ≤ length octets.now },
    pub ghost spelled: { AreAsdus octets.now at end },
}

/// A savPdu (IEC 61850-9-2) where it stands.
#[derive(Clone, Copy)]
pub struct SvView<'a> {
    /// The count of the ASDUs that are left: 1 to 65535 in a view that was read.
    pub count: u16,
    /// The ASDUs.
    pub asdus: Asdus<'a>,
    /// Whether the octets that were read are known to be the written form of the APDU; false says nothing.
    pub written: bool,
    pub ghost counted: { count ≡ length (asdus_in {A = Unit {0}} asdus.octets.now asdus.at asdus.end) },
}

impl<'a> Asdus<'a> {
    ghost use Rattle.std.specs.Prelude.{◌≡◌, ◌<◌, ◌∷◌, IfSome};
    ghost use Rattle.pdu_core.specs.computed.SampledValue.{asdus_in};
    ghost use Rattle.pdu_core.specs.SampledViews.{asdu_of, asdus_left, asdus_source, AsduIsPart};

    // The ASDUs that fill the octets from `at` to `end`.
    pub(crate) fn new(octets: &'a [u8], at: usize, end: usize) -> Asdus<'a>
        requires ordered { at ≤ end }
        requires inside { end ≤ length octets.now }
        requires spelled { AreAsdus octets.now at end }
        ensures these { asdus_left {A = Unit {0}} result ≡ asdus_in octets.now at end }
        ensures source { asdus_source result ≡ octets.entry }
    {
        Asdus { octets, at, end }
    }

    /// The first ASDU and those behind it, where it has the usual fields alone, each length in one octet, as ASDUs nearly always
    /// have: its view is then put together without a look at others.
    #[inline(always)]
    pub fn first_usual(self) -> Option<(AsduView<'a>, Asdus<'a>)>
        ensures { IfSome result (λ x. asdus_left {A = Unit {0}} self.entry ≡ asdu_of x.0 ∷ asdus_left x.1) }
    {
        let (octets, end) = (self.octets, self.end);
        if self.at == end {
            return None;
        }
        let (view, at) = known_usual(octets, self.at, end)?;
        Some((view, Asdus { octets, at, end }))
    }

    // The first ASDU, and those behind it.
    #[inline(always)]
    fn split(self) -> (AsduView<'a>, Asdus<'a>)
        requires { self.at < self.end }
        ensures first { asdus_left {A = Unit {0}} self.entry ≡ asdu_of result.0 ∷ asdus_left result.1 }
        ensures part { AsduIsPart result.0 (asdus_source self.entry) }
        ensures source { asdus_source result.1 ≡ asdus_source self.entry }
    {
        let (octets, end) = (self.octets, self.end);
        let (view, at) = known_asdu(octets, self.at, end);
        (view, Asdus { octets, at, end })
    }
}

impl<'a> Iterator for Asdus<'a> {
    ghost use Rattle.std.specs.Iterator.{item_count};
    ghost use Rattle.pdu_core.specs.SampledViews.{asdus_left, GivesAsdu};

    type Item = AsduView<'a>;

    ghost next_gives = { GivesAsdu };

    ghost remaining = { item_count (asdus_left {A = Unit {0}}) };

    #[inline(always)]
    fn next(&mut self) -> Option<AsduView<'a>> {
        if self.at == self.end {
            return None;
        }
        let (view, rest) = self.split();
        *self = rest;
        Some(view)
    }
}
