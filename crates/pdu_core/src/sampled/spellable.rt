//! Whether an APDU of Sampled Values has a spelling.

ghost use Rattle.std.specs.Prelude.{◌↔◌, IfSome, IsTrue};
ghost use Rattle.pdu_core.specs.SampledSpellable.{AreFew, IsFixed, IsSpellableAsdu, IsSpellableSv};
ghost use Rattle.mms_data.specs.Spellable.{IsTime};

use crate::sampled::asdu::{Asdu, SvPdu};
use crate::spellable::{is_visible_if, is_visible_text};
use mms_data::{Octets, UtcTime};
use std::alloc::Allocator;

// Whether the fraction of a time, which may be absent, is below 2^24.
fn is_time_if(time: Option<UtcTime>) -> bool
    ensures { IsTrue result ↔ IfSome time IsTime }
{
    match time {
        Some(time) => time.fraction < 0x100_0000,
        None => true,
    }
}

// Whether the octets, which may be absent, are one to sixteen.
fn are_few_if<A: Allocator>(octets: &Option<Octets<A>>) -> bool
    ensures { IsTrue result ↔ IfSome octets.now AreFew }
{
    match octets {
        Some(octets) => matches!(octets.as_slice().len(), 1..=16),
        None => true,
    }
}

// Each number lies in the range of its type; nothing is computed.
fn know_ranges(smp_cnt: u16, conf_rev: u32, smp_synch: u8, smp_rate: Option<u16>)
    ensures smp_cnt { IsFixed 2 smp_cnt }
    ensures conf_rev { IsFixed 4 conf_rev }
    ensures smp_synch { IsFixed 1 smp_synch }
    ensures smp_rate { IfSome smp_rate (IsFixed 2) }
{
    let _ = smp_rate.unwrap_or(0);
}

// Whether each field of the ASDU has a spelling.
fn is_spellable_asdu<A: Allocator>(asdu: &Asdu<A>) -> bool
    ensures { IsTrue result ↔ IsSpellableAsdu asdu.now }
{
    know_ranges(asdu.smp_cnt, asdu.conf_rev, asdu.smp_synch, asdu.smp_rate);
    is_visible_text(asdu.sv_id.as_slice())
        && is_visible_if(&asdu.dat_set)
        && is_time_if(asdu.refr_tm)
        && are_few_if(&asdu.smp_mod)
        && are_few_if(&asdu.field_89)
}

/// Whether each field of the APDU has a spelling: there are 1 to 65535 ASDUs, and in each of them texts are
/// visible, the fraction of the time is below 2^24, smpMod and the field 89 have one to sixteen octets.
pub fn is_spellable_sv<A: Allocator>(pdu: &SvPdu<A>) -> bool
    ensures { IsTrue result ↔ IsSpellableSv pdu.now }
{
    let asdus = pdu.asdus.as_slice();
    if !matches!(asdus.len(), 1..=0xffff) {
        return false;
    }
    for asdu in asdus {
        if !is_spellable_asdu(asdu) {
            return false;
        }
    }
    true
}
