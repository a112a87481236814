//! The objects of an APDU of Sampled Values, from the octets in which it stands.
ghost use Rattle.std.specs.Prelude.{◌∷◌, [], ◌++◌, codes, map};
ghost use Rattle.std.specs.List.{concat, flat_map, join_with_byte};
ghost use Rattle.std.specs.Fmt.{decimal};
ghost use Rattle.pdu_core.specs.SampledViews.{asdu_of, asdus_left, sv_of};
ghost use Rattle.pdu_core.specs.Views.{octets_if};
ghost use Rattle.text_core.specs.Pieces.{AppendsText};
ghost use Rattle.object_core.specs.Objects.{array, decimal_or_null, octets_or_null, octets_value};
ghost use Rattle.frame_engines.specs.FrameObject.{asdu_object, refresh_fields};
ghost use Rattle.frame_engines.specs.computed.ObjectFields.{after_comma, next_fields};

use mms_data::UtcTime;
use object_core::fields::{put_field_number_if, put_field_octets, put_field_octets_if};
use object_core::times::put_time_fields;
use pdu_core::{AsduView, Asdus, SvView};
use std::alloc::{AllocError, Allocator};
use text_core::fields::{put_number, put_text, put_text_or};

// Appends the moment at which a buffer was refreshed, with its date and its quality, or null alone.
fn put_refresh_fields<A: Allocator>(
    out: &mut Vec<u8, A>,
    refreshed: Option<UtcTime>,
) -> Result<(), AllocError>
    ensures { AppendsText result out.old.items out.new.items (next_fields (refresh_fields refreshed)) }
{
    match refreshed {
        Some(time) => put_time_fields(
            out,
            b",\"refrTm\":",
            b",\"refrTime\":",
            b",\"refrQuality\":",
            time,
        ),
        None => out.extend_from_slice(b",\"refrTm\":null"),
    }
}

// Appends the fields of an ASDU between its data set and its sample.
fn put_counts_fields<A: Allocator>(
    out: &mut Vec<u8, A>,
    asdu: &AsduView<'_>,
) -> Result<(), AllocError>
    ensures { AppendsText result out.old.items out.new.items (concat ((codes ",\"smpCnt\":" ++ decimal asdu.now.smp_cnt) ∷ (codes ",\"confRev\":" ++ decimal asdu.now.conf_rev)
        ∷ next_fields (refresh_fields asdu.now.refr_tm) ∷ (codes ",\"smpSynch\":" ++ decimal asdu.now.smp_synch) ∷ (codes ",\"smpRate\":" ++ decimal_or_null asdu.now.smp_rate) ∷ [])) }
{
    put_number(out, b",\"smpCnt\":", asdu.smp_cnt as u32)?;
    put_number(out, b",\"confRev\":", asdu.conf_rev)?;
    put_refresh_fields(out, asdu.refr_tm)?;
    put_number(out, b",\"smpSynch\":", asdu.smp_synch as u32)?;
    put_field_number_if(out, b",\"smpRate\":", asdu.smp_rate)
}

// Appends the last fields of an ASDU, which are absent from nearly all, and the end of its object.
fn put_asdu_object_end<A: Allocator>(
    out: &mut Vec<u8, A>,
    asdu: &AsduView<'_>,
) -> Result<(), AllocError>
    ensures { AppendsText result out.old.items out.new.items (concat ((codes ",\"smpMod\":" ++ octets_or_null (octets_if asdu.now.smp_mod))
        ∷ (codes ",\"field89\":" ++ octets_or_null (octets_if asdu.now.field_89)) ∷ codes "}" ∷ [])) }
{
    match (asdu.smp_mod, asdu.field_89) {
        (None, None) => out.extend_from_slice(b",\"smpMod\":null,\"field89\":null}"),
        _ => {
            put_field_octets_if(out, b",\"smpMod\":", asdu.smp_mod)?;
            put_field_octets_if(out, b",\"field89\":", asdu.field_89)?;
            out.extend_from_slice(b"}")
        }
    }
}

// Appends the object of an ASDU.
fn put_asdu_object<A: Allocator>(
    out: &mut Vec<u8, A>,
    asdu: &AsduView<'_>,
) -> Result<(), AllocError>
    ensures { AppendsText result out.old.items out.new.items (asdu_object (asdu_of {A = Unit {0}} asdu.now)) }
{
    put_text(out, b"{\"svID\":", asdu.sv_id)?;
    put_text_or(out, b",\"datSet\":", asdu.dat_set, b"null")?;
    put_counts_fields(out, asdu)?;
    put_field_octets(out, b",\"sample\":", asdu.sample)?;
    put_asdu_object_end(out, asdu)
}

// Appends the objects of ASDUs, divided by commas.
fn put_asdu_objects<A: Allocator>(out: &mut Vec<u8, A>, asdus: Asdus<'_>) -> Result<(), AllocError>
    ensures { AppendsText result out.old.items out.new.items (join_with_byte 44 (map asdu_object (asdus_left {A = Unit {0}} asdus.entry))) }
{
    let mut others = asdus;
    let Some(first) = others.next() else {
        return Ok(());
    };
    put_asdu_object(out, &first)?;
    put_other_asdu_objects(out, others)
}

// Appends the object of each ASDU behind a comma.
fn put_other_asdu_objects<A: Allocator>(
    out: &mut Vec<u8, A>,
    others: Asdus<'_>,
) -> Result<(), AllocError>
    ensures { AppendsText result out.old.items out.new.items (flat_map (after_comma asdu_object) (asdus_left {A = Unit {0}} others.entry)) }
{
    for asdu in others {
        out.push(b',')?;
        put_asdu_object(out, &asdu)?;
    }
    Ok(())
}

/// Appends the field of the ASDUs of an APDU.
pub fn put_sampled_fields<A: Allocator>(
    out: &mut Vec<u8, A>,
    sampled: &SvView<'_>,
) -> Result<(), AllocError>
    ensures { AppendsText result out.old.items out.new.items (next_fields ((codes "asdus", array (map asdu_object (sv_of {A = Unit {0}} sampled.now).asdus)) ∷ [])) }
{
    out.extend_from_slice(b",\"asdus\":[")?;
    put_asdu_objects(out, sampled.asdus)?;
    out.push(b']')?;
    Ok(())
}
