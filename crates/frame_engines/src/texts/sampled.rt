//! The text of an APDU of Sampled Values, from the octets in which it stands.
ghost use Rattle.std.specs.Prelude.{◌≡◌, ◌<◌, ◌∷◌, [], ◌++◌, ℕ, List, length, take, codes, true, IfOk};
ghost use Rattle.std.specs.List.{concat, flat_map};
ghost use Rattle.std.specs.Fmt.{decimal};
ghost use Rattle.hex.specs.Hex.{encode_lower};
ghost use Rattle.pdu_core.specs.SampledViews.{asdu_of, asdus_left, sv_of};
ghost use Rattle.pdu_core.specs.Views.{octets_if};
ghost use Rattle.text_core.specs.Pieces.{AppendsText, decimal_or_dash, octets_or_dash};
ghost use Rattle.text_core.specs.ValueText.{time_or_dash};
ghost use Rattle.frame_engines.specs.SampledText.{asdu_text, before_space, sv_text};

use pdu_core::{AsduView, Asdus, SvView};
use std::alloc::{AllocError, Allocator};
use text_core::fields::{put_octets, put_octets_if, put_text, put_text_or};
use text_core::pieces::put_hexadecimal;
use text_core::short::ShortText;

// Appends the fields of an ASDU between its data set and its sample.
fn put_counts_text<A: Allocator>(
    out: &mut Vec<u8, A>,
    asdu: &AsduView<'_>,
) -> Result<(), AllocError>
    ensures { AppendsText result out.old.items out.new.items (concat ((codes " cnt=" ++ decimal asdu.now.smp_cnt) ∷ (codes " rev=" ++ decimal asdu.now.conf_rev)
        ∷ (codes " t=" ++ time_or_dash asdu.now.refr_tm) ∷ (codes " synch=" ++ decimal asdu.now.smp_synch) ∷ (codes " rate=" ++ decimal_or_dash asdu.now.smp_rate) ∷ [])) }
{
    let mut text = ShortText::new();
    text.put_decimal_if(asdu.smp_rate);
    text.put(b" rate=");
    text.put_decimal(asdu.smp_synch as u64);
    text.put(b" synch=");
    text.put_utc_if(asdu.refr_tm);
    text.put(b" t=");
    text.put_decimal(asdu.conf_rev as u64);
    text.put(b" rev=");
    text.put_decimal(asdu.smp_cnt as u64);
    text.put(b" cnt=");
    text.append_to(out)
}

// Appends the last fields of an ASDU, which are absent from nearly all.
fn put_asdu_end<A: Allocator>(out: &mut Vec<u8, A>, asdu: &AsduView<'_>) -> Result<(), AllocError>
    ensures { AppendsText result out.old.items out.new.items (concat ((codes " mod=" ++ octets_or_dash (octets_if asdu.now.smp_mod))
        ∷ (codes " f89=" ++ octets_or_dash (octets_if asdu.now.field_89)) ∷ codes ")" ∷ [])) }
{
    match (asdu.smp_mod, asdu.field_89) {
        (None, None) => out.extend_from_slice(b" mod=- f89=-)"),
        _ => {
            put_octets_if(out, b" mod=", asdu.smp_mod)?;
            put_octets_if(out, b" f89=", asdu.field_89)?;
            out.extend_from_slice(b")")
        }
    }
}

// Appends the text of an ASDU, and a space. A call of its own, as few ASDUs have other fields than the usual ones.
#[inline(never)]
fn put_any_text<A: Allocator>(out: &mut Vec<u8, A>, asdu: &AsduView<'_>) -> Result<(), AllocError>
    ensures { AppendsText result out.old.items out.new.items (asdu_text (asdu_of {A = Unit {0}} asdu.now) ++ codes " ") }
{
    put_text(out, b"(id=", asdu.sv_id)?;
    put_text_or(out, b" set=", asdu.dat_set, b"-")?;
    put_counts_text(out, asdu)?;
    put_octets(out, b" sample=", asdu.sample)?;
    put_asdu_end(out, asdu)?;
    out.extend_from_slice(b" ")
}

// Puts the text of an ASDU up to its sample into a text of no octets, where it has a short name and no optional field, and
// answers whether: all words are then put at once.
#[inline(always)]
fn prepend_usual_text(text: &mut ShortText, asdu: &AsduView<'_>) -> bool
    requires { text.old ≡ [] }
    ensures { result ≡ true → text.new ++ (encode_lower asdu.now.sample.now ++ codes " mod=- f89=-)") ≡ asdu_text (asdu_of {A = Unit {0}} asdu.now) }
{
    match (
        asdu.dat_set,
        asdu.refr_tm,
        asdu.smp_rate,
        asdu.smp_mod,
        asdu.field_89,
    ) {
        (None, None, None, None, None) => {
            text.put(b" rate=- sample=");
            text.put_decimal(asdu.smp_synch as u64);
            text.put(b" t=- synch=");
            text.put_decimal(asdu.conf_rev as u64);
            text.put(b" rev=");
            text.put_decimal(asdu.smp_cnt as u64);
            text.put(b"\" set=- cnt=");
            if !text.put_plain(asdu.sv_id) {
                return false;
            }
            text.put(b"(id=\"");
            true
        }
        _ => false,
    }
}

// Appends the text of an ASDU, which this is up to its sample, and a space.
#[inline(always)]
fn put_usual_text<A: Allocator>(
    out: &mut Vec<u8, A>,
    text: &ShortText,
    asdu: &AsduView<'_>,
) -> Result<(), AllocError>
    requires { text.now ++ (encode_lower asdu.now.sample.now ++ codes " mod=- f89=-)") ≡ asdu_text (asdu_of {A = Unit {0}} asdu.now) }
    ensures { AppendsText result out.old.items out.new.items (asdu_text (asdu_of {A = Unit {0}} asdu.now) ++ codes " ") }
{
    text.append_to(out)?;
    put_hexadecimal(out, asdu.sample)?;
    out.extend_from_slice(b" mod=- f89=-) ")
}

// Appends the text of each ASDU, and a space behind it, up to the first that has other fields than the usual ones, and answers
// the ASDUs from that on. No view of an ASDU is put together in memory.
fn put_usual_texts<'a, A: Allocator>(
    out: &mut Vec<u8, A>,
    asdus: Asdus<'a>,
) -> Result<Asdus<'a>, AllocError>
    ensures kept { take (length out.old.items) out.new.items ≡ out.old.items }
    ensures so_far { IfOk result (λ rest. out.new.items ++ flat_map (before_space asdu_text) (asdus_left {A = Unit {0}} rest)
        ≡ out.old.items ++ flat_map (before_space asdu_text) (asdus_left {A = Unit {0}} asdus.entry)) }
{
    let mut text = ShortText::new();
    let mut others = asdus;
    'texts: while let Some((asdu, rest)) = others.first_usual() {
        text.clear();
        if !prepend_usual_text(&mut text, &asdu) {
            return Ok(others);
        }
        put_usual_text(out, &text, &asdu)?;
        others = rest;
    }
    Ok(others)
}

// Appends the text of each ASDU, and a space behind it.
fn put_any_texts<A: Allocator>(out: &mut Vec<u8, A>, asdus: Asdus<'_>) -> Result<(), AllocError>
    ensures { AppendsText result out.old.items out.new.items (flat_map (before_space asdu_text) (asdus_left {A = Unit {0}} asdus.entry)) }
{
    for asdu in asdus {
        put_any_text(out, &asdu)?;
    }
    Ok(())
}

// The same: those in front whose fields are the usual ones with less work.
fn put_asdu_texts<A: Allocator>(out: &mut Vec<u8, A>, asdus: Asdus<'_>) -> Result<(), AllocError>
    ensures { AppendsText result out.old.items out.new.items (flat_map (before_space asdu_text) (asdus_left {A = Unit {0}} asdus.entry)) }
{
    let others = put_usual_texts(out, asdus)?;
    put_any_texts(out, others)
}

// Appends the bracket behind ASDUs, in the place of the space behind the last of them.
#[inline(always)]
fn put_bracket<A: Allocator>(out: &mut Vec<u8, A>, count: u16) -> Result<(), AllocError>
    ensures none { count ≡ 0 → AppendsText result out.old.items out.new.items (codes "}") }
    ensures some { 0 < count → (front : List ℕ) → out.old.items ≡ front ++ codes " " → AppendsText result front out.new.items (codes "}") }
{
    if count == 0 {
        return out.extend_from_slice(b"}");
    }
    out.truncate(out.len().saturating_sub(1));
    out.extend_from_slice(b"}")
}

/// Appends the ASDUs of an APDU.
pub fn put_sampled_text<A: Allocator>(
    out: &mut Vec<u8, A>,
    sampled: &SvView<'_>,
) -> Result<(), AllocError>
    ensures { AppendsText result out.old.items out.new.items (sv_text (sv_of {A = Unit {0}} sampled.now)) }
{
    out.extend_from_slice(b" {")?;
    put_asdu_texts(out, sampled.asdus)?;
    put_bracket(out, sampled.count)
}
