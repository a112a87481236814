//! Noting where the parts of an APDU of GOOSE stand.

ghost use Rattle.std.specs.Prelude.{◌≡◌, ◌≤◌, ◌+◌, length, slice_range, IfOk};
ghost use Rattle.pdu_core.specs.Goose.{SpellsGoose};
ghost use Rattle.pdu_core.specs.Views.{pdu_of};
ghost use Rattle.repeat_core.specs.Noting.{IsNoted, part_behind, place_behind};

use crate::notes::{Notes, Part};
use ber_core::fields::{required, there};
use ber_core::{Fault, Header};
use pdu_core::GooseView;

impl Part {
    // The contents of an element that may stand at a place; none are there where it does not.
    fn contents_if(header: &Option<Header>, place: usize) -> Part
        ensures { result ≡ part_behind place header.now }
    {
        match header {
            Some(header) => Part {
                from: header.contents_from,
                to: header.contents_to,
            },
            None => Part {
                from: place,
                to: place,
            },
        }
    }
}

// The place behind an element that may stand at a place.
fn behind(place: usize, header: &Option<Header>) -> usize
    ensures { result ≡ place_behind place header.now }
{
    match header {
        Some(header) => header.contents_to,
        None => place,
    }
}

/// What is to be noted of the APDU that fills the octets from behind the envelope to `end`, and that was seen there.
///
/// # Errors
///
/// Never, of such an APDU.
pub(crate) fn notes_of(
    octets: &[u8],
    ether_type: usize,
    end: usize,
    goose: &GooseView<'_>,
) -> Result<Notes, Fault>
    requires ordered { ether_type + 10 ≤ end }
    requires inside { end ≤ length octets.now }
    requires spelled { SpellsGoose {A = Unit {0}} (pdu_of goose.now) (slice_range octets.now (ether_type + 10) end) }
    ensures place { IfOk result (λ n. n.ether_type ≡ ether_type) }
    ensures end { IfOk result (λ n. n.end ≡ end) }
    ensures noted { IfOk result (IsNoted (pdu_of goose.now) octets.now) }
{
    let apdu = required(octets, ether_type + 10, end, 0x61)?;
    let to = apdu.contents_to;
    let gocb_ref = required(octets, apdu.contents_from, to, 0x80)?;
    let live = required(octets, gocb_ref.contents_to, to, 0x81)?;
    let dat_set = required(octets, live.contents_to, to, 0x82)?;
    let go_id = there(octets, dat_set.contents_to, to, 0x83)?;
    let t_at = behind(dat_set.contents_to, &go_id);
    let t = required(octets, t_at, to, 0x84)?;
    let st_num = required(octets, t.contents_to, to, 0x85)?;
    let sq_num = required(octets, st_num.contents_to, to, 0x86)?;
    let simulation = there(octets, sq_num.contents_to, to, 0x87)?;
    let conf_rev_at = behind(sq_num.contents_to, &simulation);
    let conf_rev = required(octets, conf_rev_at, to, 0x88)?;
    let nds_com = there(octets, conf_rev.contents_to, to, 0x89)?;
    let count_at = behind(conf_rev.contents_to, &nds_com);
    let count = required(octets, count_at, to, 0x8a)?;
    let members = required(octets, count.contents_to, to, 0xab)?;
    Ok(Notes {
        ether_type,
        end,
        live,
        sq_num,
        gocb_ref: Part {
            from: gocb_ref.contents_from,
            to: gocb_ref.contents_to,
        },
        dat_set: Part {
            from: dat_set.contents_from,
            to: dat_set.contents_to,
        },
        has_go_id: go_id.is_some(),
        go_id: Part::contents_if(&go_id, dat_set.contents_to),
        t: goose.t,
        st_num: goose.st_num,
        simulation: goose.simulation,
        conf_rev: goose.conf_rev,
        nds_com: goose.nds_com,
        entries: goose.entries,
        members: Part {
            from: members.contents_from,
            to: members.contents_to,
        },
    })
}
