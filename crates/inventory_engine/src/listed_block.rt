//! A control block as `blocks` lists it.

ghost use Rattle.std.specs.Prelude.{◌≡◌, ◌∷◌, [], IfOk, Some, option_map};
ghost use Rattle.block_core.specs.BlockText.{block_in, block_of};
ghost use Rattle.inventory_engine.specs.ListedBlocks.{listed_of};
ghost use Rattle.inventory_engine.specs.Sightings.{block_sighting, block_text};
ghost use Rattle.inventory_engine.specs.computed.ShownFields.{configuration_shown};

use crate::block_text::{ShownBlock, put_block_text};
use crate::sighting::put_name_fields;
use ber_core::Octets;
use block_core::Block;
use block_core::commas::{fields_of, number_by, text_in, word_in};
use std::alloc::{AllocError, Allocator};

/// A control block as `blocks` lists it.
#[derive(Drop)]
pub struct ListedBlock<A: Allocator> {
    /// The text of its line.
    pub text: Octets<A>,
    /// Its fields behind that text in an object, each behind a comma.
    pub fields: Octets<A>,
    /// Whether the text is a BLOCK.
    pub is_named: bool,
}

// The block that six fields say, in memory of its own.
fn block_of<A: Allocator + Copy>(
    alloc: A,
    app_id: &[u8],
    gocb_ref: &[u8],
    dat_set: &[u8],
    go_id: &[u8],
    conf_rev: &[u8],
    entries: &[u8],
) -> Result<Option<Block<A>>, AllocError>
    ensures { IfOk result (λ block. block ≡ block_of (app_id.now ∷ gocb_ref.now ∷ dat_set.now ∷ go_id.now ∷ conf_rev.now ∷ entries.now ∷ [])) }
{
    let Some(app_id) = word_in(app_id) else {
        return Ok(None);
    };
    let Some(gocb_ref) = text_in(gocb_ref) else {
        return Ok(None);
    };
    let Some(dat_set) = text_in(dat_set) else {
        return Ok(None);
    };
    let Some(go_id) = text_in(go_id) else {
        return Ok(None);
    };
    let Some(conf_rev) = number_by(conf_rev) else {
        return Ok(None);
    };
    let Some(entries) = number_by(entries) else {
        return Ok(None);
    };
    Ok(Some(Block {
        app_id,
        gocb_ref: Octets::try_from_slice(alloc, gocb_ref)?,
        dat_set: Octets::try_from_slice(alloc, dat_set)?,
        go_id: if go_id.is_empty() {
            None
        } else {
            Some(Octets::try_from_slice(alloc, go_id)?)
        },
        conf_rev,
        entries,
    }))
}

// The block that the octets of a text say, if they say one.
fn block_in<A: Allocator + Copy>(alloc: A, text: &[u8]) -> Result<Option<Block<A>>, AllocError>
    ensures { IfOk result (λ block. block ≡ block_in text.now) }
{
    let Some(fields) = fields_of(text) else {
        return Ok(None);
    };
    match fields.as_slice() {
        [app_id, gocb_ref, dat_set, go_id, conf_rev, entries] => {
            block_of(alloc, app_id, gocb_ref, dat_set, go_id, conf_rev, entries)
        }
        _ => Ok(None),
    }
}

impl<A: Allocator + Copy> ListedBlock<A> {
    /// A control block as a frame shows it, and the block that its text says, if that is a BLOCK.
    pub fn of(
        alloc: A,
        block: &ShownBlock<'_>,
    ) -> Result<(ListedBlock<A>, Option<Block<A>>), AllocError>
        ensures listed { IfOk result (λ r. r.0 ≡ listed_of (block_sighting (configuration_shown block.now))) }
        ensures said { IfOk result (λ r. r.1 ≡ block_in (block_text (configuration_shown block.now))) }
    {
        let mut text = Vec::new(alloc);
        put_block_text(&mut text, block)?;
        let mut fields = Vec::new(alloc);
        put_name_fields(&mut fields, block)?;
        let said = block_in(alloc, text.as_slice())?;
        let listed = ListedBlock {
            text: Octets::from(text),
            fields: Octets::from(fields),
            is_named: said.is_some(),
        };
        Ok((listed, said))
    }
}
