//! Control blocks by a text of six fields.
ghost use Rattle.std.specs.Prelude.{◌≡◌, ◌∷◌, [], true, option_map, IfOk, IfErr, Some};
ghost use Rattle.block_core.specs.BlockText.{AnswersBlock, block_in, block_keeps, block_of};
ghost use Rattle.block_core.specs.computed.BlockView.{block_seen};

use crate::block::Block;
use crate::commas::{fields_of, number_by, text_in, word_in};
use ber_core::Octets;
use std::alloc::{AllocError, Allocator};
use thiserror::Error;

/// Why a text gives no control block.
#[derive(Debug, Drop, Error)]
pub enum BlockError {
    /// The text is not six fields with five commas: APPID by four hexadecimal digits, gocbRef, datSet
    /// and goID of octets 20 to 7E, confRev and the count of entries by 1 to 10 decimal digits, at most
    /// 4294967295.
    #[error("a block is APPID,gocbRef,datSet,goID,confRev,entries, as 0001,IED1LD/LLN0$GO$gcb,IED1LD/LLN0$ds,,1,2")]
    BlockForm,
    /// Memory was refused.
    #[error("out of memory")]
    Memory(AllocError),
}

/// The fields of a block where they stand.
#[derive(Clone, Copy)]
struct BlockView<'a> {
    app_id: u16,
    gocb_ref: &'a [u8],
    dat_set: &'a [u8],
    go_id: Option<&'a [u8]>,
    conf_rev: u32,
    entries: u32,
}

// The block that six fields say.
fn view_fields<'a>(
    app_id: &[u8],
    gocb_ref: &'a [u8],
    dat_set: &'a [u8],
    go_id: &'a [u8],
    conf_rev: &[u8],
    entries: &[u8],
) -> Option<BlockView<'a>>
    ensures { option_map block_seen result ≡ block_of {A = Unit {0}} (app_id.now ∷ gocb_ref.now ∷ dat_set.now ∷ go_id.now ∷ conf_rev.now ∷ entries.now ∷ []) }
{
    let app_id = word_in(app_id)?;
    let gocb_ref = text_in(gocb_ref)?;
    let dat_set = text_in(dat_set)?;
    let go_id = text_in(go_id)?;
    let conf_rev = number_by(conf_rev)?;
    let entries = number_by(entries)?;
    Some(BlockView {
        app_id,
        gocb_ref,
        dat_set,
        go_id: if go_id.is_empty() { None } else { Some(go_id) },
        conf_rev,
        entries,
    })
}

// The block that a text says.
fn view_block(text: &[u8]) -> Option<BlockView<'_>>
    ensures { option_map block_seen result ≡ block_in {A = Unit {0}} text.now }
{
    let fields = fields_of(text)?;
    match fields.as_slice() {
        [app_id, gocb_ref, dat_set, go_id, conf_rev, entries] => {
            view_fields(app_id, gocb_ref, dat_set, go_id, conf_rev, entries)
        }
        _ => None,
    }
}

// The block that a view stands for, in memory of its own.
fn owned<A: Allocator + Copy>(alloc: A, view: BlockView<'_>) -> Result<Block<A>, AllocError>
    ensures block { IfOk result (λ block. block ≡ block_seen view.entry) }
    ensures keeps { IfErr result (λ _. block_keeps {A = Unit {0}} (Some (block_seen view.entry)) ≡ true) }
{
    let gocb_ref = Octets::try_from_slice(alloc, view.gocb_ref)?;
    let dat_set = Octets::try_from_slice(alloc, view.dat_set)?;
    let go_id = match view.go_id {
        Some(go_id) => Some(Octets::try_from_slice(alloc, go_id)?),
        None => None,
    };
    Ok(Block {
        app_id: view.app_id,
        gocb_ref,
        dat_set,
        go_id,
        conf_rev: view.conf_rev,
        entries: view.entries,
    })
}

/// The control block that a text says: APPID, gocbRef, datSet, goID (empty: not looked at), confRev and the count of entries,
/// divided by commas.
///
/// # Errors
///
/// `BlockForm` exactly where the text says no block; `Memory` where memory is refused for the texts of one, of which some
/// has an octet.
pub fn read_block<A: Allocator + Copy>(alloc: A, text: &str) -> Result<Block<A>, BlockError>
    ensures { AnswersBlock result (block_in text.now) }
{
    let Some(view) = view_block(text.as_bytes()) else {
        return Err(BlockError::BlockForm);
    };
    match owned(alloc, view) {
        Ok(block) => Ok(block),
        Err(error) => Err(BlockError::Memory(error)),
    }
}
