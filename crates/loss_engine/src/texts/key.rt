//! Of which sender or stream something is told.
ghost use Rattle.std.specs.Prelude.{◌++◌, codes};
ghost use Rattle.text_core.specs.Pieces.{AppendsText, four_digits};
ghost use Rattle.object_core.specs.Onward.{onward};
ghost use Rattle.loss_engine.specs.KeySaid.{key_said};
ghost use Rattle.loss_engine.specs.LossLine.{key_text};
ghost use Rattle.loss_engine.specs.LossObject.{key_fields};
ghost use Rattle.loss_engine.specs.Sights.{sender as of_sender, stream as of_stream};

use crate::key::{Key, SenderKey, StreamKey};
use object_core::fields::{put_field_boolean, put_field_octets};
use std::alloc::{AllocError, Allocator};
use text_core::fields::{put_octets, put_text};
use text_core::pieces::{put_boolean, put_four_digits};

// Appends an APPID behind its word.
fn put_app_id<A: Allocator>(out: &mut Vec<u8, A>, app_id: u16) -> Result<(), AllocError>
    ensures { AppendsText result out.old.items out.new.items (codes " appid=" ++ four_digits app_id) }
{
    out.extend_from_slice(b" appid=")?;
    put_four_digits(out, app_id)
}

// Appends the words of a sender.
fn put_sender<A: Allocator>(out: &mut Vec<u8, A>, sender: &SenderKey<'_>) -> Result<(), AllocError>
    ensures { AppendsText result out.old.items out.new.items (key_text (of_sender sender.now.app_id sender.now.reference.now sender.now.simulation)) }
{
    put_app_id(out, sender.app_id)?;
    put_text(out, b" ref=", sender.reference)?;
    out.extend_from_slice(b" sim=")?;
    put_boolean(out, sender.simulation)
}

// Appends the words of a stream.
fn put_stream<A: Allocator>(out: &mut Vec<u8, A>, stream: &StreamKey<'_>) -> Result<(), AllocError>
    ensures { AppendsText result out.old.items out.new.items (key_text (of_stream stream.now.app_id stream.now.source stream.now.id.now)) }
{
    put_app_id(out, stream.app_id)?;
    put_octets(out, b" source=", &stream.source)?;
    put_text(out, b" id=", stream.id)
}

/// Appends the words of a sender or a stream, each behind a space.
pub fn put_key<A: Allocator>(out: &mut Vec<u8, A>, key: &Key<'_>) -> Result<(), AllocError>
    ensures { AppendsText result out.old.items out.new.items (key_text (key_said key.now)) }
{
    match key {
        Key::Sender(sender) => put_sender(out, sender),
        Key::Stream(stream) => put_stream(out, stream),
    }
}

// Appends the fields of a sender.
fn put_sender_fields<A: Allocator>(
    out: &mut Vec<u8, A>,
    sender: &SenderKey<'_>,
) -> Result<(), AllocError>
    ensures { AppendsText result out.old.items out.new.items (onward (key_fields (of_sender sender.now.app_id sender.now.reference.now sender.now.simulation))) }
{
    let app_id = [(sender.app_id / 256) as u8, (sender.app_id % 256) as u8];
    put_field_octets(out, b",\"appid\":", &app_id)?;
    put_text(out, b",\"gocbRef\":", sender.reference)?;
    put_field_boolean(out, b",\"simulation\":", sender.simulation)
}

// Appends the fields of a stream.
fn put_stream_fields<A: Allocator>(
    out: &mut Vec<u8, A>,
    stream: &StreamKey<'_>,
) -> Result<(), AllocError>
    ensures { AppendsText result out.old.items out.new.items (onward (key_fields (of_stream stream.now.app_id stream.now.source stream.now.id.now))) }
{
    let app_id = [(stream.app_id / 256) as u8, (stream.app_id % 256) as u8];
    put_field_octets(out, b",\"appid\":", &app_id)?;
    put_field_octets(out, b",\"source\":", &stream.source)?;
    put_text(out, b",\"svID\":", stream.id)
}

/// Appends the fields of a sender or a stream, each behind a comma.
pub fn put_key_fields<A: Allocator>(out: &mut Vec<u8, A>, key: &Key<'_>) -> Result<(), AllocError>
    ensures { AppendsText result out.old.items out.new.items (onward (key_fields (key_said key.now))) }
{
    match key {
        Key::Sender(sender) => put_sender_fields(out, sender),
        Key::Stream(stream) => put_stream_fields(out, stream),
    }
}
