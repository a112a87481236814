//! The body of an interface description block: its options are read one by one, and none is held.
ghost use Rattle.std.specs.Prelude.{◌≡◌, ◌<◌, ◌^◌, take};
ghost use Rattle.capture_core.specs.Interfaces.{interface_in, options_in, padded, with_option};
ghost use Rattle.capture_core.specs.computed.Filling.{ReadsPart};
ghost use Rattle.capture_core.specs.computed.Sections.{ReadsOption};

use crate::filling::{Short, pass, take};
use crate::form::OctetOrder;
use crate::interface::{Interface, MICROSECONDS};
use crate::numbers::{double_at, long_at, short_at};
use crate::packet_block::padded;
use list_core::Source;

/// The code of the option that ends the others (draft-ietf-opsawg-pcapng, 3.5).
const END: u16 = 0;

/// The code of if_tsresol (4.2).
const RESOLUTION: u16 = 9;

/// The code of if_tsoffset (4.2).
const OFFSET: u16 = 14;

/// What the first option of some says.
#[derive(Clone, Copy)]
pub(crate) enum FirstOption {
    /// It was read, and has so many octets. The interface is this one after it.
    More(Interface, usize),
    /// All were read: the interface, or none where an option has no form of one.
    Last(Option<Interface>),
}

// Reads the value of an option with its padding, and answers the interface after it.
fn read_value<R: Source>(
    reader: &mut R,
    order: OctetOrder,
    code: u16,
    size: usize,
    interface: Interface,
) -> Result<Option<Interface>, Short>
    requires { size < 2 ^ 16 }
    ensures { ReadsPart (λ r octets. r ≡ with_option order code (take size octets) interface) (padded size) (R.left reader.old) (R.ending reader.old) result (R.left reader.new) (R.ending reader.new) }
{
    match code {
        RESOLUTION if size == 1 => {
            let mut value = [0u8; 4];
            take(reader, &mut value)?;
            Ok(Some(Interface {
                resolution: value[0],
                ..interface
            }))
        }
        OFFSET if size == 8 => {
            let mut value = [0u8; 8];
            take(reader, &mut value)?;
            Ok(Some(Interface {
                offset: double_at(order, &value, 0),
                ..interface
            }))
        }
        RESOLUTION | OFFSET => {
            pass(reader, padded(size))?;
            Ok(None)
        }
        _ => {
            pass(reader, padded(size))?;
            Ok(Some(interface))
        }
    }
}

// Reads the first of the options that have so many octets; or all of them, where no other is looked at.
fn read_option<R: Source>(
    reader: &mut R,
    order: OctetOrder,
    interface: Interface,
    left: usize,
) -> Result<FirstOption, Short>
    ensures { ReadsOption order interface left (R.left reader.old) (R.ending reader.old) result (R.left reader.new) (R.ending reader.new) }
{
    if left < 4 {
        pass(reader, left)?;
        return Ok(FirstOption::Last(Some(interface)));
    }
    let mut head = [0u8; 4];
    take(reader, &mut head)?;
    let code = short_at(order, &head, 0);
    let size = short_at(order, &head, 2) as usize;
    if code == END {
        pass(reader, left - 4)?;
        return Ok(FirstOption::Last(Some(interface)));
    }
    if left < 4 + padded(size) {
        pass(reader, left - 4)?;
        return Ok(FirstOption::Last(None));
    }
    match read_value(reader, order, code, size, interface)? {
        Some(after) => Ok(FirstOption::More(after, 4 + padded(size))),
        None => {
            pass(reader, left - 4 - padded(size))?;
            Ok(FirstOption::Last(None))
        }
    }
}

// Reads options that have so many octets, and answers the interface after them.
fn read_options<R: Source>(
    reader: &mut R,
    order: OctetOrder,
    plain: Interface,
    size: usize,
) -> Result<Option<Interface>, Short>
    ensures { ReadsPart (λ r octets. r ≡ options_in order octets plain) size (R.left reader.old) (R.ending reader.old) result (R.left reader.new) (R.ending reader.new) }
{
    let mut interface = plain;
    let mut left = size;
    'options: loop {
        match read_option(reader, order, interface, left)? {
            FirstOption::More(after, size) => {
                interface = after;
                left -= size;
            }
            FirstOption::Last(answer) => return Ok(answer),
        }
    }
}

// Reads the body of an interface description block, and answers the interface; none where the body has no form of one.
pub(crate) fn read_interface<R: Source>(
    reader: &mut R,
    order: OctetOrder,
    size: usize,
) -> Result<Option<Interface>, Short>
    ensures { ReadsPart (λ r body. r ≡ interface_in order body) size (R.left reader.old) (R.ending reader.old) result (R.left reader.new) (R.ending reader.new) }
{
    if size < 8 {
        pass(reader, size)?;
        return Ok(None);
    }
    let mut head = [0u8; 8];
    take(reader, &mut head)?;
    let plain = Interface {
        link_type: short_at(order, &head, 0),
        snapshot_length: long_at(order, &head, 4),
        resolution: MICROSECONDS,
        offset: 0,
    };
    read_options(reader, order, plain, size - 8)
}
