//! Values in memory of their own, from views.

ghost use Rattle.std.specs.Prelude.{◌≡◌, ◌≤◌, ◌-◌, ◌%◌, ◌^◌, [], IfOk, IsOk};
ghost use Rattle.mms_data.specs.Contents.{cleared};
ghost use Rattle.mms_data.specs.Meaning.{left, meaning};
ghost use Rattle.mms_data.specs.Memory.{NeedsNoMemory};
ghost use Rattle.mms_data.specs.Value.{data_of, datas};

use crate::value::{BitText, Value, ValueList};
use crate::view::{BitView, Members, View};
use ber_core::Octets;
use std::alloc::{AllocError, Allocator};

impl<'a> View<'a> {
    /// The value that the view stands for, in memory of its own.
    ///
    /// # Errors
    ///
    /// `AllocError` where memory is refused.
    #[cycle(owning)]
    pub fn to_value<A: Allocator + Copy>(&self, alloc: A) -> Result<Value<A>, AllocError>
        ensures value { IfOk result (λ v. data_of v ≡ meaning self.now) }

        // A value that needs no memory is made without any.
        ensures none { NeedsNoMemory (meaning self.now) → IsOk result }
    {
        match self {
            View::Array(members) => Ok(Value::Array(ValueList::from(members.to_values(alloc)?))),
            View::Structure(members) => Ok(Value::Structure(ValueList::from(members.to_values(
                alloc,
            )?))),
            View::Boolean(b) => Ok(Value::Boolean(*b)),
            View::Bits(bits) => Ok(Value::Bits(BitText {
                unused: bits.unused,
                octets: cleared_octets(alloc, bits)?,
            })),
            View::Integer(n) => Ok(Value::Integer(*n)),
            View::Unsigned(n) => Ok(Value::Unsigned(*n)),
            View::Floating(octets) => Ok(Value::Floating(Octets::try_from_slice(alloc, octets)?)),
            View::Octets(octets) => Ok(Value::Octets(Octets::try_from_slice(alloc, octets)?)),
            View::Visible(octets) => Ok(Value::Visible(Octets::try_from_slice(alloc, octets)?)),
            View::BinaryTime(octets) => Ok(Value::BinaryTime(Octets::try_from_slice(
                alloc, octets,
            )?)),
            View::MmsText(octets) => Ok(Value::MmsText(Octets::try_from_slice(alloc, octets)?)),
            View::Utc(time) => Ok(Value::Utc(*time)),
        }
    }
}

impl<'a> Members<'a> {
    /// The values that the members stand for, in memory of their own, which is taken once a list.
    ///
    /// # Errors
    ///
    /// `AllocError` where memory is refused.
    #[cycle(owning)]
    pub fn to_values<A: Allocator + Copy>(self, alloc: A) -> Result<Vec<Value<A>, A>, AllocError>
        ensures values { IfOk result (λ v. datas v.items ≡ left self.entry) }

        // No members need no memory.
        ensures none { left self.entry ≡ [] → IsOk result }
    {
        let mut values = Vec::with_capacity(alloc, self.count())?;
        for view in self {
            values.push(view.to_value(alloc)?)?;
        }
        Ok(values)
    }
}

// The octets of the bits, the unused ones set to 0.
fn cleared_octets<A: Allocator>(alloc: A, bits: &BitView) -> Result<Octets<A>, AllocError>
    ensures value { IfOk result (λ o. o ≡ cleared bits.now.unused bits.now.octets.now) }
    ensures none { cleared bits.now.unused bits.now.octets.now ≡ [] → IsOk result }
{
    match bits.octets {
        [] => Octets::try_from_slice(alloc, bits.octets),
        [front @ .., last] => {
            let mut octets = Vec::with_capacity(alloc, bits.octets.len())?;
            octets.extend_from_slice(front)?;
            octets.push(clear(*last, bits.unused))?;
            Ok(Octets::from(octets))
        }
    }
}

// The octet, its low `unused` bits set to 0.
pub(crate) fn clear(octet: u8, unused: u8) -> u8
    requires { unused ≤ 7 }
    ensures { result ≡ octet - octet % 2 ^ unused }
{
    octet - octet % (1 << unused)
}
