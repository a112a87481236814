//! Equal values in further memory.

ghost use Rattle.std.specs.Prelude.{◌≡◌, [], IfOk, IsOk};
ghost use Rattle.mms_data.specs.Memory.{NeedsNoMemory};
ghost use Rattle.mms_data.specs.Value.{data_of};

use crate::value::{BitText, Value, ValueList};
use std::alloc::{AllocError, Allocator};

impl<A: Allocator + Copy> Value<A> {
    /// An equal value in further memory.
    ///
    /// # Errors
    ///
    /// `AllocError` where memory is refused.
    #[cycle(copying)]
    pub fn try_copy(&self, alloc: A) -> Result<Value<A>, AllocError>
        ensures value { IfOk result (λ v. v ≡ self.now) }

        // A value that needs no memory is copied without any.
        ensures none { NeedsNoMemory (data_of self.now) → IsOk result }
    {
        match self {
            Value::Array(values) => Ok(Value::Array(values.try_copy(alloc)?)),
            Value::Structure(values) => Ok(Value::Structure(values.try_copy(alloc)?)),
            Value::Boolean(b) => Ok(Value::Boolean(*b)),
            Value::Bits(bits) => Ok(Value::Bits(BitText {
                unused: bits.unused,
                octets: bits.octets.try_copy(alloc)?,
            })),
            Value::Integer(n) => Ok(Value::Integer(*n)),
            Value::Unsigned(n) => Ok(Value::Unsigned(*n)),
            Value::Floating(octets) => Ok(Value::Floating(octets.try_copy(alloc)?)),
            Value::Octets(octets) => Ok(Value::Octets(octets.try_copy(alloc)?)),
            Value::Visible(octets) => Ok(Value::Visible(octets.try_copy(alloc)?)),
            Value::BinaryTime(octets) => Ok(Value::BinaryTime(octets.try_copy(alloc)?)),
            Value::MmsText(octets) => Ok(Value::MmsText(octets.try_copy(alloc)?)),
            Value::Utc(time) => Ok(Value::Utc(*time)),
        }
    }
}

impl<A: Allocator + Copy> ValueList<A> {
    /// Equal values in further memory.
    ///
    /// # Errors
    ///
    /// `AllocError` where memory is refused.
    #[cycle(copying)]
    pub fn try_copy(&self, alloc: A) -> Result<ValueList<A>, AllocError>
        ensures value { IfOk result (λ l. l ≡ self.now) }

        // No values need no memory.
        ensures none { self.now ≡ [] → IsOk result }
    {
        let values = self.as_slice();
        let mut copies = Vec::with_capacity(alloc, values.len())?;
        for value in values {
            copies.push(value.try_copy(alloc)?)?;
        }
        Ok(ValueList::from(copies))
    }
}
