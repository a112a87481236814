//! Values in memory of their own.

use crate::time::UtcTime;
use ber_core::Octets;
use std::alloc::Allocator;
use std::marker::Model;

/// Bits, from the most significant of the first octet on. The last `unused` bits of the last octet are no
/// part of them.
#[derive(Drop)]
pub struct BitText<A: Allocator> {
    pub unused: u8,
    pub octets: Octets<A>,
}

/// A value of Data (ISO 9506-2). The floating-point number, the binary time and the MMS string are kept as
/// the octets that spell them.
#[cycle(value)]
#[derive(Drop)]
pub enum Value<A: Allocator> {
    Array(ValueList<A>),
    Structure(ValueList<A>),
    Boolean(bool),
    Bits(BitText<A>),
    Integer(i64),
    Unsigned(u64),
    Floating(Octets<A>),
    Octets(Octets<A>),
    Visible(Octets<A>),
    BinaryTime(Octets<A>),
    MmsText(Octets<A>),
    Utc(UtcTime),
}

/// Values one after the other, made from a `Vec` and given back as one. A contract sees the list of their data.
#[cycle(value)]
#[derive(Drop)]
pub struct ValueList<A: Allocator> {
    values: Vec<Value<A>, A>,
}

impl<A: Allocator> Model for ValueList<A> {
    ghost use Rattle.std.specs.Prelude.{List};
    ghost use Rattle.std.specs.Coded.{coded_list};
    ghost use Rattle.mms_data.specs.Data.{Data};
    ghost use Rattle.mms_data.specs.computed.DataCode.{data_code};

    ghost Value = { List Data };

    ghost coded = { coded_list data_code };

    ghost use Rattle.mms_data.specs.Value.{datas};

    ghost view = { λ l. datas l.values.items };

    ghost use Rattle.mms_data.specs.computed.Weight.{weight_of_all};

    ghost size = { weight_of_all };

    ghost use Rattle.mms_data.specs.computed.Falls.{falls};

    ghost size_decreases = { λ l h. falls _ A.Allocator l.values.items };
}

impl<A: Allocator> ValueList<A> {
    ghost use Rattle.std.specs.Prelude.{◌≡◌};
    ghost use Rattle.mms_data.specs.Value.{datas};

    /// The values.
    pub fn as_slice(&self) -> &[Value<A>]
        ensures { datas result.now ≡ self.now }
    {
        self.values.as_slice()
    }

    /// The vector that holds the values.
    pub fn into_vec(self) -> Vec<Value<A>, A>
        ensures { datas result.items ≡ self }
    {
        let ValueList { values } = self;
        values
    }
}

impl<A: Allocator> From<Vec<Value<A>, A>> for ValueList<A> {
    ghost use Rattle.std.specs.Prelude.{◌≡◌};
    ghost use Rattle.mms_data.specs.Value.{datas};

    ghost from_gives = { λ v o. o ≡ datas v.items };

    fn from(values: Vec<Value<A>, A>) -> ValueList<A> {
        ValueList { values }
    }
}
