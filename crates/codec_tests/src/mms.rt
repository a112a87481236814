//! Outside examples: values and faults of octets, and what has a written form.

pub(crate) mod memory;
pub(crate) mod writing;

use arrayvec::ArrayVec;
use ber_core::{Cause, Fault, header};
use mms_data::{
    Members, Octets, PutFault, ReadFault, UtcTime, Value, ValueList, View, are_spellable,
    check_members, is_spellable, laws, members, put_value, put_values, read_members,
    spelled_length, utc,
};
use std::alloc::{AllocError, Global};
use std::test::Fail;

// Sixteen arrays inside one another, and a boolean inside the last.
const DEEP: [u8; 35] = [
    0xa1, 0x21, 0xa1, 0x1f, 0xa1, 0x1d, 0xa1, 0x1b, 0xa1, 0x19, 0xa1, 0x17, 0xa1, 0x15, 0xa1, 0x13,
    0xa1, 0x11, 0xa1, 0x0f, 0xa1, 0x0d, 0xa1, 0x0b, 0xa1, 0x09, 0xa1, 0x07, 0xa1, 0x05, 0xa1, 0x03,
    0x83, 0x01, 0xff,
];

// Each kind once; true is spelled by 05, the integer by an octet more than it needs, and the unused bits are set.
const EACH_KIND: [u8; 55] = [
    0x83, 1, 5, 0x84, 3, 3, 0xff, 0xff, 0x85, 2, 0xff, 0xfb, 0x86, 2, 0, 0xc8, 0x87, 5, 8, 0x41,
    0x20, 0, 0, 0x89, 2, 1, 2, 0x8a, 3, 0x41, 0x42, 0x43, 0x8c, 4, 0, 0, 0, 1, 0x90, 1, 0x43, 0x91,
    8, 0x60, 0, 0, 1, 0x80, 0, 0, 0x0a, 0xa1, 0, 0xa2, 0,
];

const MOMENT: UtcTime = UtcTime {
    seconds: 0x6000_0001,
    fraction: 0x80_0000,
    quality: 0x0a,
};

// Whether they are those values without members.
fn are_simple(values: &[Value<Global>]) -> bool {
    let [
        Value::Boolean(true),
        Value::Bits(bits),
        Value::Integer(-5),
        Value::Unsigned(200),
        Value::Floating(_),
        Value::Octets(octets),
        Value::Visible(text),
        Value::BinaryTime(_),
        Value::MmsText(_),
        Value::Utc(time),
        ..
    ] = values
    else {
        return false;
    };
    bits.unused == 3
        && bits.octets.as_slice() == [0xff, 0xf8].as_slice()
        && octets.as_slice() == [1, 2].as_slice()
        && text.as_slice() == b"ABC".as_slice()
        && *time == MOMENT
}

/// The members that the octets spell, seen where they stand.
pub(crate) fn seen(octets: &[u8]) -> Result<Members<'_>, Fault> {
    check_members(octets, 0, octets.len(), 1)?;
    Ok(members(octets, 0, octets.len(), 1))
}

// Whether the first alone is passed as a boolean, and bits stand behind it.
fn passes_one(mut views: Members<'_>) -> bool {
    views.next_boolean() == Some(true)
        && views.next_boolean() == None
        && matches!(views.next(), Some(View::Bits(_)))
}

#[test]
fn booleans_are_passed_alone(rt: HostRuntime) -> Result<(), Fail> {
    assert!(rt; passes_one(seen(&EACH_KIND)?));
    Ok(())
}

#[test]
fn eight_octets_are_a_time(rt: HostRuntime) {
    assert!(rt; utc::time_of(&[0x60, 0, 0, 1, 0x80, 0, 0, 0x0a]) == MOMENT);
}

#[test]
fn values_are_those_that_are_spelled(rt: HostRuntime) -> Result<(), Fail> {
    let values = read_members(rt.alloc(), &EACH_KIND, 0, 55, 1)?;
    assert!(rt; are_simple(values.as_slice()));
    assert!(rt; matches!(values.get(10), Some(Value::Array(_))));
    assert!(rt; matches!(values.get(11), Some(Value::Structure(_))));
    Ok(())
}

#[test]
fn views_are_those_that_are_spelled(rt: HostRuntime) -> Result<(), Fail> {
    assert!(rt; count(&EACH_KIND) == Ok(12));
    check_members(&EACH_KIND, 0, 55, 1)?;
    let mut views = members(&EACH_KIND, 0, 55, 1);
    assert!(rt; matches!(views.next(), Some(View::Boolean(true))));
    assert!(rt; matches!(views.next(), Some(View::Bits(_))));
    assert!(rt; matches!(views.next(), Some(View::Integer(-5))));
    assert!(rt; views.count() == 9);
    Ok(())
}

#[test]
fn a_time_has_eight_octets(rt: HostRuntime) -> Result<(), Fail> {
    let header = header(&EACH_KIND, 41, 51)?;
    assert!(rt; utc::utc_time(&EACH_KIND, &header) == Ok(MOMENT));
    assert!(rt; MOMENT.to_octets() == [0x60, 0, 0, 1, 0x80, 0, 0, 0x0a]);
    Ok(())
}

fn count(octets: &[u8]) -> Result<usize, Fault> {
    check_members(octets, 0, octets.len(), 1)
}

#[test]
fn faults_at_their_places(rt: HostRuntime) {
    for (octets, wanted) in [
        ([0x85, 0x82, 1].as_slice(), Err(Cause::Ends.at(3))),
        (&[0x9f, 1, 0], Err(Cause::HighTag.at(0))),
        (&[0x85, 2, 0], Err(Cause::LengthPastEnd.at(1))),
        (&[0x83, 1, 0, 0x88], Err(Cause::UnexpectedTag.at(3))),
        (&[0x84, 2, 8, 0], Err(Cause::BitUnused.at(2))),
        (&[0x84, 1, 0], Ok(1)),
        (&[0x86, 1, 0xff], Err(Cause::IntegerRange.at(2))),
        (&[0x8c, 2, 0, 0], Err(Cause::FixedLength.at(1))),
        (&[0x8a, 2, 0x41, 7], Err(Cause::NotVisible.at(3))),
        (&DEEP, Err(Cause::TooDeep.at(32))),
        (&DEEP[2..], Ok(1)),
    ] {
        assert!(rt; count(octets) == wanted, "{octets:?}");
    }
}

#[test]
fn reading_answers_the_fault(rt: HostRuntime) {
    let answer = read_members(rt.alloc(), &DEEP, 0, 35, 1);
    let wanted = Cause::TooDeep.at(32);
    assert!(rt; matches!(answer, Err(ReadFault::Fault(fault)) if fault == wanted));
}

// A visible text of these octets.
fn visible(alloc: Global, text: &[u8]) -> Result<Value<Global>, AllocError> {
    Ok(Value::Visible(Octets::try_from_slice(alloc, text)?))
}

// A copy of the integer 5.
fn five(alloc: Global) -> Result<Value<Global>, AllocError> {
    Value::Integer(5).try_copy(alloc)
}

// How the value is put behind what the vector holds, and how long its written form is.
fn put(out: &mut ArrayVec<u8, 5>, value: Value<Global>) -> (Result<(), PutFault>, Option<usize>) {
    (put_value(out, &value), length(value))
}

#[test]
fn a_value_fits_or_leaves_the_vector(rt: HostRuntime) -> Result<(), Fail> {
    let mut out = ArrayVec::<u8, 5>::new();
    assert!(rt; put(&mut out, visible(rt.alloc(), &[7])?) == (Err(PutFault::NotSpellable), None));
    assert!(rt; put(&mut out, five(rt.alloc())?) == (Ok(()), Some(3)));
    assert!(rt; put(&mut out, five(rt.alloc())?) == (Err(PutFault::Full), Some(3)));
    assert!(rt; out.as_slice() == [0x85, 1, 5].as_slice());
    Ok(())
}

// How long the written form of the value is, where it may be so long.
fn length(value: Value<Global>) -> Option<usize> {
    spelled_length(&value)
}

// The same of so many octets.
fn length_of(alloc: Global, count: usize) -> Result<Option<usize>, AllocError> {
    Ok(length(Value::Octets(Octets::from(vec![in alloc; 0; count]?))))
}

#[test]
fn a_written_form_of_65535_octets(rt: HostRuntime) {
    assert!(rt; length_of(rt.alloc(), 65531) == Ok(Some(65535)));
    assert!(rt; length_of(rt.alloc(), 65532) == Ok(None));
}

// The list of one value.
fn alone(alloc: Global, value: Value<Global>) -> Result<ValueList<Global>, Fail> {
    let mut values = Vec::new(alloc);
    values.push(value)?;
    Ok(ValueList::from(values))
}

// At how many of the levels from 1 to 17 the value has a spelling.
fn levels(value: &Value<Global>) -> usize {
    (1..=17u8)
        .filter(|level| is_spellable(value, *level))
        .count()
}

#[test]
fn the_last_level_has_no_members(rt: HostRuntime) -> Result<(), Fail> {
    let empty = Value::Array(ValueList::from(Vec::new(rt.alloc())));
    assert!(rt; is_spellable(&empty, 16) && levels(&empty) == 16);
    let one = Value::Structure(alone(rt.alloc(), empty)?);
    assert!(rt; is_spellable(&one, 15) && levels(&one) == 15);
    Ok(())
}

#[test]
fn a_fraction_over_a_second_is_not_written(rt: HostRuntime) -> Result<(), Fail> {
    let late = UtcTime {
        fraction: 0x100_0000,
        ..MOMENT
    };
    let values = alone(rt.alloc(), Value::Utc(late))?;
    let mut out = ArrayVec::<u8, 16>::new();
    assert!(rt; put_values(&mut out, &values) == Err(PutFault::NotSpellable));
    assert!(rt; !are_spellable(&values, 1) && values.into_vec().len() == 1);
    Ok(())
}

#[test]
fn laws_hold() {
    laws::one_reading();
    laws::written_is_spelled();
    laws::written_is_shortest();
    laws::spelled_is_spellable();
    laws::seen_is_spelled();
    laws::reading_tells();
}
