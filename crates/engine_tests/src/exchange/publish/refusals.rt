//! What is refused, in which order, and what is left as it was.

use crate::exchange::publish::frames::{
    NO_TIME, booleans, changed, control, is_changed, publisher, step,
};
use mms_data::{Octets, UtcTime, Value, ValueList};
use publish_core::{Control, PublishFault, Publisher, Step, Table};
use std::alloc::{AllocError, Global};
use std::test::Fail;

// Why these steps make no table.
fn fault_of(steps: &[Step]) -> Option<PublishFault> {
    match Table::new(steps) {
        Ok(_table) => None,
        Err(fault) => Some(fault),
    }
}

#[test]
fn steps_that_make_no_table(rt: HostRuntime) {
    let (good, bad) = (step(10, 2000), step(10, 10));
    assert!(rt; fault_of(&[]) == Some(PublishFault::StepCount));
    assert!(rt; fault_of(&[bad; 17]) == Some(PublishFault::StepCount));
    assert!(rt; fault_of(&[good; 16]) == None);
    assert!(rt; fault_of(&[good, good, bad, bad]) == Some(PublishFault::StepTimes(2)));
}

// A time of change whose fraction of a second has no spelling.
pub const WIDE: UtcTime = UtcTime {
    seconds: 0,
    fraction: 16_777_216,
    quality: 0,
};

// One value alone.
fn alone(alloc: Global, value: Value<Global>) -> Result<ValueList<Global>, AllocError> {
    let mut values = Vec::new(alloc);
    values.push(value)?;
    Ok(ValueList::from(values))
}

// So many octets.
fn octets(alloc: Global, size: usize) -> Result<Octets<Global>, AllocError> {
    Ok(Octets::from(vec![in alloc; 7; size]?))
}

// Whether a change to these values is refused for this reason, and hands so many values back.
fn is_refused(
    publisher: &mut Publisher<Global>,
    t: UtcTime,
    values: ValueList<Global>,
    wanted: PublishFault,
    count: usize,
) -> bool {
    match changed(publisher, 7, t, values) {
        Ok(_octets) => false,
        Err((fault, handed_back)) => fault == wanted && handed_back == count,
    }
}

// Whether changes are refused in the order of their faults, and the publisher is then as it was.
fn are_refused_in_order(
    alloc: Global,
    publisher: &mut Publisher<Global>,
) -> Result<bool, AllocError> {
    let two = booleans(alloc, 2, true)?;
    let is_two = is_refused(publisher, WIDE, two, PublishFault::EntriesDiffer, 2);
    let wide = alone(alloc, Value::Octets(octets(alloc, 1500)?))?;
    let is_wide = is_refused(publisher, WIDE, wide, PublishFault::NotSpellable, 1);
    let odd = alone(alloc, Value::BinaryTime(octets(alloc, 5)?))?;
    let is_odd = is_refused(publisher, NO_TIME, odd, PublishFault::NotSpellable, 1);
    let long = alone(alloc, Value::Octets(octets(alloc, 1439)?))?;
    let is_long = is_refused(publisher, NO_TIME, long, PublishFault::WouldNotFit, 1);
    Ok(
        is_two
            && is_wide
            && is_odd
            && is_long
            && publisher.moment() == 0
            && is_changed(alloc, publisher, 0, (1, true))?,
    )
}

// The same of a publisher.
fn has_its_order(alloc: Global) -> Result<bool, Fail> {
    let mut publisher = publisher(control(alloc, 1)?, &[step(10, 2000)])?;
    Ok(are_refused_in_order(alloc, &mut publisher)?)
}

#[test]
fn changes_are_refused_in_this_order(rt: HostRuntime) -> Result<(), Fail> {
    assert!(rt; has_its_order(rt.alloc())?);
    Ok(())
}

// A control of which a text has no spelling.
fn odd_control(alloc: Global) -> Result<Control<Global>, AllocError> {
    let text = Octets::from(Vec::from_slice(alloc, &[0x7f])?);
    let mut odd = control(alloc, 1)?;
    odd.dat_set = text;
    Ok(odd)
}

// Whether a publisher of it refuses its first change.
fn is_odd_refused(alloc: Global) -> Result<bool, Fail> {
    let mut publisher = publisher(odd_control(alloc)?, &[step(10, 2000)])?;
    let one = booleans(alloc, 1, true)?;
    Ok(is_refused(&mut publisher, NO_TIME, one, PublishFault::NotSpellable, 1))
}

#[test]
fn a_control_with_a_text_without_a_spelling(rt: HostRuntime) -> Result<(), Fail> {
    assert!(rt; is_odd_refused(rt.alloc())?);
    Ok(())
}

#[test]
fn a_first_status_number_of_zero(rt: HostRuntime) -> Result<(), Fail> {
    let table = Table::new(&[step(10, 2000)])?;
    let refused = Publisher::new(control(rt.alloc(), 1)?, table, 0);
    assert!(rt; refused.err() == Some(PublishFault::FirstState));
    Ok(())
}
