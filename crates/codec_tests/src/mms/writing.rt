//! Written forms of members from where they stand, and of elements.

use crate::mms::{DEEP, EACH_KIND, seen};
use arrayvec::ArrayVec;
use ber_core::Full;
use mms_data::{View, put_element, put_members};
use std::test::Fail;

// Lists of members in their written form: each kind, some nested.
pub(super) const WRITTEN: [&[u8]; 18] = [
    &[0x83, 0x01, 0x00],
    &[0x84, 0x01, 0x00],
    &[0x84, 0x03, 0x07, 0xff, 0x80],
    &[0x85, 0x02, 0xff, 0x7f],
    &[
        0x86, 0x09, 0x00, 0xff, 0xff, 0xff, 0xff, 0xff, 0xff, 0xff, 0xff,
    ],
    &[0x87, 0x05, 0x08, 0x41, 0x20, 0x00, 0x00],
    &[0x89, 0x00],
    &[0x89, 0x02, 0x01, 0x02],
    &[0x8a, 0x00],
    &[0x8a, 0x02, 0x41, 0x42],
    &[0x8c, 0x04, 0x00, 0x00, 0x00, 0x01],
    &[0x8c, 0x06, 0x00, 0x00, 0x00, 0x01, 0x00, 0x02],
    &[0x90, 0x00],
    &[0x90, 0x01, 0x43],
    &[0x91, 0x08, 0x65, 0x53, 0xf1, 0x00, 0x12, 0x34, 0x56, 0x0a],
    &[0xa2, 0x05, 0xa2, 0x03, 0x83, 0x01, 0xff],
    &[
        0xa1, 0x0a, 0xa2, 0x04, 0xa1, 0x00, 0xa2, 0x00, 0x85, 0x02, 0x00, 0x80,
    ],
    &[
        0x83, 0x01, 0xff, 0x85, 0x01, 0x05, 0x89, 0x00, 0xa1, 0x03, 0x83, 0x01, 0x00,
    ],
];

// The values of each kind in their written form.
const EACH_WRITTEN: [u8; 54] = [
    0x83, 1, 0xff, 0x84, 3, 3, 0xff, 0xf8, 0x85, 1, 0xfb, 0x86, 2, 0, 0xc8, 0x87, 5, 8, 0x41, 0x20,
    0, 0, 0x89, 2, 1, 2, 0x8a, 3, 0x41, 0x42, 0x43, 0x8c, 4, 0, 0, 0, 1, 0x90, 1, 0x43, 0x91, 8,
    0x60, 0, 0, 1, 0x80, 0, 0, 0x0a, 0xa1, 0, 0xa2, 0,
];

// Puts a length in the fewest octets behind the identifier.
fn put_length(element: &mut ArrayVec<u8, 2100>, length: usize) -> Result<(), Fail> {
    let (high, low) = ((length / 256 % 256) as u8, (length % 256) as u8);
    match length {
        0..=0x7f => element.try_push(low)?,
        0x80..=0xff => element.try_extend_from_slice(&[0x81, low])?,
        _ => element.try_extend_from_slice(&[0x82, high, low])?,
    }
    Ok(())
}

// The element of this identifier and these contents, its length in the fewest octets.
pub(crate) fn element(identifier: u8, contents: &[u8]) -> Result<ArrayVec<u8, 2100>, Fail> {
    let mut element = ArrayVec::new();
    element.try_push(identifier)?;
    put_length(&mut element, contents.len())?;
    element.try_extend_from_slice(contents)?;
    Ok(element)
}

// The count that is tried at this step: each up to 300, and then each fiftieth.
pub(crate) fn count_at(step: usize) -> usize {
    if step <= 300 {
        step
    } else {
        (step - 300).saturating_mul(50).saturating_add(300)
    }
}

// So many values of no octets.
pub(crate) fn empty_values(count: usize) -> Result<ArrayVec<u8, 2100>, Fail> {
    let mut octets = ArrayVec::new();
    for _ in 0..count {
        octets.try_extend_from_slice(&[0x89, 0x00])?;
    }
    Ok(octets)
}

// Whether the element is written as it is put together here.
fn is_element(contents: &[u8]) -> Result<bool, Fail> {
    let mut out = ArrayVec::<u8, 400>::new();
    put_element(&mut out, 0x89, contents)?;
    Ok(out.as_slice() == element(0x89, contents)?.as_slice())
}

#[test]
fn headers_of_elements_have_two_to_four_octets(rt: HostRuntime) -> Result<(), Fail> {
    for size in [0, 1, 127, 128, 255, 256] {
        let contents = [7; 256].as_slice().get(..size).ok_or("too few octets")?;
        assert!(rt; is_element(contents)?, "at {size}");
    }
    Ok(())
}

// The element of the members that these octets spell.
fn written(octets: &[u8]) -> Result<ArrayVec<u8, 300>, Fail> {
    let mut out = ArrayVec::new();
    put_members(&mut out, 0xab, seen(octets)?)?;
    Ok(out)
}

// Whether the members that these octets spell are written in this form.
fn have_form(octets: &[u8], form: &[u8]) -> Result<bool, Fail> {
    Ok(written(octets)?.as_slice() == element(0xab, form)?.as_slice())
}

#[test]
fn members_are_written_from_where_they_stand(rt: HostRuntime) -> Result<(), Fail> {
    for form in WRITTEN {
        assert!(rt; have_form(form, form)?, "{form:?}");
    }
    let mut deep = DEEP;
    deep[34] = 7;
    for (octets, form) in [
        (b"".as_slice(), b"".as_slice()),
        (&EACH_KIND, &EACH_WRITTEN),
        (&deep[2..], &DEEP[2..]),
    ] {
        assert!(rt; have_form(octets, form)?, "{octets:?}");
    }
    Ok(())
}

#[test]
fn lengths_shrink_to_fewer_octets(rt: HostRuntime) -> Result<(), Fail> {
    let mut front = ArrayVec::<u8, 300>::new();
    front.try_extend_from_slice(&[0xa1, 0x81, 0x80, 0x83, 0x81, 0x01, 0xff, 0x89, 0x7a])?;
    front.try_extend_from_slice(&[0; 122])?;
    let mut wanted = ArrayVec::<u8, 300>::new();
    wanted.try_extend_from_slice(&[0xab, 0x81, 0x81, 0xa1, 0x7f, 0x83, 0x01, 0xff, 0x89, 0x7a])?;
    wanted.try_extend_from_slice(&[0; 122])?;
    assert!(rt; written(front.as_slice())?.as_slice() == wanted.as_slice());
    Ok(())
}

#[test]
fn members_that_are_still_to_come_are_written(rt: HostRuntime) -> Result<(), Fail> {
    let octets = [
        0x83, 0x01, 0x07, 0xa1, 0x04, 0x86, 0x02, 0x00, 0x05, 0x89, 0x00,
    ];
    let mut views = seen(&octets)?;
    assert!(rt; views.next().is_some());
    let mut out = ArrayVec::<u8, 14>::new();
    assert!(rt; put_members(&mut out, 0xab, views) == Ok(()));
    let Some(View::Array(array)) = views.next() else {
        return Err(Fail::from("no array"));
    };
    assert!(rt; put_members(&mut out, 0xa1, array) == Ok(()));
    assert!(rt; put_members(&mut out, 0xa2, views) == Err(Full));
    let wanted = [
        0xab, 0x07, 0xa1, 0x03, 0x86, 0x01, 0x05, 0x89, 0x00, 0xa1, 0x03, 0x86, 0x01, 0x05,
    ];
    assert!(rt; out.as_slice() == wanted.as_slice());
    Ok(())
}
