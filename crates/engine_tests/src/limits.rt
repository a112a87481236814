//! A publisher's longest state, with ample memory.

use goose_cmd::{Ending, publish};
use std::alloc::{AllocError, Global};
use test_support::{NEVER, sink_of, source_of};

// Puts a step and the line of a change to an octet string of so many octets, 256 to 65,535.
fn put_script(script: &mut Vec<u8>, size: &[u8], octets: u32) -> Result<(), AllocError> {
    script.extend_from_slice(
        b"control,010ccd010001,020000000001,,0001,G,D,,1,1,0,0,1\nstep,10,2000\nchange,0,0000000000000000,8982",
    )?;
    script.extend_from_slice(size)?;
    for _ in 0..octets {
        script.extend_from_slice(b"00")?;
    }
    script.extend_from_slice(b"\n")?;
    Ok(())
}

// Whether `publish` ends so with this script, and what it writes begins so.
fn ends(alloc: Global, script: &[u8], ending: &Ending, text: &[u8]) -> bool {
    let mut sink = sink_of(alloc, 8192, NEVER);
    let (ended, _source) = publish(alloc, source_of(script, 8192, NEVER), &mut sink);
    ended == *ending && sink.octets.as_slice().starts_with(text)
}

// The same of a change to so many octets.
fn publishes(
    alloc: Global,
    (size, octets): (&[u8], u32),
    ending: &Ending,
    text: &[u8],
) -> Result<bool, AllocError> {
    let mut script = Vec::new(alloc);
    put_script(&mut script, size, octets)?;
    Ok(ends(alloc, script.as_slice(), ending, text))
}

#[test]
fn a_state_is_refused_for_its_longest_retransmission(rt: HostRuntime) -> Result<(), AllocError> {
    // With 1,438 octets the longest retransmission has a Length of 1,500, and with 1,440 the first frame one of 1,498.
    let first = b"V2\nF 0 010ccd01000102000000000188b8000105d8";
    assert!(rt; publishes(rt.alloc(), (b"059e", 1438), &Ending::Done, first)?);
    // No line has more octets than the last: it has 4,096.
    let refused = b"V2\n# 3 script WouldNotFit\n";
    for (size, octets) in [(b"05a0", 1440), (b"07ef", 2031)] {
        let is_refused = publishes(rt.alloc(), (size, octets), &Ending::InputFault, refused)?;
        assert!(rt; is_refused, "{octets} octets");
    }
    Ok(())
}
