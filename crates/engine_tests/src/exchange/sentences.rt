//! What the faults say to a person.

use publish_core::PublishFault;
use std::alloc::{AllocError, Global};
use std::fmt::Display;
use std::test::Fail;
use subscribe_core::{SubscribeFault, WatchFault};

/// Whether the fault says this.
fn says<F: Display>(alloc: Global, fault: &F, sentence: &str) -> Result<bool, AllocError> {
    Ok(fault.to_string(alloc)?.as_str() == sentence)
}

#[test]
fn faults_of_a_publisher(rt: HostRuntime) -> Result<(), Fail> {
    for (fault, sentence) in [
        (PublishFault::StepCount, "a table has 1 to 16 steps"),
        (
            PublishFault::StepTimes(2),
            "step 2 waits 0 ms, or does not live longer than it waits",
        ),
        (PublishFault::FirstState, "the first stNum is 0"),
        (
            PublishFault::EntriesDiffer,
            "the number of members differs from the control's entries",
        ),
        (
            PublishFault::NotSpellable,
            "a value, the time or a text has no encoding",
        ),
        (
            PublishFault::WouldNotFit,
            "a frame of the new state would be too long",
        ),
    ] {
        assert!(rt; says(rt.alloc(), &fault, sentence)?, "{sentence}");
    }
    Ok(())
}

#[test]
fn faults_of_a_subscriber_and_a_watch(rt: HostRuntime) -> Result<(), Fail> {
    let (twice, memory) = (
        SubscribeFault::SameBlockTwice(2),
        SubscribeFault::Memory(AllocError),
    );
    let sentence = "block 2 has the APPID and the gocbRef of an earlier one";
    assert!(rt; says(rt.alloc(), &twice, sentence)?);
    assert!(rt; says(rt.alloc(), &memory, "out of memory")?);
    assert!(rt;
        says(
            rt.alloc(),
            &WatchFault::Period,
            "the period is not 2 to 65536"
        )?
    );
    Ok(())
}
