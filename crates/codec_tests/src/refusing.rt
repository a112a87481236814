//! Which growths are refused, of a vector and one by one.

use std::alloc::{AllocError, Allocator};
use test_support::RefusingAlloc;

// A growth to room for nine numbers, and one back to room for one.
fn grow_from_one<A: Allocator>(numbers: &mut Vec<u64, A>) -> Result<(), AllocError> {
    numbers.push(7)?;
    numbers.reserve_exact(8)?;
    numbers.shrink_to_fit();
    Ok(())
}

// Three growths: room for one number, for nine, and for one again.
fn grow_and_shrink<A: Allocator + Copy>(alloc: A) -> Result<(), AllocError> {
    let mut numbers = Vec::with_capacity(alloc, 1)?;
    grow_from_one(&mut numbers)
}

// A smaller block that is refused is no error of the vector's.
#[test]
fn refuses_each_growth_of_a_vector_in_turn(rt: HostRuntime) {
    for (first_refused, is_error, has_refused) in [
        (0, true, true),
        (1, true, true),
        (2, false, true),
        (3, false, false),
    ] {
        let alloc = RefusingAlloc::new(rt.alloc(), first_refused);
        assert!(rt;
            grow_and_shrink(&alloc).is_err() == is_error,
            "at {first_refused}"
        );
        assert!(rt; alloc.has_refused() == has_refused, "at {first_refused}");
    }
}

// Whether one growth is granted.
fn grants<A: Allocator + Copy>(alloc: A) -> bool {
    Vec::<u64, A>::with_capacity(alloc, 1).is_ok()
}

#[test]
fn counts_growths_until_asked_again(rt: HostRuntime) {
    let alloc = RefusingAlloc::new(rt.alloc(), 2);
    assert!(rt; grants(&alloc) && grants(&alloc) && !alloc.has_refused());
    assert!(rt; !grants(&alloc) && !grants(&alloc) && alloc.has_refused());
    alloc.allow();
    assert!(rt; grants(&alloc) && grants(&alloc) && grants(&alloc) && alloc.has_refused());
    alloc.refuse_from(1);
    assert!(rt; !alloc.has_refused() && grants(&alloc) && !alloc.has_refused());
    assert!(rt; !grants(&alloc) && !grants(&alloc) && alloc.has_refused());
}

// Whether the allocator tells that so many growths were granted and so many blocks are out.
fn has_counted<A>(alloc: &RefusingAlloc<A>, growths: usize, blocks_out: usize) -> bool {
    alloc.growths() == growths && alloc.blocks_out() == blocks_out
}

// A larger block is granted before the smaller one is given back. A refused growth is none.
#[test]
fn counts_what_is_out(rt: HostRuntime) -> Result<(), AllocError> {
    let alloc = RefusingAlloc::new(rt.alloc(), 4);
    assert!(rt; has_counted(&alloc, 0, 0));
    grow_and_shrink(&alloc)?;
    assert!(rt; has_counted(&alloc, 3, 0));
    {
        let mut numbers = Vec::with_capacity(&alloc, 1)?;
        assert!(rt; has_counted(&alloc, 4, 1));
        numbers.push(7u64)?;
        assert!(rt; numbers.reserve_exact(8).is_err() && has_counted(&alloc, 4, 1));
    }
    assert!(rt; has_counted(&alloc, 4, 0));
    Ok(())
}
