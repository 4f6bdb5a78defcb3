//! Sets of a few ids, and few ids sought among many.
use idsets::{Galloping, IdSet, Seek, exclude, first_missing, intersect, union};
use std::alloc::{AllocError, Global};
use std::test::Fail;

/// The multiples of a number, so many of them.
fn multiples(alloc: Global, number: u64, count: u64) -> Result<IdSet, AllocError> {
    let mut ids = Vec::new(alloc);
    for i in 0..count {
        ids.push(i.wrapping_mul(number))?;
    }
    Ok(IdSet::of(ids))
}

#[test]
fn ids_are_put_in_order_once(rt: HostRuntime) -> Result<(), Fail> {
    let mut set = IdSet::of(vec![in rt.alloc(); 9, 1, 5, 1, 9, 3]?);
    assert_eq!(rt; set.as_slice(), [1, 3, 5, 9].as_slice());
    assert!(rt; set.contains(9) && !set.contains(4) && set.len() == 4);
    assert!(rt; set.insert(4)? && !set.insert(9)? && set.remove(1) && !set.remove(2));
    assert_eq!(rt; set.as_slice(), [3, 4, 5, 9].as_slice());
    assert_eq!(rt; set.again()?.as_slice(), set.as_slice());
    assert!(rt; IdSet::new(rt.alloc()).is_empty());
    Ok(())
}

#[test]
fn runs_are_merged(rt: HostRuntime) -> Result<(), Fail> {
    let set = IdSet::of_runs(vec![in rt.alloc(); 1, 5, 9, 0, 5, 7]?)?;
    assert_eq!(rt; set.as_slice(), [0, 1, 5, 7, 9].as_slice());
    Ok(())
}

#[test]
fn two_sets_are_put_together(rt: HostRuntime) -> Result<(), Fail> {
    let alloc = rt.alloc();
    let a = IdSet::of(vec![in alloc; 1, 3, 5, 7, 9]?);
    let b = IdSet::of(vec![in alloc; 0, 3, 4, 9, 12]?);
    assert_eq!(rt;
        union(alloc, &a, &b)?.as_slice(),
        [0, 1, 3, 4, 5, 7, 9, 12].as_slice()
    );
    assert_eq!(rt; exclude(alloc, &a, &b)?.as_slice(), [1, 5, 7].as_slice());
    assert_eq!(rt;
        intersect(alloc, &a, &mut Galloping::new(&b))?.as_slice(),
        [3, 9].as_slice()
    );
    assert_eq!(rt; first_missing(&a, &mut Galloping::new(&b)), Some(1));
    assert_eq!(rt; first_missing(&a, &mut Galloping::new(&a)), None);
    Ok(())
}

#[test]
fn few_ids_are_found_among_many(rt: HostRuntime) -> Result<(), Fail> {
    let few = multiples(rt.alloc(), 30_000, 10)?;
    let many = multiples(rt.alloc(), 4, 100_000)?;
    let mut search = Galloping::new(&many);
    let both = intersect(rt.alloc(), &few, &mut search)?;
    assert_eq!(rt; both.len(), 10);
    assert_eq!(rt; search.seeks(), 10);
    assert_eq!(rt; search.seek(399_997), None);
    assert_eq!(rt; search.seek(17), Some(20));
    Ok(())
}
