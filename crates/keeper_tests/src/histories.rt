//! A history beside a lock.
use one_history::Opening;

#[test]
fn a_history_is_opened(rt: HostRuntime) {
    let opened = Opening::<u64>::new(rt.alloc());
    assert!(rt; opened.is_ok());
}
