//! Replies that no run of the program gives, or only for want of memory.

use bodies::refusals::refusal;
use bodies::replies::{cursor, receipt, state};
use names::{Refusal, Reply, State};
use std::alloc::Global;
use zookie::Zookie;

fn says(reply: &Reply, wanted: u16, text: &str) -> bool {
    match reply {
        Reply::Said { status, body } => *status == wanted && body.as_slice() == text.as_bytes(),
        Reply::NoMemory => false,
    }
}

fn is_no_memory(reply: &Reply) -> bool {
    match reply {
        Reply::Said { .. } => false,
        Reply::NoMemory => true,
    }
}

fn waits(alloc: Global) -> bool {
    let zookie = Zookie { store: 1, rev: 9 };
    let told = r#"{"shown":false,"zookie":"AgAAAAAAAAABAAAAAAAAAAk"}"#;
    let moved = r#"{"cursor":"AgAAAAAAAAABAAAAAAAAAAk","shown":false}"#;
    says(&receipt(alloc, false, &zookie), 200, told)
        && says(&cursor(alloc, &zookie, false), 200, moved)
}

#[test]
fn what_waits_is_not_shown(rt: HostRuntime) {
    assert!(rt; waits(rt.alloc()));
}

fn names_its_operation(alloc: Global) -> bool {
    let failed = r#"{"error":{"code":5,"index":255,"name":"ConditionFailed"}}"#;
    says(&refusal(alloc, &Refusal::ConditionFailed(255)), 409, failed)
        && is_no_memory(&refusal(alloc, &Refusal::Memory))
}

#[test]
fn a_condition_that_failed_is_named(rt: HostRuntime) {
    assert!(rt; names_its_operation(rt.alloc()));
}

fn has_each_number(alloc: Global) -> bool {
    let numbers = State {
        base: 2,
        floor: 1,
        hot: 3,
        index: 4,
        marked: 256,
        newest: 5,
        rows: 7,
        tuples: 6,
    };
    let told = "{\"base\":\"AgAAAAAAAAABAAAAAAAAAAI\",\"floor\":\"AgAAAAAAAAABAAAAAAAAAAE\",\
        \"hot\":\"AgAAAAAAAAABAAAAAAAAAAM\",\"index\":\"AgAAAAAAAAABAAAAAAAAAAQ\",\"marked\":256,\
        \"newest\":\"AgAAAAAAAAABAAAAAAAAAAU\",\"rows\":7,\"tuples\":6}";
    says(&state(alloc, 1, &numbers), 200, told)
}

#[test]
fn a_state_has_each_number_in_its_place(rt: HostRuntime) {
    assert!(rt; has_each_number(rt.alloc()));
}
