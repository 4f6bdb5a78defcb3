//! Orders, refusals that no call gives yet, and words.

use answers::End;
use names::{Call, Items, Object, Refusal, Subject};
use std::alloc::Global;
use std::test::Fail;

fn is_object_before(alloc: Global, first: &str, second: &str) -> Result<bool, Refusal> {
    let first = Object::parse(first)?;
    let second = Object::parse(second)?;
    Ok(first < second && !(second < first))
}

fn is_subject_before(alloc: Global, first: &str, second: &str) -> Result<bool, Refusal> {
    let first = Subject::parse(first)?;
    let second = Subject::parse(second)?;
    Ok(first < second)
}

#[test]
fn objects_are_ordered_by_namespace_then_id(rt: HostRuntime) -> Result<(), Fail> {
    let alloc = rt.alloc();
    for (first, second) in [
        ("doc:z", "group:A"),
        ("group:A", "group:b"),
        ("doc:9", "doc:z"),
    ] {
        assert!(rt; is_object_before(alloc, first, second)?, "at {first}");
    }
    Ok(())
}

#[test]
fn an_object_stands_before_its_nodes(rt: HostRuntime) -> Result<(), Fail> {
    let alloc = rt.alloc();
    for (first, second) in [("group:a", "group:a#member"), ("group:a#member", "group:b")] {
        assert!(rt; is_subject_before(alloc, first, second)?, "at {first}");
    }
    Ok(())
}

fn is_told(refusal: &Refusal, number: u8, name: &str, status: u16) -> bool {
    refusal.number() == number && refusal.name() == name && refusal.status() == status
}

fn are_told() -> bool {
    is_told(&Refusal::ConditionFailed(0), 5, "ConditionFailed", 409)
        && is_told(&Refusal::TooLarge, 15, "TooLarge", 413)
        && is_told(&Refusal::NotIndexed, 16, "NotIndexed", 400)
        && is_told(&Refusal::InUse, 17, "InUse", 409)
        && is_told(&Refusal::StaleBuild, 18, "StaleBuild", 409)
        && is_told(&Refusal::WrongBuild, 19, "WrongBuild", 409)
        && is_told(&Refusal::NoSeat, 20, "NoSeat", 503)
        && is_told(&Refusal::Memory, 21, "Memory", 503)
        && is_told(&Refusal::StoreFault, 22, "StoreFault", 503)
        && is_told(&Refusal::Reopen, 23, "Reopen", 503)
}

#[test]
fn refusals_have_their_number_name_and_status(rt: HostRuntime) {
    assert!(rt; are_told());
}

fn names_call(word: &str, call: Option<Call>) -> bool {
    Call::of(word.as_bytes()) == call
}

#[test]
fn words_name_calls(rt: HostRuntime) {
    let words = [
        ("write", Some(Call::Write)),
        ("config", Some(Call::Config)),
        ("check", Some(Call::Check)),
        ("read", Some(Call::Read)),
        ("expand", Some(Call::Expand)),
        ("lookup", Some(Call::Lookup)),
        ("watch", Some(Call::Watch)),
        ("leopard", Some(Call::Leopard)),
        ("hot", Some(Call::Hot)),
        ("trim", Some(Call::Trim)),
        ("catchup", Some(Call::CatchUp)),
        ("rebuild", Some(Call::Rebuild)),
        ("state", Some(Call::State)),
        ("checks", None),
        ("", None),
    ];
    for (word, call) in words {
        assert!(rt; names_call(word, call), "at {word}");
    }
}

fn keeps_items(alloc: Global) -> Result<bool, Fail> {
    let items = Items::of(vec![in alloc; 3u8, 1, 2]?);
    let kept = items.as_slice() == [3u8, 1, 2].as_slice();
    Ok(kept && items.into_vec().as_slice() == [3u8, 1, 2].as_slice())
}

#[test]
fn items_are_kept(rt: HostRuntime) -> Result<(), Fail> {
    assert!(rt; keeps_items(rt.alloc())?);
    Ok(())
}

#[test]
fn ends_differ(rt: HostRuntime) {
    let ends = [
        End::Closed,
        End::Asked,
        End::Broken,
        End::ReadFault,
        End::WriteFault,
        End::Memory,
    ];
    for (i, x) in ends.iter().enumerate() {
        for (j, y) in ends.iter().enumerate() {
            assert_eq!(rt; x == y, i == j);
        }
    }
}
