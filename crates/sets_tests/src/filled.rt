//! Shelves that are filled with a thousand texts.
use shelf::{Shelf, Walk};
use std::alloc::{AllocError, Global};
use std::test::Fail;

const COUNT: u64 = 1000;

fn text_of(alloc: Global, i: u64) -> Result<String, AllocError> {
    format!(in alloc; "document d{i:03}")
}

/// The texts of the numbers below a thousand, each with its number, put in by steps of so many.
fn filled(alloc: Global, step: u64) -> Result<Shelf<u64>, AllocError> {
    let mut shelf = Shelf::new(alloc);
    for i in 0..COUNT {
        let number = i.wrapping_mul(step) % COUNT;
        let text = text_of(alloc, number)?;
        if text.as_str().len() <= 511 {
            let _ = shelf.insert(text.as_str(), number)?;
        }
    }
    Ok(shelf)
}

/// Whether the walk gives the numbers from one up to another, and then nothing.
fn gives(alloc: Global, walk: Walk<'_, u64>, from: u64, to: u64) -> Result<bool, AllocError> {
    let mut next = from;
    for (text, number) in walk {
        let wanted = text_of(alloc, next)?;
        if *number != next || text != wanted.as_str() {
            return Ok(false);
        }
        next = next.wrapping_add(1);
    }
    Ok(next == to)
}

/// Whether each text is found with its number, and none between two.
fn finds(alloc: Global, shelf: &Shelf<u64>) -> Result<bool, AllocError> {
    for i in 0..COUNT {
        let text = text_of(alloc, i)?;
        let later = format!(in alloc; "{text}0")?;
        if shelf.get(text.as_str()).copied() != Some(i) || shelf.get(later.as_str()).is_some() {
            return Ok(false);
        }
    }
    Ok(true)
}

/// Whether the shelf has the texts, in order, from each on.
fn is_full(alloc: Global, shelf: &Shelf<u64>) -> Result<bool, AllocError> {
    for i in 0..COUNT {
        let least = text_of(alloc, i)?;
        if i % 97 == 0 && !gives(alloc, shelf.range(least.as_str()), i, COUNT)? {
            return Ok(false);
        }
    }
    Ok(shelf.len() == 1000 && finds(alloc, shelf)? && gives(alloc, shelf.iter(), 0, COUNT)?)
}

/// Whether a walk that skips to each text gives it next.
fn skips(alloc: Global, shelf: &Shelf<u64>, step: u64) -> Result<bool, AllocError> {
    let mut walk = shelf.iter();
    for i in 0..COUNT {
        if step == 0 || i % step != 0 {
            continue;
        }
        let least = text_of(alloc, i)?;
        walk.skip_to(least.as_str());
        walk.skip_to("document");
        if walk.next().map(|(_, number)| *number) != Some(i) {
            return Ok(false);
        }
    }
    Ok(true)
}

/// Whether a value is written and replaced at each text, and the old one given back.
fn writes(alloc: Global, shelf: &mut Shelf<u64>) -> Result<bool, AllocError> {
    for i in 0..COUNT {
        let text = text_of(alloc, i)?;
        if let Some(number) = shelf.get_mut(text.as_str()) {
            *number = 7;
        }
        if text.as_str().len() <= 511 && shelf.insert(text.as_str(), i)? != Some(7) {
            return Ok(false);
        }
    }
    Ok(true)
}

#[test]
fn scattered_texts_are_in_order(rt: HostRuntime) -> Result<(), Fail> {
    let shelf = filled(rt.alloc(), 617)?;
    assert!(rt; is_full(rt.alloc(), &shelf)?);
    Ok(())
}

#[test]
fn texts_in_order_are_in_order(rt: HostRuntime) -> Result<(), Fail> {
    let shelf = filled(rt.alloc(), 1)?;
    assert!(rt; is_full(rt.alloc(), &shelf)?);
    Ok(())
}

#[test]
fn texts_from_the_last_are_in_order(rt: HostRuntime) -> Result<(), Fail> {
    let shelf = filled(rt.alloc(), 999)?;
    assert!(rt; is_full(rt.alloc(), &shelf)?);
    Ok(())
}

#[test]
fn a_walk_skips_forward_alone(rt: HostRuntime) -> Result<(), Fail> {
    let shelf = filled(rt.alloc(), 617)?;
    assert!(rt; skips(rt.alloc(), &shelf, 3)? && skips(rt.alloc(), &shelf, 131)?);
    Ok(())
}

#[test]
fn a_written_value_is_given_back(rt: HostRuntime) -> Result<(), Fail> {
    let mut shelf = filled(rt.alloc(), 617)?;
    let written = writes(rt.alloc(), &mut shelf)?;
    assert!(rt; written && is_full(rt.alloc(), &shelf)?);
    Ok(())
}

/// Takes out the texts of the numbers below a thousand that leave such a rest, by steps of so many. Whether each was there with its number,
/// and was gone then.
fn takes_out(
    alloc: Global,
    shelf: &mut Shelf<u64>,
    step: u64,
    rest: u64,
) -> Result<bool, AllocError> {
    for i in 0..COUNT {
        let number = i.wrapping_mul(step) % COUNT;
        let text = text_of(alloc, number)?;
        if number % 3 == rest
            && (shelf.remove(text.as_str()) != Some(number)
                || shelf.remove(text.as_str()).is_some())
        {
            return Ok(false);
        }
    }
    Ok(true)
}

#[test]
fn a_text_that_was_taken_out_is_gone(rt: HostRuntime) -> Result<(), Fail> {
    let alloc = rt.alloc();
    let mut shelf = filled(alloc, 617)?;
    let first = takes_out(alloc, &mut shelf, 1, 0)? && shelf.len() == 666;
    let next = takes_out(alloc, &mut shelf, 617, 1)? && shelf.len() == 333;
    let left = shelf
        .iter()
        .next()
        .map(|(text, number)| text == "document d002" && *number == 2);
    let last = takes_out(alloc, &mut shelf, 999, 2)? && shelf.is_empty();
    assert!(rt; first && next && left == Some(true) && last);
    Ok(())
}

#[test]
fn texts_are_put_in_again_where_some_were_taken_out(rt: HostRuntime) -> Result<(), Fail> {
    let alloc = rt.alloc();
    let mut shelf = filled(alloc, 1)?;
    assert!(rt; takes_out(alloc, &mut shelf, 617, 0)? && takes_out(alloc, &mut shelf, 617, 1)?);
    for i in 0..COUNT {
        let text = text_of(alloc, i)?;
        if text.as_str().len() <= 511 {
            let _ = shelf.insert(text.as_str(), i)?;
        }
    }
    assert!(rt; is_full(alloc, &shelf)?);
    Ok(())
}

/// Whether each text of an odd number is put in with it, and each of an even one, which is there, has the value that
/// was written at it.
fn enters(alloc: Global, shelf: &mut Shelf<u64>) -> Result<bool, AllocError> {
    for i in 0..COUNT {
        let text = text_of(alloc, i)?;
        if text.as_str().len() > 511 {
            return Ok(false);
        }
        let number = shelf.get_or_insert(text.as_str(), i)?;
        if *number != if i % 2 == 0 { 7 } else { i } {
            return Ok(false);
        }
        *number = i;
    }
    Ok(true)
}

#[test]
fn a_text_that_is_not_there_is_put_in(rt: HostRuntime) -> Result<(), Fail> {
    let mut shelf = Shelf::new(rt.alloc());
    for i in 0..COUNT {
        let text = text_of(rt.alloc(), i)?;
        if i % 2 == 0 && text.as_str().len() <= 511 {
            let _ = shelf.insert(text.as_str(), 7)?;
        }
    }
    let entered = enters(rt.alloc(), &mut shelf)?;
    assert!(rt; entered && is_full(rt.alloc(), &shelf)?);
    Ok(())
}

/// The texts of the numbers below a thousand, each put in by steps of so many and then written.
fn entered(alloc: Global, step: u64) -> Result<Shelf<u64>, AllocError> {
    let mut shelf = Shelf::new(alloc);
    for i in 0..COUNT {
        let number = i.wrapping_mul(step) % COUNT;
        let text = text_of(alloc, number)?;
        if text.as_str().len() <= 511 {
            *shelf.get_or_insert(text.as_str(), 7)? = number;
        }
    }
    Ok(shelf)
}

#[test]
fn texts_are_put_in_near_the_last_and_far_from_it(rt: HostRuntime) -> Result<(), Fail> {
    let alloc = rt.alloc();
    let near = is_full(alloc, &entered(alloc, 1)?)? && is_full(alloc, &entered(alloc, 999)?)?;
    let far = is_full(alloc, &entered(alloc, 617)?)? && is_full(alloc, &entered(alloc, 333)?)?;
    assert!(rt; near && far);
    Ok(())
}
