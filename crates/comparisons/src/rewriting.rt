//! Random rewrites, as texts.

use crate::dice::Dice;
use std::alloc::{AllocError, Global};

/// Which relations a rewrite may look up, those that it may subtract, and how its parts are joined. With a `^` before
/// it a relation is looked up at the parents.
#[derive(Clone, Copy)]
pub(crate) struct Shape<'a> {
    pub(crate) near: &'a str,
    pub(crate) lower: &'a str,
    pub(crate) joins: &'a str,
}

fn looked_up(alloc: Global, dice: &mut Dice, words: &str) -> Result<String, AllocError> {
    let word = dice.word(words);
    match word.strip_prefix('^') {
        Some(relation) => {
            format!(in alloc; r#"{{"tuple_to":{{"tupleset":"parent","relation":"{relation}"}}}}"#)
        }
        None => format!(in alloc; r#"{{"computed":"{word}"}}"#),
    }
}

fn subtracted(alloc: Global, dice: &mut Dice, words: &str) -> Result<String, AllocError> {
    let first = looked_up(alloc, dice, words)?;
    if dice.roll(2) == 0 {
        return Ok(first);
    }
    let second = looked_up(alloc, dice, words)?;
    let join = dice.word("union intersection exclusion");
    format!(in alloc; r#"{{"{join}":[{first},{second}]}}"#)
}

// The rewrite, joined with another one.
fn joined(
    alloc: Global,
    dice: &mut Dice,
    first: &str,
    shape: Shape<'_>,
) -> Result<String, AllocError> {
    if shape.lower != "" && dice.roll(2) == 0 {
        let second = subtracted(alloc, dice, shape.lower)?;
        return format!(in alloc; r#"{{"exclusion":[{first},{second}]}}"#);
    }
    let second = looked_up(alloc, dice, shape.near)?;
    let join = dice.word(shape.joins);
    format!(in alloc; r#"{{"{join}":[{first},{second}]}}"#)
}

/// A random rewrite, `this` among its parts.
pub(crate) fn rewrite(
    alloc: Global,
    dice: &mut Dice,
    shape: Shape<'_>,
) -> Result<String, AllocError> {
    let mut text = String::from_str(alloc, r#""this""#)?;
    if shape.near == "" {
        return Ok(text);
    }
    for _ in 0..dice.roll(3) {
        text = joined(alloc, dice, text.as_str(), shape)?;
    }
    Ok(text)
}
