//! Random configurations.

use crate::dice::Dice;
use crate::policies::Policy;
use crate::rewriting::{Shape, rewrite};
use config::Config;
use names::Refusal;
use std::alloc::{AllocError, Global};

/// How many texts are drawn before one that is valid is given up.
const TRIES: u64 = 30;

const PLAIN: &str =
    r#"{"namespaces":{"doc":{"viewer":{"types":["user"]}},"group":{"member":{"indexed":true,"types":["user","group#member"]}},"user":{}}}"#;

const JOINS: &str = "union union intersection";

fn relation(
    alloc: Global,
    dice: &mut Dice,
    name: &str,
    types: &str,
    shape: Shape<'_>,
    indexed: bool,
) -> Result<String, AllocError> {
    let rewrite = rewrite(alloc, dice, shape)?;
    format!(in alloc;
        r#""{name}":{{"indexed":{indexed},"types":["user"{types}],"rewrite":{rewrite}}}"#
    )
}

// Where members of groups are no admins of any, admins may be indexed alone.
fn groups(alloc: Global, dice: &mut Dice) -> Result<String, AllocError> {
    let apart = dice.roll(3) == 0;
    let indexed = dice.roll(4) > 0;
    let alone = apart && indexed && dice.roll(2) == 0;
    let joins = if indexed { "union" } else { JOINS };
    let of_admin = Shape {
        near: if apart { "admin" } else { "member admin" },
        lower: "",
        joins,
    };
    let of_member = Shape {
        near: "admin member",
        lower: if apart && (alone || !indexed) {
            "admin"
        } else {
            ""
        },
        joins: if alone { JOINS } else { joins },
    };
    let sets = if apart {
        r#","group#admin""#
    } else {
        r#","group#member","group#admin""#
    };
    let admin = relation(alloc, dice, "admin", sets, of_admin, indexed)?;
    let sets = r#","group#member","group#admin""#;
    let member = relation(alloc, dice, "member", sets, of_member, indexed && !alone)?;
    format!(in alloc; "{admin},{member}")
}

fn of_documents<'a>(near: &'a str, lower: &'a str) -> Shape<'a> {
    Shape {
        near,
        lower,
        joins: JOINS,
    }
}

// Guests may be no relation at all.
fn documents(alloc: Global, dice: &mut Dice) -> Result<String, AllocError> {
    let shape = of_documents("^banned", "");
    let sets = r#","group#member""#;
    let banned = relation(alloc, dice, "banned", sets, shape, false)?;
    let shape = of_documents("^editor ^viewer editor", "banned ^banned");
    let sets = r#","group#member","group#admin""#;
    let editor = relation(alloc, dice, "editor", sets, shape, false)?;
    let shape = of_documents("editor ^viewer ^editor", "banned ^banned");
    let sets = r#","group#member","doc#editor""#;
    let viewer = relation(alloc, dice, "viewer", sets, shape, false)?;
    let parent = r#""parent":{"types":["doc"]}"#;
    if dice.roll(4) == 0 {
        return format!(in alloc; "{parent},{banned},{editor},{viewer}");
    }
    let shape = of_documents("viewer ^guest", "editor ^viewer");
    let sets = r#","group#admin""#;
    let guest = relation(alloc, dice, "guest", sets, shape, false)?;
    format!(in alloc; "{parent},{banned},{editor},{viewer},{guest}")
}

/// The policy's configuration, or a random one.
pub(crate) fn config_of(alloc: Global, policy: Policy, dice: &mut Dice) -> Result<Config, Refusal> {
    match policy.config {
        Some(text) => Config::from_json(alloc, text.as_bytes()),
        None => any_config(alloc, dice),
    }
}

fn any_config(alloc: Global, dice: &mut Dice) -> Result<Config, Refusal> {
    for _ in 0..TRIES {
        let groups = groups(alloc, dice)?;
        let documents = documents(alloc, dice)?;
        let text = format!(in alloc;
            r#"{{"namespaces":{{"user":{{}},"group":{{{groups}}},"doc":{{{documents}}}}}}}"#
        )?;
        match Config::from_json(alloc, text.as_str().as_bytes()) {
            Ok(config) => return Ok(config),
            Err(Refusal::ConfigRefused(_)) => {}
            Err(why) => return Err(why),
        }
    }
    Config::from_json(alloc, PLAIN.as_bytes())
}
