//! Bodies that ask for groups, and the reply to them.

use bodies::grouping::{groups, groups_body};
use leopard::Expr;
use names::{Node, Refusal, Reply};
use std::alloc::Global;
use std::test::Fail;
use zookie::{Consistency, Zookie};

/// An expression with its kind before its parts.
#[cycle(written)]
fn written(alloc: Global, expr: &Expr) -> Result<String, Fail> {
    match expr {
        Expr::Member2Group(user) => Ok(format!(in alloc; "m2g {user}")?),
        Expr::Group2Group(group) => Ok(format!(in alloc; "g2g {group}")?),
        Expr::Union(parts) => {
            let list = all_written(alloc, parts)?;
            Ok(format!(in alloc; "union({list})")?)
        }
        Expr::Intersection(parts) => {
            let list = all_written(alloc, parts)?;
            Ok(format!(in alloc; "intersection({list})")?)
        }
        Expr::Exclusion(base, less) => {
            let base = written(alloc, base)?;
            let less = written(alloc, less)?;
            Ok(format!(in alloc; "exclusion({base}, {less})")?)
        }
    }
}

#[cycle(written)]
fn all_written(alloc: Global, parts: &[Expr]) -> Result<String, Fail> {
    let mut text = String::new(alloc);
    for part in parts {
        if !text.is_empty() {
            text.push_str(", ")?;
        }
        let part = written(alloc, part)?;
        text.push_str(part.as_str())?;
    }
    Ok(text)
}

/// Whether the body asks for so many groups of the expression at the newest revision.
fn asks(alloc: Global, body: &str, wanted: &str, number: u32) -> Result<bool, Fail> {
    let (consistency, expr, limit) = groups_body(alloc, body.as_bytes())?;
    let text = written(alloc, &expr)?;
    let latest = match consistency {
        Consistency::Latest => true,
        Consistency::AtLeast(_) | Consistency::Exactly(_) => false,
    };
    Ok(latest && limit == number && text.as_str() == wanted)
}

#[test]
fn expressions_are_read_as_they_stand(rt: HostRuntime) -> Result<(), Fail> {
    let alloc = rt.alloc();
    for (body, wanted, limit) in [
        (
            r#"{"expr":{"intersection":[{"m2g":"user:ann"},{"g2g":"group:a#member"}]},"limit":1}"#,
            "intersection(m2g user:ann, g2g group:a#member)",
            1,
        ),
        (
            r#"{"at":"latest","expr":{"union":[{"g2g":"group:a#member"}]},"limit":0}"#,
            "union(g2g group:a#member)",
            0,
        ),
        (
            r#"{"limit":1000,"expr":{"exclusion":[{"m2g":"user:ann"},{"union":[{"g2g":"group:a#member"},{"m2g":"user:bob"}]}]}}"#,
            "exclusion(m2g user:ann, union(g2g group:a#member, m2g user:bob))",
            1_000,
        ),
        (
            r#" { "expr" : { "m2g" : "group:a" } , "limit" : 2 } "#,
            "m2g group:a",
            2,
        ),
    ] {
        assert!(rt; asks(alloc, body, wanted, limit)?, "at {body}");
    }
    Ok(())
}

fn is_at(alloc: Global, body: &str, wanted: &Consistency) -> Result<bool, Fail> {
    let (found, _, _) = groups_body(alloc, body.as_bytes())?;
    let same = match (&found, wanted) {
        (Consistency::AtLeast(x), Consistency::AtLeast(y)) => x.store == y.store && x.rev == y.rev,
        (Consistency::Exactly(x), Consistency::Exactly(y)) => x.store == y.store && x.rev == y.rev,
        _ => false,
    };
    Ok(same)
}

#[test]
fn the_revision_may_be_chosen(rt: HostRuntime) -> Result<(), Fail> {
    let alloc = rt.alloc();
    let least =
        r#"{"at":{"at_least":"AgAAAAAAAAABAAAAAAAAAAk"},"expr":{"m2g":"user:ann"},"limit":1}"#;
    let exact =
        r#"{"at":{"exactly":"AgAAAAAAAAACAAAAAAAAAAE"},"expr":{"m2g":"user:ann"},"limit":1}"#;
    assert!(rt;
        is_at(
            alloc,
            least,
            &Consistency::AtLeast(Zookie { store: 1, rev: 9 })
        )? && is_at(
            alloc,
            exact,
            &Consistency::Exactly(Zookie { store: 2, rev: 1 })
        )?
    );
    Ok(())
}

fn is_refused(alloc: Global, body: &str, wanted: &Refusal) -> bool {
    match groups_body(alloc, body.as_bytes()) {
        Ok(_) => false,
        Err(why) => why.number() == wanted.number(),
    }
}

#[test]
fn what_is_no_question_is_malformed(rt: HostRuntime) {
    let alloc = rt.alloc();
    for body in [
        "",
        "[]",
        "1",
        "{}",
        "{",
        r#"{"expr":{"m2g":"user:ann"}}"#,
        r#"{"limit":1}"#,
        r#"{"depth":1,"expr":{"m2g":"user:ann"},"limit":1}"#,
        r#"{"expr":{"m2g":"user:ann"},"limit":1001}"#,
        r#"{"expr":{"m2g":"user:ann"},"limit":4294967297}"#,
        r#"{"expr":{"m2g":"user:ann"},"limit":18446744073709551616}"#,
        r#"{"expr":{"m2g":"user:ann"},"limit":-1}"#,
        r#"{"expr":{"m2g":"user:ann"},"limit":-0}"#,
        r#"{"expr":{"m2g":"user:ann"},"limit":1.0}"#,
        r#"{"expr":{"m2g":"user:ann"},"limit":1e0}"#,
        r#"{"expr":{"m2g":"user:ann"},"limit":"1"}"#,
        r#"{"expr":{"m2g":"user:ann"},"limit":null}"#,
        r#"{"at":null,"expr":{"m2g":"user:ann"},"limit":1}"#,
        r#"{"at":"newest","expr":{"m2g":"user:ann"},"limit":1}"#,
        r#"{"at":{"exactly":1},"expr":{"m2g":"user:ann"},"limit":1}"#,
    ] {
        assert!(rt; is_refused(alloc, body, &Refusal::Malformed), "at {body}");
    }
}

fn is_expression_refused(alloc: Global, expr: &str) -> Result<bool, Fail> {
    let body = format!(in alloc; "{{\"expr\":{expr},\"limit\":1}}")?;
    Ok(is_refused(alloc, body.as_str(), &Refusal::Malformed))
}

#[test]
fn what_is_no_expression_is_malformed(rt: HostRuntime) -> Result<(), Fail> {
    let alloc = rt.alloc();
    for expr in [
        "null",
        "1",
        r#""m2g""#,
        "[]",
        r#"[{"m2g":"user:ann"}]"#,
        "{}",
        r#"{"m2g":"user:ann","g2g":"group:a#member"}"#,
        r#"{"m2g":null}"#,
        r#"{"m2g":"user"}"#,
        r#"{"m2g":"group:a#member"}"#,
        r#"{"m2g":["user:ann"]}"#,
        r#"{"g2g":"group:a"}"#,
        r#"{"g2g":"group:a#member@user:ann"}"#,
        r#"{"g2g":{"m2g":"user:ann"}}"#,
        r#"{"M2G":"user:ann"}"#,
        r#"{"this":"user:ann"}"#,
        r#"{"union":[]}"#,
        r#"{"intersection":[]}"#,
        r#"{"union":"user:ann"}"#,
        r#"{"union":{"m2g":"user:ann"}}"#,
        r#"{"union":[{"m2g":"user:ann"},1]}"#,
        r#"{"union":[{"m2g":"user:ann"},{"intersection":[]}]}"#,
        r#"{"exclusion":[]}"#,
        r#"{"exclusion":[{"m2g":"user:ann"}]}"#,
        r#"{"exclusion":[{"m2g":"user:ann"},{"m2g":"user:ann"},{"m2g":"user:ann"}]}"#,
        r#"{"difference":[{"m2g":"user:ann"},{"m2g":"user:ann"}]}"#,
    ] {
        assert!(rt; is_expression_refused(alloc, expr)?, "at {expr}");
    }
    Ok(())
}

/// So many unions in each other, around a user.
fn nested(alloc: Global, unions: u32) -> Result<String, Fail> {
    let mut text = String::new(alloc);
    for _ in 0..unions {
        text.push_str(r#"{"union":["#)?;
    }
    text.push_str(r#"{"m2g":"user:ann"}"#)?;
    for _ in 0..unions {
        text.push_str("]}")?;
    }
    Ok(text)
}

/// The union of a user so many times more than once.
fn wide(alloc: Global, others: u32) -> Result<String, Fail> {
    let mut text = String::from_str(alloc, r#"{"union":[{"m2g":"user:ann"}"#)?;
    for _ in 0..others {
        text.push_str(r#",{"m2g":"user:ann"}"#)?;
    }
    text.push_str("]}")?;
    Ok(text)
}

fn are_bounded(alloc: Global) -> Result<bool, Fail> {
    let deepest = nested(alloc, 15)?;
    let deeper = nested(alloc, 16)?;
    let too_deep_for_json = nested(alloc, 64)?;
    let widest = wide(alloc, 62)?;
    let wider = wide(alloc, 63)?;
    Ok(
        !is_expression_refused(alloc, deepest.as_str())?
            && is_expression_refused(alloc, deeper.as_str())?
            && is_expression_refused(alloc, too_deep_for_json.as_str())?
            && !is_expression_refused(alloc, widest.as_str())?
            && is_expression_refused(alloc, wider.as_str())?,
    )
}

#[test]
fn expressions_are_of_64_at_most_and_of_depth_16(rt: HostRuntime) -> Result<(), Fail> {
    assert!(rt; are_bounded(rt.alloc())?);
    Ok(())
}

fn comes_last(alloc: Global) -> bool {
    let bad = r#"{"at":{"exactly":"1"},"expr":{"m2g":"user:ann"},"limit":1}"#;
    let malformed = r#"{"at":{"exactly":"1"},"expr":{"m2g":"user:ann"},"limit":1001}"#;
    is_refused(alloc, bad, &Refusal::BadZookie) && is_refused(alloc, malformed, &Refusal::Malformed)
}

#[test]
fn a_bad_zookie_is_told_where_all_else_is_of_the_form(rt: HostRuntime) {
    assert!(rt; comes_last(rt.alloc()));
}

fn says(reply: &Reply, text: &str) -> bool {
    match reply {
        Reply::Said { status, body } => *status == 200 && body.as_slice() == text.as_bytes(),
        Reply::NoMemory => false,
    }
}

fn are_told(alloc: Global) -> Result<bool, Fail> {
    let zookie = Zookie { store: 1, rev: 2 };
    let first = Node::parse("group:a#member")?;
    let second = Node::parse("group:b#member")?;
    let nodes = vec![in alloc; first, second]?;
    let nobody: Vec<Node> = Vec::new(alloc);
    let both =
        r#"{"groups":["group:a#member","group:b#member"],"zookie":"AgAAAAAAAAABAAAAAAAAAAI"}"#;
    let none = r#"{"groups":[],"zookie":"AgAAAAAAAAABAAAAAAAAAAI"}"#;
    Ok(
        says(&groups(alloc, nodes.as_slice(), &zookie), both)
            && says(&groups(alloc, nobody.as_slice(), &zookie), none),
    )
}

#[test]
fn groups_are_told_in_their_order(rt: HostRuntime) -> Result<(), Fail> {
    assert!(rt; are_told(rt.alloc())?);
    Ok(())
}
