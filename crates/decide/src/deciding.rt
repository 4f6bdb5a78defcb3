//! The question.
ghost use Rattle.std.specs.Prelude.{◌≡◌, ◌<◌, ◌^◌, ℕ, IfOk, IfErr, IfSome, IfNone, OnOk, length, true, false, Some, None};
ghost use Rattle.std.proofs.Common.{suc};
ghost use Rattle.meaning.specs.Admits.{has_relation};
ghost use Rattle.meaning.specs.Causes.{CheckCause};
ghost use Rattle.meaning.specs.Config.{rel_of};
ghost use Rattle.names.specs.declared.node.Node.{Node as NodeValue};
ghost use Rattle.decide.specs.Answers.{IsAnswer};
ghost use Rattle.decide.specs.inside.Under.{Under};
ghost use Rattle.decide.specs.inside.Searches.{Stands, IsNumberOf, IsLowest};
ghost use Rattle.decide.specs.inside.Ending.{Turned, progress};
ghost use Rattle.decide.specs.declared.search.Opened.{Opened};
ghost use Rattle.decide.specs.inside.Running.{IsRunning};
ghost use Rattle.decide.specs.inside.Asked.{IsAsking};
ghost use Rattle.decide.specs.inside.Reading.{AreRead};

use crate::asker::Asker;
use crate::asking::{Asking, Found};
use crate::facts::Facts;
use crate::oracle::Oracle;
use crate::reads::Reads;
use crate::rewrites::relation_gives;
use crate::search::Search;
use names::{Node, Object, Refusal};
use rows::View;
use std::alloc::{AllocError, Global};
use std::hash::RandomState;

/// Whether the user is a member of the node. It is refused where the relation is not there, and where there
/// is no memory. After an answer the oracle tells of the view still. Names are hashed under this key.
pub fn check_at<O: Oracle>(
    alloc: Global,
    keys: RandomState,
    view: &View,
    oracle: &mut O,
    node: &Node,
    user: &Object,
) -> Result<bool, Refusal>
    requires { O.tells oracle.old view.now }
    ensures ok { IfOk result (IsAnswer view.now user.now node.now) }
    ensures known { OnOk result (has_relation view.now.config (rel_of node.now) ≡ true) }
    ensures err { IfErr result (CheckCause view.now node.now) }
    ensures tells { OnOk result (O.tells oracle.new view.now) }
{
    let mut asker = Asker::of(alloc, keys, view);
    asker.ask(oracle, node, user)
}

/// Whether the user is a member of the root.
pub(crate) fn is_member<'a, O: Oracle>(
    facts: &Facts<'a>,
    reads: &mut Reads<'a>,
    oracle: &mut O,
    search: &mut Search,
    user: &Object,
    root: usize,
) -> Result<bool, AllocError>
    requires read { AreRead facts.now reads.old }
    requires tells { O.tells oracle.old facts.now }
    requires root { root < length search.old.opened.items }
    requires running { IsRunning facts.now user.now search.old None }
    ensures answer { IfOk result (λ b. (n : NodeValue) (k : ℕ) → IsNumberOf search.old root n k
        → IsAnswer facts.now user.now n b) }
    ensures read { AreRead facts.now reads.new }
    ensures running { OnOk result (IsRunning facts.now user.now search.new None) }
    ensures tells { OnOk result (O.tells oracle.new facts.now) }
{
    'rounds: loop {
        match round(facts, reads, oracle, search, user, root)? {
            Some(answer) => return Ok(answer),
            None => {}
        }
    }
}

/// Looks at nodes until it is known whether the root has the user, or else until a node more was opened or has the user.
/// Each turn looks at one node.
fn round<'a, O: Oracle>(
    facts: &Facts<'a>,
    reads: &mut Reads<'a>,
    oracle: &mut O,
    search: &mut Search,
    user: &Object,
    root: usize,
) -> Result<Option<bool>, AllocError>
    requires read { AreRead facts.now reads.old }
    requires tells { O.tells oracle.old facts.now }
    requires root { root < length search.old.opened.items }
    requires running { IsRunning facts.now user.now search.old None }
    ensures answer { IfOk result (λ o. IfSome o (λ b. (n : NodeValue) (k : ℕ) → IsNumberOf search.old root n k
        → IsAnswer facts.now user.now n b)) }
    ensures more { IfOk result (λ o. IfNone o (progress search.old < progress search.new)) }
    ensures read { AreRead facts.now reads.new }
    ensures running { OnOk result (IsRunning facts.now user.now search.new None) }
    ensures numbers { OnOk result
        ((i k : ℕ) (n : NodeValue) → IsNumberOf search.old i n k → IsNumberOf search.new i n k) }
    ensures tells { OnOk result (O.tells oracle.new facts.now) }
    ensures small { OnOk result (progress search.old < 2 ^ 65) }
{
    let opened = search.len();
    'turns: loop {
        if search.is_sure(root) {
            return Ok(Some(true));
        }
        match search.next() {
            None => return Ok(Some(search.is_sure(root))),
            Some(number) => {
                let gave = look(facts, reads, oracle, search, user, number)?;
                if gave || search.len() > opened {
                    return Ok(None);
                }
            }
        }
    }
}

/// Looks at a node, and says whether it has the user now and had not: the oracle is asked first.
fn look<'a, O: Oracle>(
    facts: &Facts<'a>,
    reads: &mut Reads<'a>,
    oracle: &mut O,
    search: &mut Search,
    user: &Object,
    number: usize,
) -> Result<bool, AllocError>
    requires read { AreRead facts.now reads.old }
    requires tells { O.tells oracle.old facts.now }
    requires number { number < length search.old.opened.items }
    requires running { IsRunning facts.now user.now search.old (Some number) }
    requires lowest { IsLowest search.old number }
    ensures turned { IfOk result (Turned search.old search.new) }
    ensures read { AreRead facts.now reads.new }
    ensures running { OnOk result (IsRunning facts.now user.now search.new None) }
    ensures numbers { OnOk result
        ((i k : ℕ) (n : NodeValue) → IsNumberOf search.old i n k → IsNumberOf search.new i n k) }
    ensures tells { O.tells oracle.new facts.now }
{
    if search.is_sure(number) {
        return Ok(false);
    }
    let node = search.node_of(number);
    let level = search.level_of(number);
    match oracle.knows(&node, user) {
        Some(true) => {
            search.give(number)?;
            Ok(true)
        }
        Some(false) => Ok(false),
        None => {
            let asking = Asking::of(number, &node, level, user);
            step(facts, reads, search, &asking)
        }
    }
}

/// Looks at what the node's rewrite gives, and says whether that is the user.
fn step<'a>(
    facts: &Facts<'a>,
    reads: &mut Reads<'a>,
    search: &mut Search,
    asking: &Asking,
) -> Result<bool, AllocError>
    requires read { AreRead facts.now reads.old }
    requires asking { IsAsking facts.now search.old asking.now }
    requires plain { asking.now.plain ≡ true }
    requires lowest { IsLowest search.old asking.now.number }
    requires unsure { (e : Opened) → Stands search.old asking.now.number e → e.sure ≡ false }
    ensures turned { IfOk result (Turned search.old search.new) }
    ensures read { AreRead facts.now reads.new }
    ensures running { OnOk result (IsRunning facts.now asking.now.user.now search.new None) }
    ensures numbers { OnOk result
        ((i k : ℕ) (n : NodeValue) → IsNumberOf search.old i n k → IsNumberOf search.new i n k) }
{
    match relation_gives(facts, reads, search, asking)? {
        Found::Yes => {
            search.give(asking.number)?;
            Ok(true)
        }
        Found::No => Ok(false),
        Found::Later => {
            search.put_back(asking.number, asking.level)?;
            Ok(false)
        }
    }
}
