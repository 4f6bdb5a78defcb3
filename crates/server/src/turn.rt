//! A turn of the indexer.
ghost use Rattle.std.specs.Prelude.{◌≡◌, IfOk, IfErr};
ghost use Rattle.shown.specs.Standing.{standing, cursor_after};
ghost use Rattle.published.specs.Known.{Begins};
ghost use Rattle.published.specs.Receipts.{ReceiptFacts};
ghost use Rattle.desk.specs.Posts.{shown_by};
ghost use Rattle.keeper.specs.Kept.{KnowsMore};
ghost use Rattle.server.specs.Turning.{PartsDone, TurnDone};
ghost use Rattle.server.specs.Turns.{TakesTurn, TurnRefused};

use keeper::{KeeperName, KeptDesk, Place};
use names::{Part, Refusal};
use published::{Receipt, Session};
use std::sync::Wait;
use tables::Tables;

/// How many commits a part takes in a turn, at most.
pub const TURN_COMMITS: u64 = 16;

/// Where the cursors are after a turn, and a receipt that names the newest shown revision.
#[derive(Drop)]
pub struct Turn {
    pub index: u64,
    pub hot: u64,
    pub receipt: Receipt,
}

/// Has each part take 16 commits more, or as many as there are, the index first. The session then knows all that is shown,
/// however the turn ends. The caller holds the desk, and holds it no longer than this.
pub fn take_turn<T: Tables + Drop, J: KeeperName<T>, R: Wait + Drop, W: Wait>(
    rt: &W,
    desk: &mut KeptDesk<T, J, R>,
    place: &mut Place<'_, J>,
    session: &mut Session<J>,
) -> Result<Turn, Refusal>
    requires { session.old.book ≡ J.book }
    ensures ok { IfOk result (λ turn.
        TakesTurn desk.old turn.index turn.hot turn.receipt desk.new) }
    ensures index { IfOk result (λ turn. turn.index
        ≡ cursor_after (standing desk.old.posted).kept (standing desk.old.posted).index TURN_COMMITS) }
    ensures hot { IfOk result (λ turn. turn.hot
        ≡ cursor_after (standing desk.old.posted).kept (standing desk.old.posted).hot TURN_COMMITS) }
    ensures err { IfErr result (λ why. TurnRefused T.Tables desk.old why desk.new) }
    ensures seats { desk.new.seats ≡ desk.old.seats }
    ensures kept { KnowsMore session.old session.new }
    ensures known { Begins (shown_by desk.new) session.new }
    ensures done { TurnDone T.Tables J.starts place.old desk.old desk.new place.new }
{
    let taken = take_both(rt, desk, place);
    let receipt = desk.refresh(rt, place, session);
    match taken {
        Ok((index, hot)) => Ok(Turn {
            index,
            hot,
            receipt,
        }),
        Err(why) => Err(why),
    }
}

// The same, but for the session. It answers where the cursors are.
fn take_both<T: Tables + Drop, J: KeeperName<T>, R: Wait + Drop, W: Wait>(
    rt: &W,
    desk: &mut KeptDesk<T, J, R>,
    place: &mut Place<'_, J>,
) -> Result<(u64, u64), Refusal>
    ensures ok { IfOk result (λ cursors.
        (receipt : ReceiptFacts) × TakesTurn desk.old cursors.0 cursors.1 receipt desk.new) }
    ensures err { IfErr result (λ why. TurnRefused T.Tables desk.old why desk.new) }
    ensures seats { desk.new.seats ≡ desk.old.seats }
    ensures done { PartsDone T.Tables J.starts place.old desk.old desk.new place.new }
{
    let index = desk.catch_up(rt, place, Part::Index, TURN_COMMITS)?;
    let hot = desk.catch_up(rt, place, Part::Hot, TURN_COMMITS)?;
    Ok((index.value, hot.value))
}
