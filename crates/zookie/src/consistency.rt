//! How fresh the snapshot must be at which a question is answered.
//!
//! After Pang et al., "Zanzibar", USENIX ATC 2019, section 2.2, where a zookie bounds the staleness
//! of an answer from below.
ghost use Rattle.std.specs.Prelude.{ℕ, ◌≤◌, IfErr, OnOk};
ghost use Rattle.zookie.specs.Fits.{Fits, IsAnswerable, IsChoice, IsFirstCause};

use crate::Zookie;
use names::Refusal;

/// How fresh the snapshot must be at which a question is answered.
#[derive(Clone, Copy, Debug, PartialEq, Eq)]
pub enum Consistency {
    /// The newest revision.
    Latest,
    /// The zookie's revision or any later one, so that the answer reflects all that the holder of
    /// the zookie has seen.
    AtLeast(Zookie),
    /// The zookie's revision itself, as for a further page of what was answered there.
    Exactly(Zookie),
}

impl Consistency {
    /// Whether the store of this number, with revisions from `floor` to `newest`, can answer so.
    /// It says `ForeignZookie` first, then `Future`, then `Expired`.
    pub fn judge(&self, store: u64, floor: u64, newest: u64) -> Result<(), Refusal>
        ensures ok { OnOk result (IsAnswerable self.now store floor newest) }
        ensures err { IfErr result (IsFirstCause self.now store floor newest) }
    {
        let (zookie, lowest) = match *self {
            Consistency::Latest => return Ok(()),
            Consistency::AtLeast(zookie) => (zookie, 0),
            Consistency::Exactly(zookie) => (zookie, floor),
        };
        if zookie.store != store {
            Err(Refusal::ForeignZookie)
        } else if newest < zookie.rev {
            Err(Refusal::Future)
        } else if zookie.rev < lowest {
            Err(Refusal::Expired)
        } else {
            Ok(())
        }
    }

    /// The revision to answer at. `index` is the revision up to which the index has read: it is
    /// taken wherever it is fresh enough for `AtLeast`.
    pub fn choose(&self, newest: u64, index: u64) -> u64
        ensures choice { IsChoice self.now newest index result }
        ensures fits { (store floor : ℕ) → IsAnswerable self.now store floor newest
            → floor ≤ index → index ≤ newest → Fits self.now floor newest result }
    {
        match *self {
            Consistency::Latest => newest,
            Consistency::AtLeast(zookie) if zookie.rev <= index => index,
            Consistency::AtLeast(_) => newest,
            Consistency::Exactly(zookie) => zookie.rev,
        }
    }
}
