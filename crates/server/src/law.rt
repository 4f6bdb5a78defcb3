//! The law of a worker's connections.
ghost use Rattle.std.specs.Prelude.{List};
ghost use Rattle.answers.specs.declared.end.End.{End};
ghost use Rattle.keeper.specs.Kept.{NeverGoesBack};
ghost use Rattle.keeper.specs.Fronts.{FrontState, FrontStep};
ghost use Rattle.server.specs.Attending.{Attended, OneByOne};

use keeper::KeeperName;
use tables::Tables;

/// The law that no connection takes a front back on what its session knew, however it ends, nor do any number of them, one
/// after another.
pub fn connections_never_go_back<T: Tables, J: KeeperName<T>>()
    ensures one { (s t : FrontState) (end : End) → Attended (FrontStep T.Tables J.book J.starts) s end t → NeverGoesBack s.known t.known }
    ensures each { (s t : FrontState) (ends : List End) → OneByOne (Attended (FrontStep T.Tables J.book J.starts)) s ends t → NeverGoesBack s.known t.known }
{}
