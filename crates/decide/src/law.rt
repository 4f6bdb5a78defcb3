//! What no oracle changes.
ghost use Rattle.std.specs.Prelude.{◌≡◌, Bool};
ghost use Rattle.meaning.specs.Snap.{Snap};
ghost use Rattle.names.specs.declared.object.Object.{Object};
ghost use Rattle.names.specs.declared.node.Node.{Node};
ghost use Rattle.decide.specs.Answers.{IsAnswer};

/// There is one answer: so a check's does not depend on its oracle.
pub fn there_is_one_answer()
    ensures { (S : Snap) (u : Object) (n : Node) (a b : Bool) → IsAnswer S u n a → IsAnswer S u n b → a ≡ b }
{}
