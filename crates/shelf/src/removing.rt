//! A text taken out from among the blocks.
ghost use Rattle.std.specs.Prelude.{◌≡◌, ◌<◌, [], length, slice_index_or, Some};
ghost use Rattle.std.specs.List.{slice_get};
ghost use Rattle.std.specs.Map.{values_of};
ghost use Rattle.shelf.specs.inside.Places.{AreFilled, joined};
ghost use Rattle.shelf.specs.inside.Written.{entries_out};

use crate::block::Block;

/// Takes the text at a place of a block out, and gives its value. A block that has no other goes. It takes no memory.
pub(crate) fn take_out<V: Drop>(blocks: &mut Vec<Block<V>>, at: usize, i: usize) -> V
    requires within { at < length blocks.old.items }
    requires place { i < length (slice_index_or blocks.old.items at []) }
    requires filled { AreFilled blocks.old.items }
    ensures value { slice_get (values_of (slice_index_or blocks.old.items at [])) i ≡ Some result }
    ensures filled { AreFilled blocks.new.items }
    ensures rest { joined blocks.new.items ≡ entries_out blocks.old.items at i }
{
    let block = &mut blocks[at];
    let value = block.remove(i);
    let count = block.len();
    if count == 0 {
        blocks.remove(at);
    }
    value
}
