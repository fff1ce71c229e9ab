// Taking out the item at a place, and rebuilding the whole tree where few are left.
// The slice stands beside the root: the borrow checker does not cover a type that keeps a fact about a `&mut` slice and lends it on.
ghost use Rattle.std.specs.Prelude.{◌≡◌, Bool};
ghost use Rattle.nodes.specs.Tree.{Tree};
ghost use Rattle.nodes.specs.Holding.{Holds};
ghost use Rattle.upkeep.specs.Loss.{Shrinkable, Loses};

use crate::shrunk::Shrunk;
use balance::{PART, WHOLE};
use changes::remove::remove as take_out;
use nodes::{Element, Node, Part};
use rebuild::rebuild;

// Takes out the item at a place of a tree that has had m items; none, and nothing changed, past the end.
pub fn remove<E: Element>(
    nodes: &mut [Node<E, E::Sum>],
    root: Option<usize>,
    at: usize,
    m: usize,
) -> Option<Shrunk<E>>
    requires { Shrinkable E.empty E.whole nodes.old root m }
    ensures { (must : Bool) (t : Tree E) → Holds must E.empty E.whole nodes.old root t → Loses must E.empty E.whole nodes.old nodes.new at m t result }
{
    let out = take_out::<E>(nodes, root, at)?;
    let left = Part {
        nodes,
        link: out.root,
    }
    .size();
    if left * WHOLE < m * PART {
        return Some(Shrunk {
            root: rebuild::<E>(nodes, out.root),
            item: out.item,
            slot: out.slot,
            whole: true,
        });
    }
    Some(Shrunk {
        root: out.root,
        item: out.item,
        slot: out.slot,
        whole: false,
    })
}
