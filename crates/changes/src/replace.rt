// Putting another item in the place of one.
// The slice stands beside the root: the borrow checker does not cover a type that keeps a fact about a `&mut` slice and lends it on.
ghost use Rattle.std.specs.Prelude.{◌≡◌, Bool};
ghost use Rattle.nodes.specs.Tree.{Tree};
ghost use Rattle.nodes.specs.Holding.{Holds};
ghost use Rattle.changes.specs.Replaced.{Sound, Replaced};

use crate::changed::Changed;
use crate::descend::to_item;
use crate::graft::graft;
use crate::place::place;
use nodes::read::read_at;
use nodes::{Element, Node, Part};

// Replaces the item at a place; none, and nothing changed, past the end.
pub fn replace<E: Element>(
    nodes: &mut [Node<E, E::Sum>],
    root: Option<usize>,
    at: usize,
    item: E,
) -> Option<Changed<E>>
    requires { Sound E.empty E.whole nodes.old root }
    ensures { (must : Bool) (t : Tree E) → Holds must E.empty E.whole nodes.old root t → Replaced must E.empty E.whole nodes.old nodes.new at item t result }
{
    let found = to_item(&Part::<E> { nodes, link: root }, at)?;
    let node = read_at(nodes, found.slot);
    place::<E>(nodes, found.slot, item, node.left, node.right);
    let root = graft::<E>(nodes, found.path.as_slice(), Some(found.slot));
    Some(Changed {
        root,
        item: node.item,
    })
}
