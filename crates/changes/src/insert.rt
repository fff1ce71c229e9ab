// Putting a new node at a place.
// The slice stands beside the root: the borrow checker does not cover a type that keeps a fact about a `&mut` slice and lends it on.
ghost use Rattle.std.specs.Prelude.{◌≡◌, Bool};
ghost use Rattle.nodes.specs.Tree.{Tree};
ghost use Rattle.nodes.specs.Holding.{Holds};
ghost use Rattle.changes.specs.Inserted.{Room, InsertedThere};

use crate::descend::to_gap;
use crate::graft::graft;
use crate::grown::Grown;
use crate::place::place;
use nodes::{Element, Node, Part};

// Puts an item, in a slot that the tree does not use, before the item at a place, or at the end. Place, slot and item come from
// three sides, here and in the insertions above: a struct of them would be made for each call.
pub fn insert<E: Element>(
    nodes: &mut [Node<E, E::Sum>],
    root: Option<usize>,
    at: usize,
    slot: usize,
    item: E,
) -> Grown
    requires { Room E.empty E.whole nodes.old root at slot }
    ensures { (must : Bool) (t : Tree E) → Holds must E.empty E.whole nodes.old root t → InsertedThere must E.empty E.whole nodes.old nodes.new at slot item t result }
{
    let path = to_gap(&Part::<E> { nodes, link: root }, at);
    place::<E>(nodes, slot, item, None, None);
    let root = graft::<E>(nodes, path.as_slice(), Some(slot));
    Grown { root, path }
}
