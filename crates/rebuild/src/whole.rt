// Rebuilding a part of a tree.
// The slice stands beside the root: the borrow checker does not cover a type that keeps a fact about a `&mut` slice and lends it on.
ghost use Rattle.std.specs.Prelude.{◌≡◌, Bool, false};
ghost use Rattle.nodes.specs.Tree.{Tree, items, slots};
ghost use Rattle.nodes.specs.Holding.{Holds};
ghost use Rattle.rebuild.specs.Shapes.{Rebuildable, Rebuilt};

use crate::build::build;
use crate::order::in_order;
use nodes::{Element, Node, Part};

// Gives the part at a link the balanced shape, with the same slots and items in the same order, and returns its root.
pub fn rebuild<E: Element>(nodes: &mut [Node<E, E::Sum>], root: Option<usize>) -> Option<usize>
    requires { Rebuildable E.empty E.whole nodes.old root }
    ensures { (t : Tree E) → Holds false E.empty E.whole nodes.old root t → Rebuilt E.empty E.whole nodes.old nodes.new (slots t) (items t) result }
{
    // Room for the slots of the largest tree, in an array, since nothing here takes memory from the heap.
    let mut order = [0; 4096];
    let part = Part::<E> { nodes, link: root };
    let count = in_order(&part, &mut order);
    build::<E>(nodes, &order[..count])
}
