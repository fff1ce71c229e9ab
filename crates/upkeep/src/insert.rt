// Putting a new node at a place, and rebuilding where it lies too deep.
// The slice stands beside the root: the borrow checker does not cover a type that keeps a fact about a `&mut` slice and lends it on.
ghost use Rattle.std.specs.Prelude.{◌≡◌, Bool};
ghost use Rattle.nodes.specs.Tree.{Tree};
ghost use Rattle.nodes.specs.Holding.{Holds};
ghost use Rattle.upkeep.specs.Growth.{Fitting, Growth};

use balance::allowance;
use nodes::{Element, Node};
use scapegoat::balanced::Balanced;
use scapegoat::insert::insert as insert_within;

// Puts an item at a place of a tree that may have m items, within their allowance.
pub fn insert<E: Element>(
    nodes: &mut [Node<E, E::Sum>],
    root: Option<usize>,
    at: usize,
    slot: usize,
    item: E,
    m: usize,
) -> Balanced
    requires { Fitting E.empty E.whole nodes.old root at slot m }
    ensures { (must : Bool) (t : Tree E) → Holds must E.empty E.whole nodes.old root t → Growth must E.empty E.whole nodes.old nodes.new at slot m item t result }
{
    // Named, so that an edit of what becomes of it is refused for what it means.
    let balanced = insert_within::<E>(nodes, root, at, slot, item, allowance(m));
    balanced
}
