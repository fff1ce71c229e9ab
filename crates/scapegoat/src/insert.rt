// Putting a new node at a place, and rebuilding where it lies too deep.
// The slice stands beside the root: the borrow checker does not cover a type that keeps a fact about a `&mut` slice and lends it on.
ghost use Rattle.std.specs.Prelude.{◌≡◌, Bool};
ghost use Rattle.nodes.specs.Tree.{Tree};
ghost use Rattle.nodes.specs.Holding.{Holds};
ghost use Rattle.scapegoat.specs.Growth.{Fitting, Growth};

use crate::balanced::Balanced;
use crate::heavy::rebuild_at;
use crate::nearest_heavy;
use changes::insert::insert as insert_leaf;
use nodes::{Element, Node};

// Puts an item at a place; where it then lies deeper than allowed, the part at its nearest heavy ancestor is rebuilt. There is one
// where the allowance is that of a count not below the items; the arm without one serves other allowances.
pub fn insert<E: Element>(
    nodes: &mut [Node<E, E::Sum>],
    root: Option<usize>,
    at: usize,
    slot: usize,
    item: E,
    allowed: usize,
) -> Balanced
    requires { Fitting E.empty E.whole nodes.old root at slot }
    ensures { (must : Bool) (t : Tree E) → Holds must E.empty E.whole nodes.old root t → Growth must E.empty E.whole nodes.old nodes.new at slot item allowed t result }
{
    let grown = insert_leaf::<E>(nodes, root, at, slot, item);
    let steps = grown.path.as_slice();
    if steps.len() <= allowed {
        return Balanced {
            root: grown.root,
            whole: false,
        };
    }
    match nearest_heavy::<E>(nodes, steps) {
        None => Balanced {
            root: grown.root,
            whole: false,
        },
        Some(k) => Balanced {
            root: rebuild_at::<E>(nodes, steps, k),
            whole: k == 0,
        },
    }
}
