// Mending the way back up to the root, after the part at its end has changed.
ghost use Rattle.std.specs.Prelude.{◌≡◌, ℕ, Bool, List, Option};
ghost use Rattle.nodes.specs.Tree.{Tree};
ghost use Rattle.changes.specs.Frames.{Frame};
ghost use Rattle.changes.specs.Grafted.{Relinkable, Relinked, Graft, Graftable, Grafted};

use crate::path::{Side, Step};
use crate::place::place;
use nodes::read::read_at;
use nodes::{Element, Node};

// Puts a part in the place of the one that a step leads to.
fn relink<E: Element>(nodes: &mut [Node<E, E::Sum>], step: Step, link: Option<usize>)
    requires { Relinkable E.empty E.whole nodes.old step.side step.slot link }
    ensures { Relinked E.empty E.whole nodes.old nodes.new step.side step.slot link }
{
    let node = read_at(nodes, step.slot);
    match step.side {
        Side::Left => place::<E>(nodes, step.slot, node.item, link, node.right),
        Side::Right => place::<E>(nodes, step.slot, node.item, node.left, link),
    }
}

// Puts a part at the end of the steps of a path, and mends sizes and summaries up to the root, to which it returns the link.
pub fn graft<E: Element>(
    nodes: &mut [Node<E, E::Sum>],
    steps: &[Step],
    link: Option<usize>,
) -> Option<usize>
    requires { Graftable E.empty E.whole nodes.old link steps.now }
    ensures { (must : Bool) (root hole : Option ℕ) (frames : List (Frame E)) (part : Tree E) → Graft must E.empty E.whole nodes.old root frames hole link part steps.now → Grafted must E.empty E.whole nodes.old nodes.new result frames part }
{
    let mut above = link;
    for step in steps.iter().rev() {
        relink::<E>(nodes, *step, above);
        above = Some(step.slot);
    }
    above
}
