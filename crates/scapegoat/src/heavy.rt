// Rebuilding the part at a place of a way.
ghost use Rattle.std.specs.Prelude.{◌≡◌, ℕ, ◌≤◌, Bool, List, Option};
ghost use Rattle.nodes.specs.Tree.{Tree, size};
ghost use Rattle.nodes.specs.Holding.{Holds};
ghost use Rattle.changes.specs.Frames.{Frame, steps_of, plug, Apart};
ghost use Rattle.scapegoat.specs.Renewed.{Renewable, Renewed};

use changes::Step;
use changes::graft::graft;
use nodes::{Element, Node};
use rebuild::rebuild;

// Gives the part at a place of a way the balanced shape, and mends the way above it.
pub fn rebuild_at<E: Element>(
    nodes: &mut [Node<E, E::Sum>],
    steps: &[Step],
    k: usize,
) -> Option<usize>
    requires { Renewable E.empty E.whole nodes.old steps.now k }
    ensures { (must : Bool) (root : Option ℕ) (frames : List (Frame E)) (part : Tree E) → Holds must E.empty E.whole nodes.old root (plug frames part) → steps_of frames ≡ steps.now → Apart (plug frames part) → size (plug frames part) ≤ 4096 → Renewed must E.empty E.whole nodes.old nodes.new frames part k result }
{
    let step = steps[k];
    let link = rebuild::<E>(nodes, Some(step.slot));
    graft::<E>(nodes, &steps[..k], link)
}
