// Which ancestor of a node that lies too deep is to be rebuilt.

#![tactic(auto)]

pub mod balanced;
pub mod heavy;
pub mod insert;

ghost use Rattle.std.specs.Prelude.{◌≡◌, ℕ, false, List, Option};
ghost use Rattle.nodes.specs.Tree.{Tree, size};
ghost use Rattle.nodes.specs.Holding.{Holds};
ghost use Rattle.changes.specs.Frames.{Frame, steps_of, plug};
ghost use Rattle.balance.specs.Allowances.{part as share, whole as all};
ghost use Rattle.scapegoat.specs.Heavy.{Climbable, Nearest};

use balance::{PART, WHOLE};
use changes::Step;
use nodes::read::read_at;
use nodes::{Element, Node};

// The place on the way of the nearest ancestor of the new node at its end that has a child on the way with more than its share.
pub fn nearest_heavy<E: Element>(nodes: &[Node<E, E::Sum>], steps: &[Step]) -> Option<usize>
    requires { Climbable E.empty E.whole nodes.now steps.now }
    ensures { (root : Option ℕ) (frames : List (Frame E)) (part : Tree E) → Holds false E.empty E.whole nodes.now root (plug frames part) → steps_of frames ≡ steps.now → size part ≡ 1 → Nearest share all frames part result }
{
    let mut child = 1;
    let mut rest = steps;
    while let Some((step, above)) = rest.split_last() {
        let own = read_at(nodes, step.slot).size;
        if own * PART < child * WHOLE {
            return Some(above.len());
        }
        child = own;
        rest = above;
    }
    None
}
