// Going down to a place, with the way kept.
ghost use Rattle.std.specs.Prelude.{◌≡◌, ◌≤◌, false, None};
ghost use Rattle.nodes.specs.Tree.{Tree, leaf, size};
ghost use Rattle.nodes.specs.Holding.{Holds, size_at};
ghost use Rattle.changes.specs.Ways.{Shallow, Way, Reached};
ghost use Rattle.changes.specs.Stacks.{stacked};

use crate::found::Found;
use crate::path::{NO_STEP, Path, Side, Step};
use nodes::{Element, Part};

// The way to the gap before the item at a place, or to the one at the end.
pub fn to_gap<E: Element>(all: &Part<E>, place: usize) -> Path
    requires shallow { Shallow E.empty E.whole all.now.nodes.now all.now.link }
    requires within { place ≤ size_at all.now.nodes.now all.now.link }
    ensures { (t : Tree E) → Holds false E.empty E.whole all.now.nodes.now all.now.link t → Way E.empty E.whole all.now.nodes.now all.now.link None (stacked result) place t leaf }
{
    let mut path = Path::new(NO_STEP);
    let mut part = all.again();
    let mut rest = place;
    while let Some(fork) = part.open() {
        let before = fork.left.size();
        if rest <= before {
            path.push(Step {
                slot: fork.slot,
                side: Side::Left,
            });
            part = fork.left;
        } else {
            path.push(Step {
                slot: fork.slot,
                side: Side::Right,
            });
            part = fork.right;
            rest = rest - before - 1;
        }
    }
    path
}

// The node at a place, and the way to it; none past the end.
pub fn to_item<E: Element>(all: &Part<E>, place: usize) -> Option<Found>
    requires { Shallow E.empty E.whole all.now.nodes.now all.now.link }
    ensures { (t : Tree E) → Holds false E.empty E.whole all.now.nodes.now all.now.link t → Reached E.empty E.whole all.now.nodes.now all.now.link place t result }
{
    let mut path = Path::new(NO_STEP);
    let mut part = all.again();
    let mut rest = place;
    while let Some(fork) = part.open() {
        let before = fork.left.size();
        if rest < before {
            path.push(Step {
                slot: fork.slot,
                side: Side::Left,
            });
            part = fork.left;
        } else if rest == before {
            return Some(Found {
                path,
                slot: fork.slot,
            });
        } else {
            path.push(Step {
                slot: fork.slot,
                side: Side::Right,
            });
            part = fork.right;
            rest = rest - before - 1;
        }
    }
    None
}
