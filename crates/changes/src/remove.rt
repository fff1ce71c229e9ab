// Taking the item at a place out of a tree.
// The slice stands beside the root: the borrow checker does not cover a type that keeps a fact about a `&mut` slice and lends it on.
ghost use Rattle.std.specs.Prelude.{◌≡◌, ℕ, ◌^◌, ◌<◌, ◌≤◌, Bool, false, ◌⊎◌, Some, None, Option};
ghost use Rattle.nodes.specs.Tree.{Tree, size, height};
ghost use Rattle.std.specs.List.{slice_get};
ghost use Rattle.nodes.specs.Holding.{Holds};
ghost use Rattle.changes.specs.Frames.{Apart};
ghost use Rattle.changes.specs.Replaced.{Sound};
ghost use Rattle.changes.specs.Ways.{Way, Leads};
ghost use Rattle.changes.specs.Stacks.{stacked};
ghost use Rattle.changes.specs.Removed.{FoundWay, TakenOut, TakesOut, Takes, Beginning, Leftmost, Inner};

use crate::descend::to_item;
use crate::found::Found;
use crate::graft::graft;
use crate::path::{Side, Step};
use crate::removed::Removed;
use crate::replace::replace;
use nodes::read::read_at;
use nodes::{Element, Node, Part};

// The first node of the part at the end of a path, and the way to it.
fn to_first<E: Element>(nodes: &[Node<E, E::Sum>], from: Found) -> Found
    requires { Beginning E.empty E.whole nodes.now from }
    ensures { (root : Option ℕ) (skipped : ℕ) (all t : Tree E) → Holds false E.empty E.whole nodes.now root all → height all ≤ 32 → Way E.empty E.whole nodes.now root (Some from.slot) (stacked from.path) skipped all t → Leftmost E.empty E.whole nodes.now root skipped all result }
{
    let mut path = from.path;
    let mut slot = from.slot;
    while let Some(i) = read_at(nodes, slot).left {
        path.push(Step {
            slot,
            side: Side::Left,
        });
        slot = i;
    }
    Found { path, slot }
}

// Takes out a node that has at most one part, which goes to its place.
fn take_out<E: Element>(
    nodes: &mut [Node<E, E::Sum>],
    found: &Found,
    rest: Option<usize>,
    item: E,
) -> Removed<E>
    requires { FoundWay E.empty E.whole nodes.old found.now rest item }
    ensures { (must : Bool) (root : Option ℕ) (place : ℕ) (t : Tree E) → Holds must E.empty E.whole nodes.old root t → Leads E.empty E.whole nodes.old root place t found.now → Apart t → size t < 2 ^ 64 → TakenOut must E.empty E.whole nodes.old nodes.new place t result }
{
    let root = graft::<E>(nodes, found.path.as_slice(), rest);
    Removed {
        root,
        item,
        slot: found.slot,
    }
}

// Takes out the item of a node that has two parts: the first node after it is taken out, and its item goes to the place.
fn remove_inner<E: Element>(
    nodes: &mut [Node<E, E::Sum>],
    at: usize,
    found: Found,
    next: usize,
) -> Option<Removed<E>>
    requires { Inner E.empty E.whole nodes.old at found next }
    ensures { (must : Bool) (root : Option ℕ) (t : Tree E) → Holds must E.empty E.whole nodes.old root t → Leads E.empty E.whole nodes.old root at t found → Apart t → size t < 2 ^ 64 → height t ≤ 32 → TakesOut must E.empty E.whole nodes.old nodes.new at t result }
{
    let mut path = found.path;
    path.push(Step {
        slot: found.slot,
        side: Side::Right,
    });
    let first = to_first::<E>(nodes, Found { path, slot: next });
    let node = read_at(nodes, first.slot);
    let out = take_out::<E>(nodes, &first, node.right, node.item);
    let changed = replace::<E>(nodes, out.root, at, out.item)?;
    Some(Removed {
        root: changed.root,
        item: changed.item,
        slot: out.slot,
    })
}

// Takes out the item at a place; none, and nothing changed, past the end.
pub fn remove<E: Element>(
    nodes: &mut [Node<E, E::Sum>],
    root: Option<usize>,
    at: usize,
) -> Option<Removed<E>>
    requires { Sound E.empty E.whole nodes.old root }
    ensures { (must : Bool) (t : Tree E) → Holds must E.empty E.whole nodes.old root t → Takes must E.empty E.whole nodes.old nodes.new at t result }
{
    let found = to_item(&Part::<E> { nodes, link: root }, at)?;
    let node = read_at(nodes, found.slot);
    match (node.left, node.right) {
        (None, rest) | (rest, None) => Some(take_out::<E>(nodes, &found, rest, node.item)),
        (Some(_), Some(next)) => remove_inner::<E>(nodes, at, found, next),
    }
}
