// Putting another item in the place of one, in a slice of nodes and links that come in apart. It stands beside the method of
// `Tree`: a type that holds a lent slice tells its lender nothing of what it left there, and this tells it.
ghost use Rattle.std.specs.Prelude.{◌≡◌};
ghost use Rattle.trees.specs.Structures.{Structured};
ghost use Rattle.trees.specs.Operations.{Replaces};

use crate::links::Links;
use changes::replace::replace;
use nodes::{Element, Node};

// Replaces the item at a place, and tells the one that was there; none past the end.
pub fn replace_at<E: Element>(
    nodes: &mut [Node<E, E::Sum>],
    links: &mut Links,
    place: usize,
    item: E,
) -> Option<E>
    requires { Structured nodes.old links.old }
    ensures { Replaces E.empty E.whole nodes.old links.old nodes.new links.new place item result }
{
    let changed = replace::<E>(nodes, links.root, place, item)?;
    links.root = changed.root;
    Some(changed.item)
}
