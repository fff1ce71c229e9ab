// Taking an item out of a slice of nodes and links that come in apart. It stands beside the method of `Tree`: a type that holds a
// lent slice tells its lender nothing of what it left there, and this tells it.
ghost use Rattle.std.specs.Prelude.{◌≡◌};
ghost use Rattle.trees.specs.Structures.{Structured};
ghost use Rattle.trees.specs.Operations.{Removes};

use crate::links::Links;
use changes::slots::release;
use nodes::{Element, Node};
use upkeep::remove::remove;

// Takes out the item at a place, whose slot is then the first free one; none past the end.
pub fn remove_at<E: Element>(
    nodes: &mut [Node<E, E::Sum>],
    links: &mut Links,
    place: usize,
) -> Option<E>
    requires { Structured nodes.old links.old }
    ensures { Removes E.empty E.whole nodes.old links.old nodes.new links.new place result }
{
    let shrunk = remove::<E>(nodes, links.root, place, links.most)?;
    let free = release(nodes, shrunk.slot, links.free);
    let count = links.count - 1;
    *links = Links {
        root: shrunk.root,
        free,
        count,
        most: if shrunk.whole { count } else { links.most },
    };
    Some(shrunk.item)
}
