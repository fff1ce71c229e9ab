// Making a tree in a slice whose links are kept apart from it. It stands beside `Tree::new`: a type that holds a lent slice tells
// its lender nothing of what it left there, and this tells it.
ghost use Rattle.std.specs.Prelude.{◌≡◌};
ghost use Rattle.trees.specs.Operations.{Emptied};

use crate::links::Links;
use changes::slots::release_all;
use nodes::{Element, Node};

// An empty tree in any memory; what the nodes held is forgotten.
pub fn emptied<E: Element>(nodes: &mut [Node<E, E::Sum>]) -> Links
    ensures { Emptied E.empty E.whole nodes.new result }
{
    let free = release_all(nodes);
    Links {
        root: None,
        free,
        count: 0,
        most: 0,
    }
}
