// Putting an item into a slice of nodes and links that come in apart. It stands beside the method of `Tree`: a type that holds a
// lent slice tells its lender nothing of what it left there, and this tells it.
ghost use Rattle.std.specs.Prelude.{◌≡◌};
ghost use Rattle.trees.specs.Structures.{Structured};
ghost use Rattle.trees.specs.Operations.{Inserts};

use crate::links::Links;
use crate::refusal::TreeRefusal;
use balance::MOST_ITEMS;
use nodes::read::read_at;
use nodes::{Element, Node};
use upkeep::insert::insert;

// Puts an item before the one at a place, or at the end, in the first free slot.
pub fn insert_at<E: Element>(
    nodes: &mut [Node<E, E::Sum>],
    links: &mut Links,
    place: usize,
    item: E,
) -> Result<(), TreeRefusal>
    requires { Structured nodes.old links.old }
    ensures { Inserts E.empty E.whole nodes.old links.old nodes.new links.new place item result }
{
    if place > links.count {
        return Err(TreeRefusal::NoPlace);
    }
    if links.count >= MOST_ITEMS {
        return Err(TreeRefusal::Full);
    }
    // `ok_or` with `?` was tried: at the `?` no proof was found.
    let Some(slot) = links.free else {
        return Err(TreeRefusal::Full);
    };
    let free = read_at(nodes, slot).left;
    let count = links.count + 1;
    let most = links.most.max(count);
    let balanced = insert::<E>(nodes, links.root, place, slot, item, most);
    *links = Links {
        root: balanced.root,
        free,
        count,
        most: if balanced.whole { count } else { most },
    };
    Ok(())
}
