// Reading the list that a slice of nodes and links mean, where they come in apart: the links lie in a record of the caller's own,
// and the slice is perhaps lent to read alone, of which no `Tree` can be made.
ghost use Rattle.std.specs.Prelude.{◌≡◌, ◌≤◌, false, length, take, drop};
ghost use Rattle.std.specs.List.{slice_get};
ghost use Rattle.nodes.specs.Holding.{Holds};
ghost use Rattle.nodes.specs.Hits.{passed, first_in, last_in, Lawful};
ghost use Rattle.nodes.specs.Summaries.{Summarizes};
ghost use Rattle.trees.specs.Structures.{listed, capacity_of, tree_of, Right, Structured};
ghost use Rattle.trees.specs.Depths.{DepthTold};

use crate::links::Links;
use changes::descend::to_item;
use nodes::{Element, Node, Part, Probe};

// The whole of the tree, as a part of a tree.
pub(crate) fn whole<'a, E: Element>(nodes: &'a [Node<E, E::Sum>], links: Links) -> Part<'a, E>
    requires { Structured nodes.now links }
    ensures nodes { result.nodes.now ≡ nodes.now }
    ensures root { result.link ≡ links.root }
    ensures holds { Holds false E.empty E.whole result.nodes.now result.link (tree_of nodes.now links) }
{
    Part {
        nodes,
        link: links.root,
    }
}

// How many items there are.
pub fn count<E: Element>(nodes: &[Node<E, E::Sum>], links: Links) -> usize
    requires { Structured nodes.now links }
    ensures value { result ≡ length (listed nodes.now links) }
    ensures bound { result ≤ capacity_of nodes.now }
{
    links.count
}

// The item at a place, or none past the end.
pub fn at<E: Element>(nodes: &[Node<E, E::Sum>], links: Links, place: usize) -> Option<E>
    requires { Structured nodes.now links }
    ensures { result ≡ slice_get (listed nodes.now links) place }
{
    whole::<E>(nodes, links).item_at(place)
}

// How deep the item at a place lies, the root at depth 0; none past the end.
pub fn depth_at<E: Element>(nodes: &[Node<E, E::Sum>], links: Links, place: usize) -> Option<usize>
    requires { Structured nodes.now links }
    ensures { DepthTold (tree_of nodes.now links) links.most place result }
{
    let all = whole::<E>(nodes, links);
    Some(to_item(&all, place)?.path.len())
}

// The summary of the first `count` items, or of all where there are fewer.
pub fn sum_before<E: Element>(nodes: &[Node<E, E::Sum>], links: Links, count: usize) -> E::Sum
    requires { Structured nodes.now links }
    ensures { Right E.empty E.whole nodes.now links → Summarizes E.empty E.whole (take count (listed nodes.now links)) result }
{
    whole::<E>(nodes, links).sum_before(count)
}

// The summary of the items from a place on, or of none where there are none.
pub fn sum_from<E: Element>(nodes: &[Node<E, E::Sum>], links: Links, place: usize) -> E::Sum
    requires { Structured nodes.now links }
    ensures { Right E.empty E.whole nodes.now links → Summarizes E.empty E.whole (drop place (listed nodes.now links)) result }
{
    whole::<E>(nodes, links).sum_from(place)
}

// The first place from `from` on at which the probe hits, where `start` has passed nothing.
pub fn first_hit<E: Element, P: Probe<E, E::Sum>>(
    nodes: &[Node<E, E::Sum>],
    links: Links,
    start: P,
    from: usize,
) -> Option<usize>
    requires { Structured nodes.now links }
    ensures { Right E.empty E.whole nodes.now links → Lawful E.empty E.whole P.rules start (listed nodes.now links) → result ≡ first_in P.rules (passed P.rules start (take from (listed nodes.now links))) from (drop from (listed nodes.now links)) }
{
    whole::<E>(nodes, links).first_hit(start, from)
}

// The last of the first `count` places at which the probe hits, where `start` has passed nothing.
pub fn last_hit<E: Element, P: Probe<E, E::Sum>>(
    nodes: &[Node<E, E::Sum>],
    links: Links,
    start: P,
    count: usize,
) -> Option<usize>
    requires { Structured nodes.now links }
    ensures { Right E.empty E.whole nodes.now links → Lawful E.empty E.whole P.rules start (listed nodes.now links) → result ≡ last_in P.rules start 0 (take count (listed nodes.now links)) }
{
    whole::<E>(nodes, links).last_hit(start, count)
}
