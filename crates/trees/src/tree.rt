// The tree: lent nodes and the links into them.
ghost use Rattle.std.specs.Prelude.{◌≡◌, ◌≤◌, false, length, take, drop};
ghost use Rattle.std.specs.List.{slice_get};
ghost use Rattle.nodes.specs.Holding.{Holds};
ghost use Rattle.nodes.specs.Hits.{passed, first_in, last_in, Lawful};
ghost use Rattle.nodes.specs.Summaries.{Summarizes};
ghost use Rattle.trees.specs.Structures.{listed, capacity_of, tree_of, Right, Structured};
ghost use Rattle.trees.specs.Depths.{DepthTold};
ghost use Rattle.trees.specs.Operations.{Inserts, Removes, Replaces, Emptied};

use crate::lent::Lent;
use crate::refusal::TreeRefusal;
use nodes::{Element, Node, Part, Probe};

// A list of items by place. Its meaning is `listed`, the items in order, and `capacity_of`. Its structure is right
// whatever is called. That its summaries are right is kept by whoever holds a tree: a ghost field for it would cite
// `E: Element`, and a type over one general kind of element cannot hold a tree with such a field.
#[derive(Drop)]
pub struct Tree<'a, E, S> {
    pub lent: Lent<'a, E, S>,
    ghost structured: { Structured lent.nodes.now lent.links },
}

impl<'a, E: Element<Sum = S>, S: Copy> Tree<'a, E, S> {
    // An empty tree in any memory; what the nodes held is forgotten.
    pub fn new(nodes: &'a mut [Node<E, S>]) -> Tree<'a, E, S>
        ensures emptied { Emptied E.empty E.whole result.lent.nodes.now result.lent.links }
        ensures capacity { capacity_of result.lent.nodes.now ≡ capacity_of nodes.old }
    {
        Tree {
            lent: Lent::new(nodes),
        }
    }

    // The whole of it, as a part of a tree to read.
    pub fn part(&self) -> Part<'_, E>
        ensures nodes { result.nodes.now ≡ self.now.lent.nodes.now }
        ensures root { result.link ≡ self.now.lent.links.root }
        ensures holds { Holds false E.empty E.whole self.now.lent.nodes.now self.now.lent.links.root (tree_of self.now.lent.nodes.now self.now.lent.links) }
    {
        self.lent.part()
    }

    pub fn capacity(&self) -> usize
        ensures { result ≡ capacity_of self.now.lent.nodes.now }
    {
        self.lent.capacity()
    }

    pub fn count(&self) -> usize
        ensures value { result ≡ length (listed self.now.lent.nodes.now self.now.lent.links) }
        ensures bound { result ≤ capacity_of self.now.lent.nodes.now }
    {
        self.lent.count()
    }

    // The item at a place, or none past the end.
    pub fn at(&self, place: usize) -> Option<E>
        ensures { result ≡ slice_get (listed self.now.lent.nodes.now self.now.lent.links) place }
    {
        self.part().item_at(place)
    }

    // The greatest count since the whole tree was last rebuilt.
    pub fn most(&self) -> usize
        ensures { result ≡ self.now.lent.links.most }
    {
        self.lent.most()
    }

    // How deep the item at a place lies, the root at depth 0; none past the end.
    pub fn depth_at(&self, place: usize) -> Option<usize>
        ensures { DepthTold (tree_of self.now.lent.nodes.now self.now.lent.links) self.now.lent.links.most place result }
    {
        self.lent.depth_at(place)
    }

    // The summary of the first `count` items, or of all where there are fewer.
    pub fn sum_before(&self, count: usize) -> S
        ensures { Right E.empty E.whole self.now.lent.nodes.now self.now.lent.links → Summarizes E.empty E.whole (take count (listed self.now.lent.nodes.now self.now.lent.links)) result }
    {
        self.part().sum_before(count)
    }

    // The summary of the items from a place on, or of none where there are none.
    pub fn sum_from(&self, place: usize) -> S
        ensures { Right E.empty E.whole self.now.lent.nodes.now self.now.lent.links → Summarizes E.empty E.whole (drop place (listed self.now.lent.nodes.now self.now.lent.links)) result }
    {
        self.part().sum_from(place)
    }

    // The first place from `from` on at which the probe hits, where `start` has passed nothing.
    pub fn first_hit<P: Probe<E, S>>(&self, start: P, from: usize) -> Option<usize>
        ensures { Right E.empty E.whole self.now.lent.nodes.now self.now.lent.links → Lawful E.empty E.whole P.rules start (listed self.now.lent.nodes.now self.now.lent.links) → result ≡ first_in P.rules (passed P.rules start (take from (listed self.now.lent.nodes.now self.now.lent.links))) from (drop from (listed self.now.lent.nodes.now self.now.lent.links)) }
    {
        self.part().first_hit(start, from)
    }

    // The last of the first `count` places at which the probe hits, where `start` has passed nothing.
    pub fn last_hit<P: Probe<E, S>>(&self, start: P, count: usize) -> Option<usize>
        ensures { Right E.empty E.whole self.now.lent.nodes.now self.now.lent.links → Lawful E.empty E.whole P.rules start (listed self.now.lent.nodes.now self.now.lent.links) → result ≡ last_in P.rules start 0 (take count (listed self.now.lent.nodes.now self.now.lent.links)) }
    {
        self.part().last_hit(start, count)
    }

    pub fn clear(&mut self)
        ensures emptied { Emptied E.empty E.whole self.new.lent.nodes.now self.new.lent.links }
        ensures capacity { capacity_of self.new.lent.nodes.now ≡ capacity_of self.old.lent.nodes.now }
    {
        self.lent.clear();
    }

    // Puts an item before the one at a place, or at the end.
    pub fn insert_at(&mut self, place: usize, item: E) -> Result<(), TreeRefusal>
        ensures { Inserts E.empty E.whole self.old.lent.nodes.now self.old.lent.links self.new.lent.nodes.now self.new.lent.links place item result }
    {
        self.lent.insert_at(place, item)
    }

    // Takes out the item at a place; none past the end.
    pub fn remove_at(&mut self, place: usize) -> Option<E>
        ensures { Removes E.empty E.whole self.old.lent.nodes.now self.old.lent.links self.new.lent.nodes.now self.new.lent.links place result }
    {
        self.lent.remove_at(place)
    }

    // Replaces the item at a place, and tells the one that was there; none past the end.
    pub fn replace_at(&mut self, place: usize, item: E) -> Option<E>
        ensures { Replaces E.empty E.whole self.old.lent.nodes.now self.old.lent.links self.new.lent.nodes.now self.new.lent.links place item result }
    {
        self.lent.replace_at(place, item)
    }
}
