// Lent nodes and the links into them: what a tree hands on to those who read and change it.
ghost use Rattle.std.specs.Prelude.{◌≡◌, ◌≤◌, false, length};
ghost use Rattle.nodes.specs.Holding.{Holds};
ghost use Rattle.trees.specs.Structures.{listed, capacity_of, tree_of, Structured};
ghost use Rattle.trees.specs.Depths.{DepthTold};
ghost use Rattle.trees.specs.Operations.{Inserts, Removes, Replaces, Emptied};

use crate::insert_at::insert_at;
use crate::links::Links;
use crate::making::emptied;
use crate::reads;
use crate::refusal::TreeRefusal;
use crate::remove_at::remove_at;
use crate::replace_at::replace_at;
use balance::MOST_ITEMS;
use nodes::{Element, Node, Part};

// Any nodes and any links: the methods that ask for nothing are public. That the links lie rightly in the nodes is kept by `Tree`,
// and the other methods ask for it: the borrow checker does not cover a type that keeps a fact about a `&mut` slice of its own
// and lends the slice on. Three of those only read, and stand here so that those of `Tree` need no proofs of their own.
#[derive(Drop)]
pub struct Lent<'a, E, S> {
    pub nodes: &'a mut [Node<E, S>],
    pub links: Links,
}

impl<'a, E: Element<Sum = S>, S: Copy> Lent<'a, E, S> {
    // No items: all slots are free, whatever the memory held.
    pub fn new(nodes: &'a mut [Node<E, S>]) -> Lent<'a, E, S>
        ensures emptied { Emptied E.empty E.whole result.nodes.now result.links }
        ensures capacity { capacity_of result.nodes.now ≡ capacity_of nodes.old }
    {
        let links = emptied::<E>(nodes);
        Lent { nodes, links }
    }

    // How many items there is room for: a slot for each, and no more than the allowances reach.
    pub fn capacity(&self) -> usize
        ensures { result ≡ capacity_of self.now.nodes.now }
    {
        self.nodes.len().min(MOST_ITEMS)
    }

    pub(crate) fn count(&self) -> usize
        requires { Structured self.now.nodes.now self.now.links }
        ensures value { result ≡ length (listed self.now.nodes.now self.now.links) }
        ensures bound { result ≤ capacity_of self.now.nodes.now }
    {
        reads::count::<E>(self.nodes, self.links)
    }

    // The greatest count since the whole tree was last rebuilt.
    pub fn most(&self) -> usize
        ensures { result ≡ self.now.links.most }
    {
        self.links.most
    }

    // The whole of it, as a part of a tree.
    pub(crate) fn part(&self) -> Part<'_, E>
        requires { Structured self.now.nodes.now self.now.links }
        ensures nodes { result.nodes.now ≡ self.now.nodes.now }
        ensures root { result.link ≡ self.now.links.root }
        ensures holds { Holds false E.empty E.whole self.now.nodes.now self.now.links.root (tree_of self.now.nodes.now self.now.links) }
    {
        reads::whole::<E>(self.nodes, self.links)
    }

    // How deep the item at a place lies, the root at depth 0; none past the end.
    pub(crate) fn depth_at(&self, place: usize) -> Option<usize>
        requires { Structured self.now.nodes.now self.now.links }
        ensures { DepthTold (tree_of self.now.nodes.now self.now.links) self.now.links.most place result }
    {
        reads::depth_at::<E>(self.nodes, self.links, place)
    }

    // Forgets every item: all slots are free.
    pub fn clear(&mut self)
        ensures emptied { Emptied E.empty E.whole self.new.nodes.now self.new.links }
        ensures capacity { capacity_of self.new.nodes.now ≡ capacity_of self.old.nodes.now }
    {
        self.links = emptied::<E>(self.nodes);
    }

    // Puts an item before the one at a place, or at the end, in the first free slot.
    pub(crate) fn insert_at(&mut self, place: usize, item: E) -> Result<(), TreeRefusal>
        requires { Structured self.old.nodes.now self.old.links }
        ensures { Inserts E.empty E.whole self.old.nodes.now self.old.links self.new.nodes.now self.new.links place item result }
    {
        insert_at::<E>(self.nodes, &mut self.links, place, item)
    }

    // Takes out the item at a place, whose slot is then the first free one; none past the end.
    pub(crate) fn remove_at(&mut self, place: usize) -> Option<E>
        requires { Structured self.old.nodes.now self.old.links }
        ensures { Removes E.empty E.whole self.old.nodes.now self.old.links self.new.nodes.now self.new.links place result }
    {
        remove_at::<E>(self.nodes, &mut self.links, place)
    }

    // Replaces the item at a place, and tells the one that was there; none past the end.
    pub(crate) fn replace_at(&mut self, place: usize, item: E) -> Option<E>
        requires { Structured self.old.nodes.now self.old.links }
        ensures { Replaces E.empty E.whole self.old.nodes.now self.old.links self.new.nodes.now self.new.links place item result }
    {
        replace_at::<E>(self.nodes, &mut self.links, place, item)
    }
}
