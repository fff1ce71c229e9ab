// Reading by place: the walk goes down one path and keeps no stack.
ghost use Rattle.std.specs.Prelude.{◌≡◌, ◌<◌, false, length, Some};
ghost use Rattle.std.specs.List.{slice_get};
ghost use Rattle.std.specs.Option.{option_map};
ghost use Rattle.nodes.specs.Tree.{Tree, items, slots};
ghost use Rattle.nodes.specs.Holding.{Holds};

use crate::element::Element;
use crate::part::{Fork, Part};

// Indexing at any type, in the words in which proofs cite it.
pub fn read_at<T: Copy>(slice: &[T], i: usize) -> T
    requires { i < length slice.now }
    ensures { slice_get slice.now i ≡ Some result }
{
    slice[i]
}

impl<'a, E: Element> Part<'a, E> {
    // The node at a place, or none past the end.
    fn node_at(&self, place: usize) -> Option<Fork<'a, E>>
        ensures item { (t : Tree E) → Holds false E.empty E.whole self.now.nodes.now self.now.link t → option_map (λ f. f.node.item) result ≡ slice_get (items t) place }
        ensures slot { (t : Tree E) → Holds false E.empty E.whole self.now.nodes.now self.now.link t → option_map (λ f. f.slot) result ≡ slice_get (slots t) place }
    {
        let mut part = self.again();
        let mut rest = place;
        while let Some(fork) = part.open() {
            let before = fork.left.size();
            if rest < before {
                part = fork.left;
            } else if rest == before {
                return Some(fork);
            } else {
                part = fork.right;
                rest = rest - before - 1;
            }
        }
        None
    }

    // The item at a place, or none past the end.
    pub fn item_at(&self, place: usize) -> Option<E>
        ensures { (t : Tree E) → Holds false E.empty E.whole self.now.nodes.now self.now.link t → result ≡ slice_get (items t) place }
    {
        self.node_at(place).map(|fork| fork.node.item)
    }

    // The slot of the item at a place, or none past the end.
    pub fn slot_at(&self, place: usize) -> Option<usize>
        ensures { (t : Tree E) → Holds false E.empty E.whole self.now.nodes.now self.now.link t → result ≡ slice_get (slots t) place }
    {
        self.node_at(place).map(|fork| fork.slot)
    }
}
