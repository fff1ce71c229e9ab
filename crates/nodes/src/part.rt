// A part of a tree: what hangs from a link into a lent slice, and what is read at its root.
ghost use Rattle.std.specs.Prelude.{◌≡◌, true, false, MatchOption};
ghost use Rattle.nodes.specs.Tree.{Tree, size, summary};
ghost use Rattle.nodes.specs.Holding.{Holds, Shaped, Opens, size_at};

use crate::element::Element;
use crate::node::Node;
use crate::read::read_at;

// The type keeps that the slice holds a tree at the link, with right sizes.
#[derive(Drop)]
pub struct Part<'a, E: Element> {
    pub nodes: &'a [Node<E, E::Sum>],
    pub link: Option<usize>,
    ghost shaped: { ∥ Shaped E.empty E.whole nodes.now link ∥₁ },
}

// The root of a part, with the parts before and after its item.
#[derive(Drop)]
pub struct Fork<'a, E: Element> {
    pub slot: usize,
    pub node: Node<E, E::Sum>,
    pub left: Part<'a, E>,
    pub right: Part<'a, E>,
}

impl<'a, E: Element> Part<'a, E> {
    // The same part once more, since a walk uses up the parts that it comes through. `Clone` is not derived over a ghost field.
    pub fn again(&self) -> Part<'a, E>
        ensures nodes { result.nodes.now ≡ self.now.nodes.now }
        ensures link { result.link ≡ self.now.link }
    {
        Part {
            nodes: self.nodes,
            link: self.link,
        }
    }

    // What stands at the link, or none where nothing hangs there.
    pub fn open(&self) -> Option<Fork<'a, E>>
        ensures { MatchOption result (self.now.link ≡ None) (λ f. Opens self.now.nodes.now self.now.link f.slot f.node f.left.nodes.now f.left.link f.right.nodes.now f.right.link) }
    {
        let slot = self.link?;
        let node = read_at(self.nodes, slot);
        Some(Fork {
            slot,
            node,
            left: Part {
                nodes: self.nodes,
                link: node.left,
            },
            right: Part {
                nodes: self.nodes,
                link: node.right,
            },
        })
    }

    // How many items it has.
    pub fn size(&self) -> usize
        ensures stored { result ≡ size_at self.now.nodes.now self.now.link }
        ensures counts { (t : Tree E) → Holds false E.empty E.whole self.now.nodes.now self.now.link t → result ≡ size t }
    {
        self.open().map_or(0, |fork| fork.node.size)
    }

    // The summary of its items. A `match` and no `map_or_else`, which would hold two closures for the same two arms.
    pub fn sum(&self) -> E::Sum
        ensures { (t : Tree E) → Holds true E.empty E.whole self.now.nodes.now self.now.link t → result ≡ summary E.empty E.whole t }
    {
        match self.link {
            None => E::none(),
            Some(slot) => read_at(self.nodes, slot).sum,
        }
    }
}
