// The scapegoat rack: folders in order in a tree over lent nodes.
ghost use Rattle.std.specs.Prelude.{◌≡◌, []};
ghost use Rattle.trees.specs.Structures.{capacity_of};
ghost use Rattle.tree_racks.specs.Scapegoat.{racked, LastsRight};

use crate::by_rank::{folder_at, put_in, remove_from};
use folders::Racked;
use journal::folder::Folder;
use journal::rack::Rack;
use journal::refusal::ListRefusal;
use nodes::Node;
use orders::priority::Priority;
use trees::Tree;

// Folders in order, foremost first, by place in a tree whose summaries are right whatever is called.
#[derive(Drop)]
pub struct ScapegoatRack<'a, P: Priority> {
    tree: Tree<'a, Racked<P>, Option<Folder<P>>>,
    ghost right: { LastsRight tree.lent.nodes.now tree.lent.links },
}

impl<'a, P: Priority> ScapegoatRack<'a, P> {
    // An empty rack in any memory; what the nodes held is forgotten.
    pub fn new(nodes: &'a mut [Node<Racked<P>, Option<Folder<P>>>]) -> ScapegoatRack<'a, P>
        ensures capacity { capacity_of result.tree.lent.nodes.now ≡ capacity_of nodes.old }
        ensures empty { racked result.tree.lent.nodes.now result.tree.lent.links ≡ [] }
    {
        ScapegoatRack {
            tree: Tree::new(nodes),
        }
    }
}

impl<'a, P: Priority> Rack<P> for ScapegoatRack<'a, P> {
    ghost capacity = { λ r. capacity_of r.tree.lent.nodes.now };

    ghost folders = { λ r. racked r.tree.lent.nodes.now r.tree.lent.links };

    fn capacity(&self) -> usize {
        self.tree.capacity()
    }

    fn count(&self) -> usize {
        self.tree.count()
    }

    fn at(&self, place: usize) -> Option<Folder<P>> {
        folder_at(&self.tree, place)
    }

    fn clear(&mut self) {
        self.tree.clear();
    }

    fn put(&mut self, folder: &Folder<P>) -> Result<(), ListRefusal> {
        put_in(&mut self.tree, folder)
    }

    fn remove(&mut self, priority: &P, stamp: u32) -> Result<(), ListRefusal> {
        remove_from(&mut self.tree, priority, stamp)
    }
}
