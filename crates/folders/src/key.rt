// The key of a folder, as what a search asks for.
ghost use Rattle.std.specs.Prelude.{◌≡◌};
ghost use Rattle.folders.specs.Keys.{key_rules};
ghost use Rattle.folders.specs.Ranks.{ahead_of_key};

use crate::element::Racked;
use journal::folder::Folder;
use nodes::Probe;
use orders::priority::Priority;

// A search for a key finds the first folder that is not ahead of it.
#[derive(Clone, Copy)]
pub struct Key<P> {
    pub priority: P,
    pub stamp: u32,
}

impl<P: Priority> Key<P> {
    // Whether a folder is ahead of every folder of this key.
    fn is_behind(&self, folder: &Folder<P>) -> bool
        ensures { result ≡ ahead_of_key P.Priority.not_behind self.now.priority self.now.stamp folder.now }
    {
        folder.is_ahead_of(&Folder {
            stamp: self.stamp,
            priority: self.priority,
            number: 0,
        })
    }
}

impl<P: Priority> Probe<Racked<P>, Option<Folder<P>>> for Key<P> {
    ghost rules = { key_rules P.Priority.not_behind };

    fn hits_item(&self, item: &Racked<P>) -> bool {
        !self.is_behind(&item.folder)
    }

    fn hits_part(&self, sum: &Option<Folder<P>>) -> bool {
        sum.is_some_and(|last| !self.is_behind(&last))
    }

    fn pass_item(&self, _item: &Racked<P>) -> Key<P> {
        *self
    }

    fn pass_part(&self, _sum: &Option<Folder<P>>) -> Key<P> {
        *self
    }
}
