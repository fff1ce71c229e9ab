// A folder as an element of a tree: a part keeps its last folder, which is the hindmost where the folders are in order.
ghost use Rattle.std.specs.Prelude.{None};
ghost use Rattle.folders.specs.Lasts.{last_of};

use journal::folder::Folder;
use nodes::Element;
use orders::priority::Priority;

// A folder that stands in a tree.
#[derive(Clone, Copy)]
pub struct Racked<P> {
    pub folder: Folder<P>,
}

impl<P: Priority> Element for Racked<P> {
    type Sum = Option<Folder<P>>;

    ghost empty = { None };

    ghost whole = { last_of };

    fn none() -> Option<Folder<P>> {
        None
    }

    fn join(
        _before: &Option<Folder<P>>,
        item: &Racked<P>,
        after: &Option<Folder<P>>,
    ) -> Option<Folder<P>> {
        after.or(Some(item.folder))
    }
}
