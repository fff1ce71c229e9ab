// Folders in a tree, foremost first: those told, one more, one fewer.
// That the summaries are right is kept by the rack. A ghost field of `Tree` for it would cite `E: Element`, and a type that
// holds such a tree of `Racked<P>`, for any P, is not supported, as only a general `impl` meets that bound.
ghost use Rattle.std.specs.Prelude.{◌≡◌};
ghost use Rattle.std.specs.List.{slice_get};
ghost use Rattle.orders.specs.Refusal.{reply};
ghost use Rattle.journal.specs.Racks.{put_rule, remove_rule};
ghost use Rattle.journal.specs.Refusals.{list_refusal};
ghost use Rattle.folders.specs.Ranks.{Finds};
ghost use Rattle.trees.specs.Structures.{capacity_of};
ghost use Rattle.tree_racks.specs.Scapegoat.{racked, LastsRight, Moved};

use folders::{Racked, place_of};
use journal::folder::Folder;
use journal::refusal::ListRefusal;
use orders::priority::Priority;
use trees::Tree;

// The folder at a place, or none.
pub(crate) fn folder_at<P: Priority>(
    tree: &Tree<'_, Racked<P>, Option<Folder<P>>>,
    place: usize,
) -> Option<Folder<P>>
    ensures { result ≡ slice_get (racked tree.now.lent.nodes.now tree.now.lent.links) place }
{
    Some(tree.at(place)?.folder)
}

// How many folders are ahead of a key, and whether the next one has it. A pair, as `place_of` answers;
// priority and stamp side by side, as for `Rack::remove`.
fn rank_in<P: Priority>(
    tree: &Tree<'_, Racked<P>, Option<Folder<P>>>,
    priority: &P,
    stamp: u32,
) -> (usize, bool)
    requires { LastsRight tree.now.lent.nodes.now tree.now.lent.links }
    ensures { Finds P.Priority.not_behind priority.now stamp (racked tree.now.lent.nodes.now tree.now.lent.links) result }
{
    place_of(&tree.part(), priority, stamp)
}

// Puts a folder in its place.
pub(crate) fn put_in<P: Priority>(
    tree: &mut Tree<'_, Racked<P>, Option<Folder<P>>>,
    folder: &Folder<P>,
) -> Result<(), ListRefusal>
    requires { LastsRight tree.old.lent.nodes.now tree.old.lent.links }
    ensures { Moved P.Priority.not_behind (put_rule P.Priority.not_behind (capacity_of tree.old.lent.nodes.now) (racked tree.old.lent.nodes.now tree.old.lent.links) folder.now) tree.old.lent.nodes.now tree.old.lent.links tree.new.lent.nodes.now tree.new.lent.links (reply list_refusal result) }
{
    let (place, present) = rank_in(tree, &folder.priority, folder.stamp);
    if present {
        return Err(ListRefusal::Present);
    }
    // `map_err` was tried: through its closure no proof was found.
    let Ok(()) = tree.insert_at(place, Racked { folder: *folder }) else {
        return Err(ListRefusal::Full);
    };
    Ok(())
}

// Removes the folder of a priority and stamp.
pub(crate) fn remove_from<P: Priority>(
    tree: &mut Tree<'_, Racked<P>, Option<Folder<P>>>,
    priority: &P,
    stamp: u32,
) -> Result<(), ListRefusal>
    requires { LastsRight tree.old.lent.nodes.now tree.old.lent.links }
    ensures { Moved P.Priority.not_behind (remove_rule P.Priority.not_behind (racked tree.old.lent.nodes.now tree.old.lent.links) priority.now stamp) tree.old.lent.nodes.now tree.old.lent.links tree.new.lent.nodes.now tree.new.lent.links (reply list_refusal result) }
{
    let (place, present) = rank_in(tree, priority, stamp);
    if !present {
        return Err(ListRefusal::Absent);
    }
    // `ok_or` with `?` was tried: at the `?` no proof was found.
    let Some(_) = tree.remove_at(place) else {
        return Err(ListRefusal::Absent);
    };
    Ok(())
}
