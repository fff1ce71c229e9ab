// The place of a folder, by its key. That summaries are right is a premise: a type that kept it would ask it of every caller.
ghost use Rattle.std.specs.Prelude.{true, None};
ghost use Rattle.folders.specs.declared.element.Racked.{Racked};
ghost use Rattle.nodes.specs.Tree.{Tree};
ghost use Rattle.nodes.specs.Holding.{Holds};
ghost use Rattle.folders.specs.Lasts.{last_of, folders};
ghost use Rattle.folders.specs.Ranks.{Finds};

use crate::element::Racked;
use crate::key::Key;
use nodes::Part;
use orders::priority::Priority;

// How many folders are ahead of a key, and whether the next one has it. A pair, as a date line's
// `find` answers; priority and stamp side by side, as for `Rack::remove`.
pub fn place_of<P: Priority>(part: &Part<Racked<P>>, priority: &P, stamp: u32) -> (usize, bool)
    ensures { (t : Tree (Racked P)) → Holds true None last_of part.now.nodes.now part.now.link t → Finds P.Priority.not_behind priority.now stamp (folders t) result }
{
    let key = Key {
        priority: *priority,
        stamp,
    };
    let (place, found) = part.rank(key);
    (
        place,
        found.is_some_and(|racked| racked.folder.has_key(priority, stamp)),
    )
}
