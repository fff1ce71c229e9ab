// The interface of a rack.
ghost use Rattle.std.specs.Prelude.{◌≡◌, ℕ, ◌≤◌, List, [], length};
ghost use Rattle.std.specs.List.{slice_get};
ghost use Rattle.orders.specs.Refusal.{reply};
ghost use Rattle.journal.specs.declared.folder.Folder.{Folder};
ghost use Rattle.journal.specs.Racks.{most_entries, Changed, put_rule, remove_rule};
ghost use Rattle.journal.specs.Refusals.{list_refusal};

use crate::folder::Folder;
use crate::refusal::ListRefusal;
use orders::priority::Priority;

// A rack: where folders stand, foremost first. Its meaning is a capacity, which never changes, and the list of its folders.
// A stamp or a folder number is any number here, and two priorities that tie are the same to a rack.
pub trait Rack<P: Priority> {
    ghost capacity: { Self → ℕ };

    ghost folders: { Self → List (Folder P) };

    fn capacity(&self) -> usize
        ensures value { result ≡ capacity self.now }
        ensures bound { result ≤ most_entries };

    fn count(&self) -> usize
        ensures value { result ≡ length (folders self.now) }
        ensures bound { result ≤ capacity self.now };

    // The folder at a place, counted from the front, or none.
    fn at(&self, place: usize) -> Option<Folder<P>>
        ensures { result ≡ slice_get (folders self.now) place };

    fn clear(&mut self)
        ensures same { capacity self.new ≡ capacity self.old }
        ensures empty { folders self.new ≡ [] };

    // Puts a folder in its place.
    fn put(&mut self, folder: &Folder<P>) -> Result<(), ListRefusal>
        ensures same { capacity self.new ≡ capacity self.old }
        ensures changed { Changed P.Priority.not_behind (capacity self.old) (put_rule P.Priority.not_behind (capacity self.old) (folders self.old) folder.now) (folders self.old) (folders self.new) (reply list_refusal result) };

    // Removes the folder of a priority and stamp. They stand side by side, as the rules name them: a type of the two would be made
    // for each call and taken apart in it.
    fn remove(&mut self, priority: &P, stamp: u32) -> Result<(), ListRefusal>
        ensures same { capacity self.new ≡ capacity self.old }
        ensures changed { Changed P.Priority.not_behind (capacity self.old) (remove_rule P.Priority.not_behind (folders self.old) priority.now stamp) (folders self.old) (folders self.new) (reply list_refusal result) };
}
