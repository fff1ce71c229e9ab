// The interface of a date line.
ghost use Rattle.std.specs.Prelude.{◌≡◌, ℕ, ◌≤◌, true, List, [], length};
ghost use Rattle.std.specs.List.{slice_get};
ghost use Rattle.orders.specs.Refusal.{reply};
ghost use Rattle.journal.specs.declared.row.Row.{Row};
ghost use Rattle.journal.specs.DateLines.{put_row_rule, remove_row_rule, mark_rule};
ghost use Rattle.journal.specs.Racks.{most_entries};
ghost use Rattle.journal.specs.Refusals.{list_refusal, Follows};
ghost use Rattle.journal.specs.Replay.{by_stamp};
ghost use Rattle.journal.specs.Rows.{entries};
ghost use Rattle.journal.specs.Searches.{place_and_whether, first_low_stock, first_low_balance, last_low_balance, hindmost_fetched_from, foremost_waiting_before};

use crate::refusal::ListRefusal;
use crate::row::{Mark, Row};
use orders::priority::Priority;

// A date line: the rows of a journal, by rising stamp. Its meaning is a capacity, which never changes, and the list of its rows.
// A stamp or a folder number is any number here. Place j lies after the first j rows; in the searches a place above the
// count is read as the count.
pub trait DateLine<P: Priority> {
    ghost capacity: { Self → ℕ };

    ghost rows: { Self → List (Row P) };

    // In good order: the rows are by rising stamp, and what the searches rest on is right. Making and clearing bring
    // this about, and every call keeps it.
    ghost right: { Self → Type 0 };

    fn capacity(&self) -> usize
        ensures value { result ≡ capacity self.now }
        ensures bound { result ≤ most_entries };

    fn count(&self) -> usize
        ensures value { result ≡ length (rows self.now) }
        ensures bound { result ≤ capacity self.now }
        ensures rising { right self.now → by_stamp (entries (rows self.now)) ≡ true };

    // How many rows have a lesser stamp, and whether one has this stamp. A pair, by the rules, since both are asked at once.
    fn find(&self, stamp: u32) -> (usize, bool)
        ensures { right self.now → result ≡ place_and_whether (rows self.now) stamp };

    // The row at a place, or none.
    fn at(&self, place: usize) -> Option<Row<P>>
        ensures { result ≡ slice_get (rows self.now) place };

    fn clear(&mut self)
        ensures same { capacity self.new ≡ capacity self.old }
        ensures empty { rows self.new ≡ [] }
        ensures right { right self.new };

    // Puts a row at its stamp.
    fn put(&mut self, row: &Row<P>) -> Result<(), ListRefusal>
        ensures same { capacity self.new ≡ capacity self.old }
        ensures changed { Follows (right self.old) (right self.new) (capacity self.old) (put_row_rule (capacity self.old) (rows self.old) row.now) (rows self.old) (rows self.new) (reply list_refusal result) };

    // Removes the row at a place.
    fn remove(&mut self, place: usize) -> Result<(), ListRefusal>
        ensures same { capacity self.new ≡ capacity self.old }
        ensures changed { Follows (right self.old) (right self.new) (capacity self.old) (remove_row_rule (rows self.old) place) (rows self.old) (rows self.new) (reply list_refusal result) };

    // Gives the arrival at a place the mark.
    fn mark(&mut self, place: usize, mark: Mark) -> Result<(), ListRefusal>
        ensures same { capacity self.new ≡ capacity self.old }
        ensures changed { Follows (right self.old) (right self.new) (capacity self.old) (mark_rule (rows self.old) place mark) (rows self.old) (rows self.new) (reply list_refusal result) };

    // The least place at or after this one with a stock of at most 0, or none.
    fn first_low_stock(&self, from: usize) -> Option<usize>
        ensures { right self.now → result ≡ first_low_stock (rows self.now) from };

    // The least place at or after this one with a balance of at most 0, or none.
    fn first_low_balance(&self, from: usize) -> Option<usize>
        ensures { right self.now → result ≡ first_low_balance (rows self.now) from };

    // The greatest place at or before this one with a balance of at most 0.
    fn last_low_balance(&self, to: usize) -> Option<usize>
        ensures { right self.now → result ≡ last_low_balance (rows self.now) to };

    // The place of the hindmost fetched arrival among the rows from this place on, or none.
    fn hindmost_fetched(&self, from: usize) -> Option<usize>
        ensures { right self.now → result ≡ hindmost_fetched_from P.Priority.not_behind (rows self.now) from };

    // The place of the foremost waiting arrival among the rows before this place, or none.
    fn foremost_waiting(&self, before: usize) -> Option<usize>
        ensures { right self.now → result ≡ foremost_waiting_before P.Priority.not_behind (rows self.now) before };
}
