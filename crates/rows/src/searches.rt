// A date line's questions, answered by descents. What a promise needs of the rows is its premise: a type that kept it would ask
// it of every caller.
ghost use Rattle.std.specs.Prelude.{◌≡◌, ◌≤◌, true};
ghost use Rattle.std.specs.Option.{option_map};
ghost use Rattle.nodes.specs.Tree.{Tree, size};
ghost use Rattle.nodes.specs.Holding.{Holds};
ghost use Rattle.journal.specs.Racks.{most_entries};
ghost use Rattle.journal.specs.Replay.{by_stamp};
ghost use Rattle.journal.specs.Rows.{entries};
ghost use Rattle.journal.specs.Searches.{earlier, place_and_whether, low, first_low_from, first_low_stock, first_low_balance, last_low_balance, hindmost_fetched_from, foremost_waiting_before};
ghost use Rattle.rows.specs.declared.row_item.RowItem.{RowItem};
ghost use Rattle.rows.specs.Probes.{running, place_after};
ghost use Rattle.rows.specs.Sums.{no_rows, sum_whole, rows_in};

use crate::low_sum::{LowSum, Sum};
use crate::not_before::NotBefore;
use crate::row_item::RowItem;
use crate::row_sum::stamp_of;
use journal::folder::Folder;
use nodes::Part;
use orders::priority::Priority;

// How many rows have a lesser stamp, and whether one has this stamp. A pair, as the rules for a date line ask.
pub fn find<P: Priority>(part: &Part<RowItem<P>>, stamp: u32) -> (usize, bool)
    ensures { (t : Tree (RowItem P)) → Holds true no_rows (sum_whole P.Priority.not_behind) part.now.nodes.now part.now.link t → by_stamp (entries (rows_in t)) ≡ true → result ≡ place_and_whether (rows_in t) stamp }
{
    let (place, found) = part.rank(NotBefore { stamp });
    (
        place,
        found.is_some_and(|item| stamp_of(&item.row) == stamp),
    )
}

// Whether the sum of the rows before a place is at most 0.
fn low_at<P: Priority>(part: &Part<RowItem<P>>, sum: Sum, place: usize) -> bool
    ensures { (t : Tree (RowItem P)) → Holds true no_rows (sum_whole P.Priority.not_behind) part.now.nodes.now part.now.link t → size t ≤ most_entries → result ≡ low (running sum (rows_in t)) place }
{
    sum.tally(&part.sum_before(place)).total <= 0
}

// The place after a row.
fn place_after(row: Option<usize>) -> Option<usize>
    ensures { result ≡ option_map place_after row }
{
    row.map(|i| i.saturating_add(1))
}

// The least place at or after this one with a sum of at most 0, or none. A date line asks it of each sum under a name of its own.
fn first_low<P: Priority>(part: &Part<RowItem<P>>, sum: Sum, from: usize) -> Option<usize>
    ensures { (t : Tree (RowItem P)) → Holds true no_rows (sum_whole P.Priority.not_behind) part.now.nodes.now part.now.link t → size t ≤ most_entries → result ≡ first_low_from (running sum) (rows_in t) from }
{
    let place = from.min(part.size());
    if low_at(part, sum, place) {
        return Some(place);
    }
    place_after(part.first_hit(LowSum::new(sum), place))
}

// The least place at or after this one with a stock of at most 0, or none.
pub fn first_low_stock<P: Priority>(part: &Part<RowItem<P>>, from: usize) -> Option<usize>
    ensures { (t : Tree (RowItem P)) → Holds true no_rows (sum_whole P.Priority.not_behind) part.now.nodes.now part.now.link t → size t ≤ most_entries → result ≡ first_low_stock (rows_in t) from }
{
    first_low(part, Sum::Stock, from)
}

// The least place at or after this one with a balance of at most 0, or none.
pub fn first_low_balance<P: Priority>(part: &Part<RowItem<P>>, from: usize) -> Option<usize>
    ensures { (t : Tree (RowItem P)) → Holds true no_rows (sum_whole P.Priority.not_behind) part.now.nodes.now part.now.link t → size t ≤ most_entries → result ≡ first_low_balance (rows_in t) from }
{
    first_low(part, Sum::Balance, from)
}

// The greatest place at or before this one with a balance of at most 0; place 0 is always one.
pub fn last_low_balance<P: Priority>(part: &Part<RowItem<P>>, to: usize) -> Option<usize>
    ensures { (t : Tree (RowItem P)) → Holds true no_rows (sum_whole P.Priority.not_behind) part.now.nodes.now part.now.link t → size t ≤ most_entries → result ≡ last_low_balance (rows_in t) to }
{
    let row = part.last_hit(LowSum::new(Sum::Balance), to);
    place_after(row).or(Some(0))
}

// The place of a folder's row, by its stamp.
// `?` and not `map`: of a closure that calls `find` the check infers nothing about its result.
fn place_of<P: Priority>(part: &Part<RowItem<P>>, folder: Option<Folder<P>>) -> Option<usize>
    ensures { (t : Tree (RowItem P)) → Holds true no_rows (sum_whole P.Priority.not_behind) part.now.nodes.now part.now.link t → by_stamp (entries (rows_in t)) ≡ true → result ≡ option_map (λ f. earlier (rows_in t) f.stamp) folder }
{
    let (place, _) = find(part, folder?.stamp);
    Some(place)
}

// The place of the hindmost fetched arrival among the rows from this place on, or none.
pub fn hindmost_fetched<P: Priority>(part: &Part<RowItem<P>>, from: usize) -> Option<usize>
    ensures { (t : Tree (RowItem P)) → Holds true no_rows (sum_whole P.Priority.not_behind) part.now.nodes.now part.now.link t → by_stamp (entries (rows_in t)) ≡ true → result ≡ hindmost_fetched_from P.Priority.not_behind (rows_in t) from }
{
    place_of(part, part.sum_from(from).hindmost)
}

// The place of the foremost waiting arrival among the rows before this place, or none.
pub fn foremost_waiting<P: Priority>(part: &Part<RowItem<P>>, before: usize) -> Option<usize>
    ensures { (t : Tree (RowItem P)) → Holds true no_rows (sum_whole P.Priority.not_behind) part.now.nodes.now part.now.link t → by_stamp (entries (rows_in t)) ≡ true → result ≡ foremost_waiting_before P.Priority.not_behind (rows_in t) before }
{
    place_of(part, part.sum_before(before).foremost)
}
