// The summary of a part's rows.
ghost use Rattle.std.specs.Prelude.{◌≡◌};
ghost use Rattle.journal.specs.Replay.{stamp_of};
ghost use Rattle.journal.specs.Rows.{entry_of};
ghost use Rattle.rows.specs.Sums.{folder_marked, no_rows, sum_of_row, sum_then};

use crate::merged::merged;
use crate::tally::Tally;
use journal::folder::Folder;
use journal::row::{Mark, Row};
use orders::priority::Priority;

// What a part of a date line says of its rows: the greatest stamp, the two running sums, the hindmost fetched folder
// and the foremost waiting one.
#[derive(Clone, Copy)]
pub struct RowSum<P> {
    pub latest: Option<u32>,
    pub stock: Tally,
    pub balance: Tally,
    pub hindmost: Option<Folder<P>>,
    pub foremost: Option<Folder<P>>,
}

// A row's stamp. Rows and entries are two enums: a trait for this one question would say no less than the two matches.
pub fn stamp_of<P: Copy>(row: &Row<P>) -> u32
    ensures { result ≡ stamp_of (entry_of row.now) }
{
    match *row {
        Row::Arrival(folder, _) => folder.stamp,
        Row::Taking(stamp) => stamp,
    }
}

// The folder of a row with this mark.
fn folder_marked<P: Copy>(row: &Row<P>, wanted: Mark) -> Option<Folder<P>>
    ensures { result ≡ folder_marked wanted row.now }
{
    match *row {
        Row::Arrival(folder, mark) if mark == wanted => Some(folder),
        Row::Arrival(_, _) | Row::Taking(_) => None,
    }
}

impl<P: Priority> RowSum<P> {
    // The summary of no rows.
    pub fn none() -> RowSum<P>
        ensures { result ≡ no_rows }
    {
        let sums = Tally {
            total: 0,
            least: None,
        };
        RowSum {
            latest: None,
            stock: sums,
            balance: sums,
            hindmost: None,
            foremost: None,
        }
    }

    // The summary of one row.
    pub fn of(row: &Row<P>) -> RowSum<P>
        ensures { result ≡ sum_of_row row.now }
    {
        RowSum {
            latest: Some(stamp_of(row)),
            stock: Tally::of(row.stock_step()),
            balance: Tally::of(row.balance_step()),
            hindmost: folder_marked(row, Mark::Fetched),
            foremost: folder_marked(row, Mark::Waiting),
        }
    }

    // The summary of these rows and then others.
    pub fn then(&self, after: &RowSum<P>) -> RowSum<P>
        ensures { result ≡ sum_then P.Priority.not_behind self.now after.now }
    {
        RowSum {
            latest: merged(self.latest, after.latest, |x, y| x.max(y)),
            stock: self.stock.then(&after.stock),
            balance: self.balance.then(&after.balance),
            hindmost: merged(self.hindmost, after.hindmost, |f, g| {
                if f.is_ahead_of(&g) { g } else { f }
            }),
            foremost: merged(self.foremost, after.foremost, |f, g| {
                if g.is_ahead_of(&f) { g } else { f }
            }),
        }
    }
}
