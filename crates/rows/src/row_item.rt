// Rows as the elements of a tree.
ghost use Rattle.rows.specs.Sums.{no_rows, sum_whole};

use crate::row_sum::RowSum;
use journal::row::Row;
use nodes::Element;
use orders::priority::Priority;

// A row as a tree holds it.
#[derive(Clone, Copy)]
pub struct RowItem<P> {
    pub row: Row<P>,
}

impl<P: Priority> Element for RowItem<P> {
    type Sum = RowSum<P>;

    ghost empty = { no_rows };

    ghost whole = { sum_whole P.Priority.not_behind };

    fn none() -> RowSum<P> {
        RowSum::none()
    }

    fn join(before: &RowSum<P>, item: &RowItem<P>, after: &RowSum<P>) -> RowSum<P> {
        before.then(&RowSum::of(&item.row)).then(after)
    }
}
