// The probe for a low running sum.
ghost use Rattle.std.specs.Prelude.{◌≡◌};
ghost use Rattle.rows.specs.Probes.{step_of, tally_in, low_sum, start_of};

use crate::row_item::RowItem;
use crate::row_sum::RowSum;
use crate::tally::Tally;
use journal::row::Row;
use nodes::Probe;
use orders::priority::Priority;

// The two running sums of rows. An enum and no closures: a probe is copied, and its rules are stated by these two cases.
#[derive(Clone, Copy)]
pub enum Sum {
    Stock,
    Balance,
}

impl Sum {
    // A row's share in the sum.
    pub fn step<P: Copy>(&self, row: &Row<P>) -> i32
        ensures { result ≡ step_of self.now row.now }
    {
        match *self {
            Sum::Stock => row.stock_step(),
            Sum::Balance => row.balance_step(),
        }
    }

    // The sum's tally in a summary.
    pub fn tally<P: Copy>(&self, sum: &RowSum<P>) -> Tally
        ensures { result ≡ tally_in self.now sum.now }
    {
        match *self {
            Sum::Stock => sum.stock,
            Sum::Balance => sum.balance,
        }
    }
}

// Hits the rows after which the running sum is at most 0; `passed` is the sum of the rows passed.
#[derive(Clone, Copy)]
pub struct LowSum {
    pub sum: Sum,
    pub passed: i32,
}

impl LowSum {
    // The probe that has passed nothing.
    pub fn new(sum: Sum) -> LowSum
        ensures { result ≡ start_of sum }
    {
        LowSum { sum, passed: 0 }
    }
}

impl<P: Priority> Probe<RowItem<P>, RowSum<P>> for LowSum {
    ghost rules = { low_sum };

    fn hits_item(&self, item: &RowItem<P>) -> bool {
        self.passed.saturating_add(self.sum.step(&item.row)) <= 0
    }

    fn hits_part(&self, sum: &RowSum<P>) -> bool {
        let least = self.sum.tally(sum).least;
        least.is_some_and(|least| self.passed.saturating_add(least) <= 0)
    }

    fn pass_item(&self, item: &RowItem<P>) -> LowSum {
        LowSum {
            sum: self.sum,
            passed: self.passed.saturating_add(self.sum.step(&item.row)),
        }
    }

    fn pass_part(&self, sum: &RowSum<P>) -> LowSum {
        LowSum {
            sum: self.sum,
            passed: self.passed.saturating_add(self.sum.tally(sum).total),
        }
    }
}
