// The running sums of a part's rows.
ghost use Rattle.std.specs.Prelude.{◌≡◌};
ghost use Rattle.rows.specs.Tallies.{tally_of, tally_then};

use crate::merged::merged;

// What a part's rows add to a sum, and the least that they add up to after one of them, or none where there are no rows.
#[derive(Clone, Copy)]
pub struct Tally {
    pub total: i32,
    pub least: Option<i32>,
}

impl Tally {
    // The tally of one row.
    pub fn of(step: i32) -> Tally
        ensures { result ≡ tally_of step }
    {
        Tally {
            total: step,
            least: Some(step),
        }
    }

    // The tally of these rows and then others.
    pub fn then(&self, after: &Tally) -> Tally
        ensures { result ≡ tally_then self.now after.now }
    {
        let later = after.least.map(|least| self.total.saturating_add(least));
        Tally {
            total: self.total.saturating_add(after.total),
            least: merged(self.least, later, |x, y| x.min(y)),
        }
    }
}
