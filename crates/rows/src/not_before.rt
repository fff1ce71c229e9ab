// The probe for a stamp.
ghost use Rattle.rows.specs.Probes.{not_before};

use crate::row_item::RowItem;
use crate::row_sum::{RowSum, stamp_of};
use nodes::Probe;
use orders::priority::Priority;

// Hits the rows whose stamp is not below this one.
#[derive(Clone, Copy)]
pub struct NotBefore {
    pub stamp: u32,
}

impl<P: Priority> Probe<RowItem<P>, RowSum<P>> for NotBefore {
    ghost rules = { not_before };

    fn hits_item(&self, item: &RowItem<P>) -> bool {
        self.stamp <= stamp_of(&item.row)
    }

    fn hits_part(&self, sum: &RowSum<P>) -> bool {
        sum.latest.is_some_and(|latest| self.stamp <= latest)
    }

    fn pass_item(&self, _item: &RowItem<P>) -> NotBefore {
        *self
    }

    fn pass_part(&self, _sum: &RowSum<P>) -> NotBefore {
        *self
    }
}
