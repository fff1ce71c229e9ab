// Rows of a date line: entries with marks.
ghost use Rattle.std.specs.Prelude.{◌≡◌};
ghost use Rattle.journal.specs.Rows.{stock_step, balance_step};

use crate::folder::Folder;

// Whether an arrival's folder is waiting at the end of the replay, or was fetched.
#[derive(Clone, Copy, PartialEq)]
pub enum Mark {
    Waiting,
    Fetched,
}

// A journal's entry as a date line holds it: an arrival with its mark.
#[derive(Clone, Copy)]
pub enum Row<P> {
    Arrival(Folder<P>, Mark),
    Taking(u32),
}

impl<P: Copy> Row<P> {
    // The row's share in the stock.
    pub fn stock_step(&self) -> i32
        ensures { result ≡ stock_step self.now }
    {
        match *self {
            Row::Arrival(_, _) => 1,
            Row::Taking(_) => -1,
        }
    }

    // The row's share in the balance.
    pub fn balance_step(&self) -> i32
        ensures { result ≡ balance_step self.now }
    {
        match *self {
            Row::Arrival(_, mark) if mark == Mark::Fetched => 1,
            Row::Arrival(_, _) => 0,
            Row::Taking(_) => -1,
        }
    }
}
