// Entries of a journal.
ghost use Rattle.std.specs.Prelude.{◌≡◌};
ghost use Rattle.journal.specs.Entering.{stamp_in_range, number_in_range};
ghost use Rattle.journal.specs.Replay.{stamp_of};

use crate::folder::Folder;

// The greatest stamp.
pub const MOST_STAMP: u32 = 999_999_999;

// The greatest folder number.
pub const MOST_NUMBER: u32 = 999_999;

// The greatest count of entries.
pub const MOST_ENTRIES: usize = 4096;

// A journal's entry. An arrival sets its folder on the rack at the folder's stamp;
// a taking fetches the foremost folder from the rack at its own stamp.
#[derive(Clone, Copy, Debug)]
pub enum Entry<P> {
    Arrival(Folder<P>),
    Taking(u32),
}

impl<P: Copy> Entry<P> {
    pub fn stamp(&self) -> u32
        ensures { result ≡ stamp_of self.now }
    {
        match *self {
            Entry::Arrival(folder) => folder.stamp,
            Entry::Taking(stamp) => stamp,
        }
    }

    // Whether the stamp is one that a journal may hold.
    pub fn has_good_stamp(&self) -> bool
        ensures { result ≡ stamp_in_range (stamp_of self.now) }
    {
        (1..=MOST_STAMP).contains(&self.stamp())
    }

    // Whether the folder number of an arrival is one that a journal may hold.
    pub fn has_good_number(&self) -> bool
        ensures { result ≡ number_in_range self.now }
    {
        match *self {
            Entry::Arrival(folder) => (1..=MOST_NUMBER).contains(&folder.number),
            Entry::Taking(_) => true,
        }
    }
}
