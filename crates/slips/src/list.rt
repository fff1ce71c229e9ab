// A list of entries kept by rising stamp.
ghost use Rattle.std.specs.Prelude.{◌≡◌, ◌≤◌, true, [], vec_len};
ghost use Rattle.journal.specs.Entering.{enter_rule};
ghost use Rattle.journal.specs.Racks.{most_entries};
ghost use Rattle.journal.specs.Replay.{by_stamp};
ghost use Rattle.slips.specs.Enter.{Admits, Enters};

use crate::fault::SlipFault;
use journal::entry::{Entry, MOST_ENTRIES};
use journal::refusal::Refusal;
use std::alloc::Global;

// At most 4,096 entries by rising stamp.
#[derive(Drop)]
pub struct EntryList<P> {
    items: Vec<Entry<P>>,
    ghost rising: { by_stamp items.items ≡ true },
    ghost few: { vec_len items ≤ most_entries },
}

// The place that a slip goes to, or what it is refused for.
fn place_for<P: Copy>(entries: &[Entry<P>], entry: &Entry<P>) -> Result<usize, Refusal>
    requires { by_stamp entries.now ≡ true }
    ensures { Admits entries.now entry.now result }
{
    if !entry.has_good_stamp() {
        return Err(Refusal::StampOutOfRange);
    }
    if !entry.has_good_number() {
        return Err(Refusal::NumberOutOfRange);
    }
    match entries.binary_search_by_key(&entry.stamp(), |e| e.stamp()) {
        Ok(_) => Err(Refusal::StampTaken),
        Err(_) if entries.len() >= MOST_ENTRIES => Err(Refusal::Full),
        Err(place) => Ok(place),
    }
}

impl<P: Copy> EntryList<P> {
    pub fn new(heap: Global) -> EntryList<P>
        ensures { result.items.items ≡ [] }
    {
        EntryList {
            items: Vec::new(heap),
        }
    }

    // The entries, by rising stamp.
    pub fn entries(&self) -> &[Entry<P>]
        ensures value { result.now ≡ self.now.items.items }
        ensures rising { by_stamp result.now ≡ true }
    {
        self.items.as_slice()
    }

    // Enters a slip at its stamp.
    pub fn enter(&mut self, entry: Entry<P>) -> Result<(), SlipFault>
        ensures { Enters (enter_rule most_entries self.old.items.items entry) self.old.items.items self.new.items.items result }
    {
        let place = place_for(self.entries(), &entry)?;
        self.items.insert(place, entry)?;
        Ok(())
    }
}
