// The replay of entries into any rack.
ghost use Rattle.std.specs.Prelude.{◌≡◌, true};
ghost use Rattle.orders.specs.Refusal.{reply};
ghost use Rattle.journal.specs.Refusals.{book_refusal};
ghost use Rattle.slips.specs.Into.{Ready, Steps, replay_reply, replayed};

use crate::list::EntryList;
use journal::entry::Entry;
use journal::rack::Rack;
use journal::refusal::Refusal;
use orders::priority::Priority;

// Does what one entry does to the rack.
fn step<P: Priority, R: Rack<P>>(rack: &mut R, entry: &Entry<P>) -> Result<(), Refusal>
    requires { Ready P.Priority.not_behind (R.capacity rack.old) (R.folders rack.old) entry.now }
    ensures same { R.capacity rack.new ≡ R.capacity rack.old }
    ensures steps { Steps P.Priority.not_behind (R.folders rack.old) entry.now (R.folders rack.new) result }
{
    match *entry {
        Entry::Arrival(folder) => {
            rack.put(&folder)?;
        }
        Entry::Taking(stamp) => {
            let front = rack.at(0).ok_or(Refusal::NoFolder(stamp))?;
            rack.remove(&front.priority, front.stamp)?;
        }
    }
    Ok(())
}

// Empties the rack and leaves on it what the entries leave.
pub fn replay_into<P: Priority, R: Rack<P>>(
    list: &EntryList<P>,
    rack: &mut R,
) -> Result<(), Refusal>
    ensures same { R.capacity rack.new ≡ R.capacity rack.old }
    ensures replied { reply book_refusal result ≡ replay_reply P.Priority.not_behind (R.capacity rack.old) list.now.items.items }
    ensures left { R.folders rack.new ≡ replayed P.Priority.not_behind (R.capacity rack.old) list.now.items.items (R.folders rack.old) }
{
    let entries = list.entries();
    if rack.capacity() < entries.len() {
        return Err(Refusal::TooSmall);
    }
    rack.clear();
    for slip in entries {
        if let Err(why) = step(rack, slip) {
            rack.clear();
            return Err(why);
        }
    }
    Ok(())
}
