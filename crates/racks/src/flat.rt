// The flat rack: folders in order in lent slots.
ghost use Rattle.std.specs.Prelude.{◌≡◌, ◌+◌, ◌-◌, ◌≤◌, not, [], length, take, is_ok, if◌then◌else◌};
ghost use Rattle.std.specs.List.{position, prefix_len};
ghost use Rattle.orders.specs.Refusal.{reply};
ghost use Rattle.journal.specs.Folders.{ahead};
ghost use Rattle.journal.specs.Racks.{same_key, Changed, put_rule, remove_rule};
ghost use Rattle.journal.specs.Refusals.{list_refusal};
ghost use Rattle.racks.specs.Flat.{flat_capacity, flat_items};

use crate::front::{insert_at, remove_at};
use journal::entry::MOST_ENTRIES;
use journal::folder::Folder;
use journal::rack::Rack;
use journal::refusal::ListRefusal;
use orders::priority::Priority;

// Folders in order, foremost first, in the first slots: lent slots with a count, and no `Vec`, since a rack takes no memory from
// the heap.
#[derive(Drop)]
pub struct FlatRack<'a, P> {
    slots: &'a mut [Folder<P>],
    count: usize,
}

// How many folders stand before the first that the folder is ahead of.
fn place_for<P: Priority>(front: &[Folder<P>], folder: &Folder<P>) -> usize
    ensures value { result ≡ prefix_len (λ g. not (ahead P.Priority.not_behind folder.now g)) front.now }
    ensures bound { result ≤ length front.now }
{
    front.iter().take_while(|g| !folder.is_ahead_of(g)).count()
}

// The place of the first folder of a priority and stamp, side by side as for `Rack::remove`.
fn place_of<P: Priority>(front: &[Folder<P>], priority: &P, stamp: u32) -> Option<usize>
    ensures { result ≡ position (λ g. same_key P.Priority.not_behind priority.now stamp g) front.now }
{
    front.iter().position(|g| g.has_key(priority, stamp))
}

// Puts a folder among the first n, in its place. It comes in just behind them at the most, so n and the capacity stand beside the
// slots.
fn put_in<P: Priority>(
    slots: &mut [Folder<P>],
    n: usize,
    capacity: usize,
    folder: &Folder<P>,
) -> Result<(), ListRefusal>
    requires within { n ≤ capacity }
    requires room { capacity ≤ length slots.old }
    ensures { Changed P.Priority.not_behind capacity (put_rule P.Priority.not_behind capacity (take n slots.old) folder.now) (take n slots.old) (take (if is_ok result then n + 1 else n) slots.new) (reply list_refusal result) }
{
    if place_of(&slots[..n], &folder.priority, folder.stamp).is_some() {
        return Err(ListRefusal::Present);
    }
    if n >= capacity {
        return Err(ListRefusal::Full);
    }
    let place = place_for(&slots[..n], folder);
    insert_at(slots, n, place, *folder);
    Ok(())
}

// Removes the folder of a priority and stamp from among the first n.
fn remove_from<P: Priority>(
    slots: &mut [Folder<P>],
    n: usize,
    priority: &P,
    stamp: u32,
) -> Result<(), ListRefusal>
    requires { n ≤ length slots.old }
    ensures { Changed P.Priority.not_behind n (remove_rule P.Priority.not_behind (take n slots.old) priority.now stamp) (take n slots.old) (take (if is_ok result then n - 1 else n) slots.new) (reply list_refusal result) }
{
    // `ok_or` with `?` was tried: at the `?` no proof was found.
    let Some(place) = place_of(&slots[..n], priority, stamp) else {
        return Err(ListRefusal::Absent);
    };
    remove_at(slots, n, place);
    Ok(())
}

impl<'a, P: Priority> FlatRack<'a, P> {
    // An empty rack in any memory; what the slots held is forgotten.
    pub fn new(slots: &'a mut [Folder<P>]) -> FlatRack<'a, P>
        ensures capacity { flat_capacity result.slots.now ≡ flat_capacity slots.old }
        ensures empty { flat_items result.slots.now result.count ≡ [] }
    {
        FlatRack { slots, count: 0 }
    }
}

impl<'a, P: Priority> Rack<P> for FlatRack<'a, P> {
    ghost capacity = { λ r. flat_capacity r.slots.now };

    ghost folders = { λ r. flat_items r.slots.now r.count };

    fn capacity(&self) -> usize {
        self.slots.len().min(MOST_ENTRIES)
    }

    fn count(&self) -> usize {
        self.count.min(self.capacity())
    }

    fn at(&self, place: usize) -> Option<Folder<P>> {
        self.slots[..self.count()].get(place).copied()
    }

    fn clear(&mut self) {
        self.count = 0;
    }

    fn put(&mut self, folder: &Folder<P>) -> Result<(), ListRefusal> {
        let n = self.count();
        let capacity = self.capacity();
        put_in(self.slots, n, capacity, folder)?;
        self.count = n + 1;
        Ok(())
    }

    fn remove(&mut self, priority: &P, stamp: u32) -> Result<(), ListRefusal> {
        let n = self.count();
        remove_from(self.slots, n, priority, stamp)?;
        self.count = n - 1;
        Ok(())
    }
}

#[cfg(test)]
mod tests {
    use super::*;
    use orders::weight::Weight;
    use std::process::Abort;
    use std::test::Fail;

    fn folder(stamp: u32, bytes: u64) -> Result<Folder<Weight>, Fail> {
        let priority = Weight::new(bytes)?;
        Ok(Folder {
            stamp,
            priority,
            number: 7,
        })
    }

    // Whether just these stamps stand on the rack, in this order.
    fn stands(rt: &impl Abort, rack: &FlatRack<'_, Weight>, stamps: &[u32]) -> Result<(), Fail> {
        assert_eq!(rt; rack.count(), stamps.len());
        for (place, stamp) in stamps.iter().enumerate() {
            let found = rack.at(place).ok_or("no folder")?;
            assert_eq!(rt; found.stamp, *stamp);
        }
        assert!(rt; rack.at(stamps.len()).is_none());
        Ok(())
    }

    #[test]
    fn no_slot(rt: HostRuntime) -> Result<(), Fail> {
        let mut slots = [folder(1, 1)?; 0];
        let mut rack = FlatRack::new(&mut slots);
        assert_eq!(rt; rack.capacity(), 0);
        assert_eq!(rt; rack.put(&folder(1, 5)?), Err(ListRefusal::Full));
        assert_eq!(rt;
            rack.remove(&folder(1, 5)?.priority, 1),
            Err(ListRefusal::Absent)
        );
        stands(&rt, &rack, &[])
    }

    #[test]
    fn one_slot(rt: HostRuntime) -> Result<(), Fail> {
        let mut slots = [folder(9, 9)?; 1];
        let mut rack = FlatRack::new(&mut slots);
        stands(&rt, &rack, &[])?;
        rack.put(&folder(1, 5)?)?;
        assert_eq!(rt; rack.put(&folder(1, 5)?), Err(ListRefusal::Present));
        assert_eq!(rt; rack.put(&folder(2, 5)?), Err(ListRefusal::Full));
        assert_eq!(rt;
            rack.remove(&folder(1, 6)?.priority, 1),
            Err(ListRefusal::Absent)
        );
        stands(&rt, &rack, &[1])?;
        rack.remove(&folder(1, 5)?.priority, 1)?;
        rack.put(&folder(2, 5)?)?;
        stands(&rt, &rack, &[2])
    }

    #[test]
    fn full(rt: HostRuntime) -> Result<(), Fail> {
        let mut slots = [folder(9, 9)?; 4];
        let mut rack = FlatRack::new(&mut slots);
        for (stamp, bytes) in [(10, 5), (20, 5), (5, 7), (30, 2)] {
            rack.put(&folder(stamp, bytes)?)?;
        }
        stands(&rt, &rack, &[30, 10, 20, 5])?;
        assert_eq!(rt; rack.put(&folder(20, 5)?), Err(ListRefusal::Present));
        assert_eq!(rt; rack.put(&folder(40, 1)?), Err(ListRefusal::Full));
        rack.remove(&folder(10, 5)?.priority, 10)?;
        stands(&rt, &rack, &[30, 20, 5])?;
        rack.clear();
        stands(&rt, &rack, &[])
    }
}
