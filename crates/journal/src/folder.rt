// Folders.
ghost use Rattle.std.specs.Prelude.{◌≡◌};
ghost use Rattle.journal.specs.Folders.{ahead};
ghost use Rattle.journal.specs.Racks.{same_key};

use orders::priority::Priority;

// A folder on the rack, by its arrival's stamp, priority and folder number.
#[derive(Clone, Copy, Debug)]
pub struct Folder<P> {
    pub stamp: u32,
    pub priority: P,
    pub number: u32,
}

impl<P: Priority> Folder<P> {
    pub fn is_ahead_of(&self, other: &Folder<P>) -> bool
        ensures { result ≡ ahead P.Priority.not_behind self.now other.now }
    {
        !other.priority.not_behind(&self.priority)
            || (self.priority.not_behind(&other.priority) && self.stamp < other.stamp)
    }

    // Whether this is the folder of a priority and stamp, side by side as for `Rack::remove`: its priority ties, its stamp is the
    // same.
    pub fn has_key(&self, priority: &P, stamp: u32) -> bool
        ensures { result ≡ same_key P.Priority.not_behind priority.now stamp self.now }
    {
        priority.not_behind(&self.priority)
            && self.priority.not_behind(priority)
            && stamp == self.stamp
    }
}
