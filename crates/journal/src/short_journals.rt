// The short journals, as facts of the replay.
ghost use Rattle.journal.specs.ShortJournals.{ShortJournals};

// What the replay leaves of each short journal, before and after its correction.
pub fn short_journals_hold()
    ensures { ShortJournals }
{}
