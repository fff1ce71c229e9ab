// The theory of the rack book: who moves at a correction, and why the bridges find it.
// Each function but `hinder_of` has a theorem for its contract and computes nothing. The theorems on `P` hold of every lawful order.

#![tactic(auto)]

ghost use Rattle.std.specs.Prelude.{◌≡◌, Some};
ghost use Rattle.bridges.specs.ByRows.{AnswersByRows};
ghost use Rattle.bridges.specs.Counting.{Counting};
ghost use Rattle.bridges.specs.Folders.{FoldersOrdered};
ghost use Rattle.bridges.specs.Keeping.{Keeps};
ghost use Rattle.bridges.specs.Law.{LawOfCalls};
ghost use Rattle.bridges.specs.Lines.{LineFollows};
ghost use Rattle.bridges.specs.Marks.{MarksKept};
ghost use Rattle.bridges.specs.Movers.{MoversLaw, RackFollows};
ghost use Rattle.bridges.specs.Places.{PlacesTold};
ghost use Rattle.bridges.specs.Racks.{OneFolderMore};
ghost use Rattle.bridges.specs.Rules.{hinder, BridgesFindMovers};
ghost use Rattle.bridges.specs.ShortCuts.{ShortCutsMiss};
ghost use Rattle.bridges.specs.Soundness.{SoundnessByStock};

use journal::folder::Folder;
use orders::priority::Priority;

// The hindmost of two folders.
pub fn hinder_of<P: Priority>(folder: &Folder<P>, other: &Folder<P>) -> Folder<P>
    ensures { result ≡ hinder P.Priority.not_behind folder.now (Some other.now) }
{
    if folder.is_ahead_of(other) {
        *other
    } else {
        *folder
    }
}

// Folders of different stamps stand in a strict total order; the front of every rack is its foremost folder.
pub fn folders_ordered<P: Priority>()
    ensures { FoldersOrdered P.Priority.not_behind }
{}

// One folder more on a rack at the beginning is one folder more at the end.
pub fn one_folder_more<P: Priority>()
    ensures { OneFolderMore P.Priority.not_behind }
{}

// An arrival moves the hindmost of its folder and those fetched after it, a taking the hindmost fetched from it on.
pub fn hindmost_moves<P: Priority>()
    ensures { MoversLaw P.Priority.not_behind }
{}

// A rack with the waiting list before a correction comes to the one after it by putting or removing the mover.
pub fn rack_follows<P: Priority>()
    ensures { RackFollows P.Priority.not_behind }
{}

// The stock is the number of folders on the rack, the balance the number of those that will still be fetched.
pub fn sums_count_folders<P: Priority>()
    ensures { Counting P.Priority.not_behind }
{}

// Whether a corrected journal is sound, and which taking is the first to find no folder, is read off the first low stock.
pub fn stock_decides_soundness<P: Priority>()
    ensures { SoundnessByStock P.Priority.not_behind }
{}

// The five bridge rules, on marked rows, find the mover that the replay defines.
pub fn bridges_find_movers<P: Priority>()
    ensures { BridgesFindMovers P.Priority.not_behind }
{}

// After a rule's change of rows the marks agree with the replay of the corrected journal.
pub fn marks_stay_right<P: Priority>()
    ensures { MarksKept P.Priority.not_behind }
{}

// A date line's own rules accept each part of a rule's change of rows.
pub fn line_follows<P: Priority>()
    ensures { LineFollows P }
{}

// Over any list of calls, by the defined replies: only an accepted correction changes the waiting list, by the one folder
// that its reply names; equal books reply alike; each folder joined as often as it left, and once more if it waits now.
pub fn law_of_calls<P: Priority>()
    ensures { LawOfCalls P.Priority.not_behind P.Priority.canonical }
{}

// Every call keeps the entries within their bounds and the journal within the capacity, so a rack has room for whoever joins.
pub fn calls_keep<P: Priority>()
    ensures { Keeps P.Priority.not_behind P.Priority.canonical }
{}

// What the places found on rows stand for, and that waiting at k is the folder with exactly k waiting folders ahead of it.
pub fn places_tell<P: Priority>()
    ensures { PlacesTold P.Priority.not_behind }
{}

// By rows and the waiting list alone each call is replied to as defined, and the rows then carry the later journal.
pub fn rows_suffice<P: Priority>()
    ensures { AnswersByRows P.Priority.not_behind P.Priority.canonical }
{}

// Three short cuts that earlier books took name the wrong folder or miss a refusal.
pub fn short_cuts_miss()
    ensures { ShortCutsMiss }
{}
