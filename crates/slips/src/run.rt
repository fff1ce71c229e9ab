// The plan of an unattended run.
ghost use Rattle.slips.specs.Plan.{LongestFront};

use journal::folder::Folder;
use orders::weight::Weight;

// How many folders from the front go into a run, and their decoded bytes.
#[derive(Clone, Copy)]
pub struct Run {
    pub count: usize,
    pub bytes: u64,
}

// The longest front whose decoded bytes sum to at most the cap. The loop counts since the count is part of the reply.
pub fn plan(folders: &[Folder<Weight>], cap: u64) -> Run
    ensures { LongestFront folders.now cap result.count result.bytes }
{
    let mut run = Run { count: 0, bytes: 0 };
    for folder in folders {
        let bytes = folder.priority.bytes();
        if bytes > cap - run.bytes {
            return run;
        }
        run.bytes += bytes;
        run.count += 1;
    }
    run
}
