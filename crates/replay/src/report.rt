// The report: what the slips leave on the rack, and the runs.
use crate::input::Slips;
use journal::folder::Folder;
use journal::rack::Rack;
use orders::weight::Weight;
use racks::flat::FlatRack;
use slips::replay::replay_into;
use slips::run::plan;
use std::alloc::{AllocError, Global};

// Slots for a rack, of any folder.
fn slots(heap: Global, count: usize) -> anyhow::Result<Vec<Folder<Weight>>> {
    let unused = Folder {
        stamp: 0,
        priority: Weight::new(0)?,
        number: 0,
    };
    Ok(vec![in heap; unused; count]?)
}

// The folders of a rack, foremost first.
fn folders_of<R: Rack<Weight>>(heap: Global, rack: &R) -> Result<Vec<Folder<Weight>>, AllocError> {
    (0..rack.count())
        .filter_map(|place| rack.at(place))
        .collect(heap)
}

fn print_folders(rt: &HostRuntime, folders: &[Folder<Weight>]) -> anyhow::Result<()> {
    for folder in folders {
        println!(rt;
            "  {} {} {}",
            folder.stamp,
            folder.priority.bytes(),
            folder.number
        )?;
    }
    Ok(())
}

fn print_run(rt: &HostRuntime, folders: &[Folder<Weight>], cap: u64) -> anyhow::Result<()> {
    let run = plan(folders, cap);
    println!(rt; "run {} {}", run.count, run.bytes)?;
    print_folders(rt, &folders[..run.count])
}

// Prints the waiting list and each run, or why there is no waiting list.
pub(crate) fn report(rt: &HostRuntime, slips: &Slips) -> anyhow::Result<()> {
    let heap = rt.alloc();
    let mut slots = slots(heap, slips.list.entries().len())?;
    let mut rack = FlatRack::new(&mut slots);
    if let Err(why) = replay_into(&slips.list, &mut rack) {
        println!(rt; "{why}")?;
        return Ok(());
    }
    let folders = folders_of(heap, &rack)?;
    println!(rt; "waiting {}", folders.len())?;
    print_folders(rt, &folders)?;
    for cap in &slips.caps {
        print_run(rt, &folders, *cap)?;
    }
    Ok(())
}
