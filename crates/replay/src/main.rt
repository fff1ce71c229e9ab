// The program: reads a week's slips and prints what stands on the rack now, and what goes into each unattended run.

#![tactic(auto)]

mod input;
mod report;

use input::read_slips;
use report::report;
use std::io::Read;

fn main(rt: HostRuntime) -> anyhow::Result<()> {
    let mut text = Vec::new(rt.alloc());
    rt.stdin().read_to_end(&mut text)?;
    let slips = read_slips(&rt, &text)?;
    report(&rt, &slips)
}
