// The program: fills and empties trees in several orders, and prints how deep they lie and how often they were rebuilt.

#![tactic(auto)]

mod elements;
mod orders;
mod trial;

use elements::{Letter, Number};
use orders::{FILLINGS, THINNINGS};
use trial::trial;

fn main(rt: HostRuntime) -> anyhow::Result<()> {
    println!(rt; "numbers")?;
    for filling in FILLINGS {
        for thinning in THINNINGS {
            trial(&rt, filling, thinning, Number::new)?;
        }
    }
    println!(rt; "letters")?;
    for (filling, thinning) in FILLINGS.into_iter().zip(THINNINGS) {
        trial(&rt, filling, thinning, Letter::new)?;
    }
    Ok(())
}
