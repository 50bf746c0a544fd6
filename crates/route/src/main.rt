// Reads a layout from standard input and says whether it is a floor.
#![tactic(auto)]

mod answer;
mod input;

use answer::answer;
use input::{MOST, read_at_most};

fn main(rt: HostRuntime) -> anyhow::Result<()> {
    let layout = read_at_most(&mut rt.stdin(), rt.alloc(), MOST + 1)?;
    println!(rt; "{}", answer(layout))?;
    Ok(())
}
