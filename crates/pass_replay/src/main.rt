//! Reads snapshots as rows of numbers; prints the counts and needs of proposals, and each pass.
//! A line that begins with '#' names the row below it and is printed as it is.
//! A script makes the rows and the wanted output from a plain program.
#![tactic(auto)]

mod actions;
mod checked;
mod counts;
mod frozen;
mod numbers;
mod proposals;
mod rows;
mod shown;
mod starts;
mod stop;
mod tallied;

use rows::show_row;
use std::io;
use stop::Result;

fn main(rt: HostRuntime) -> Result<()> {
    let text = io::read_to_string(rt.alloc(), rt.stdin())?;
    for line in text.lines() {
        if line.starts_with('#') {
            println!(rt; "{line}")?;
        } else {
            show_row(&rt, rt.alloc(), line)?;
        }
    }
    Ok(())
}
