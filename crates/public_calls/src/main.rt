// Runs every public call of crate `moorsickle`, the calls that take a lent record among them, and prints a line for
// each answer: document 01's page of 72 bytes, layout B in four pages with pages refused and sent again, the examples a
// to m, and what each call answers to a broken collector, a broken layout, or a layout with pages outstanding.
//
// Each function that makes a call prints the rest of a line, whose begin its caller printed.
#![tactic(auto)]

mod broken;
mod growing;
mod mapped;
mod pages;
mod reading;
mod writing;

use std::io;

// Ends the line, with whether what was lent, other than what was printed, is as it was before the call.
fn end_line(rt: &impl Print, stays: bool) -> io::Result<()> {
    let what = if stays { "nothing" } else { "something" };
    println!(rt; ", {what} else changed")
}

fn main(rt: HostRuntime) -> io::Result<()> {
    if let Some(one) = reading::one_page(&rt)? {
        writing::one_page(&rt, one)?;
        mapped::one_page(&rt, one)?;
    }
    let four = reading::four_pages(&rt)?;
    reading::broken_collectors(&rt)?;
    mapped::examples(&rt)?;
    if let Some(b) = four {
        growing::examples(&rt, b)?;
        growing::refusals(&rt, b)?;
        broken::layouts(&rt, b)?;
    }
    Ok(())
}
