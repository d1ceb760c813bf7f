// What the program prints.
use crate::tally::{ROWS, Tally};
use std::io;

// How many vectors of each row agree on each outcome.
pub fn show_counts(rt: &impl Print, tally: &Tally) -> io::Result<()> {
    for (row, counts) in ROWS.iter().zip(&tally.counts) {
        for (outcome, count) in counts.iter().enumerate() {
            if 0 < count.vectors {
                println!(rt; "{row} {outcome}: {count}")?;
            }
        }
    }
    Ok(())
}

pub fn show_differences(rt: &impl Print, tally: &Tally) -> io::Result<()> {
    println!(rt; "differences: {}", tally.differences)
}
