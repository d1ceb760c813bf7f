// Runs the vectors that the independent program of tests/ made, and prints how many agree for each outcome, and how many differ.
#![tactic(auto)]

ghost use Rattle.io.specs.Counts.{IsPrefixLen};

mod agree;
mod records;
mod show;
mod tally;

use input::read_full;
use records::Records;
use show::{show_counts, show_differences};
use std::rt::Files;
use std::{fs, io};
use tally::Tally;

// Counts each record in turn. One that is cut short differs, and nothing follows it.
fn run_all(records: Records, s: &[u8], tally: &mut Tally) {
    let mut rest = s;
    while !rest.is_empty() {
        let Some(ran) = records.run(rest) else {
            tally.note(None);
            return;
        };
        tally.note(ran.agreed);
        rest = ran.rest;
    }
}

// A file that cannot be opened has no vectors, and the counts say so.
fn read_named(rt: &impl Files, name: &str, s: &mut [u8]) -> usize
    ensures { IsPrefixLen result s.new }
{
    match fs::open(rt, name) {
        Ok(mut file) => read_full(&mut file, s),
        Err(_) => 0,
    }
}

// The maker holds each file to at most 150,000 bytes.
fn run_file(rt: &impl Files, records: Records, tally: &mut Tally) {
    let mut s = [0u8; 150000];
    let n = read_named(rt, records.file_name(), &mut s);
    run_all(records, &s[..n], tally);
}

fn main(rt: HostRuntime) -> io::Result<()> {
    let mut tally = Tally::new();
    for records in [
        Records::Files,
        Records::Requests,
        Records::Listings,
        Records::Tables,
    ] {
        run_file(&rt, records, &mut tally);
    }
    show_counts(&rt, &tally)?;
    show_differences(&rt, &tally)
}
