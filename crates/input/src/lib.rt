// Reads from an input into a buffer, for the programs.
#![tactic(auto)]

ghost use Rattle.io.specs.Counts.{IsPrefixLen};

use std::io::Read;

// Reads until the buffer is full, the input ends or a read fails, and gives how many bytes it put at the buffer's start.
pub fn read_full(input: &mut (impl Read + Drop), s: &mut [u8]) -> usize
    ensures { IsPrefixLen result s.new }
{
    let mut n = 0;
    while n < s.len() {
        match input.read(&mut s[n..]) {
            Ok(0) => return n,
            Ok(more) => n += more,
            Err(_) => return n,
        }
    }
    n
}
