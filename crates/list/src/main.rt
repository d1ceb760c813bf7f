// The listing program: reads a policy on standard input and writes for each user in turn one line an entry. A refused file writes nothing.
#![tactic(auto)]

ghost use Rattle.policy.specs.Good.{Good};

mod lines;

use input::read_full;
use lines::Line;
use listing::list;
use policy::{Policy, empty_policy};
use reading::read_policy;
use std::io;
use std::io::{Read, Write};

// A line for each three bytes.
fn show_entries(rt: &impl Print, user: u8, entries: &[u8]) -> io::Result<()> {
    let (entries, _) = entries.as_chunks::<3>();
    for &[kind, a, b] in entries {
        rt.print(Line { user, kind, a, b })?;
    }
    Ok(())
}

// The buffer is document 01's 37,056 bytes, which are always enough.
fn show_user(rt: &impl Print, p: &Policy, user: u8) -> io::Result<()>
    requires { Good p.now }
{
    let mut out = [0u8; 37056];
    match list(p, user as u64, &mut out) {
        Ok(n) => show_entries(rt, user, &out[..3 * n]),
        Err(_) => Ok(()),
    }
}

fn show_users(rt: &impl Print, p: &Policy) -> io::Result<()>
    requires { Good p.now }
{
    for user in 0..p.people.users.count {
        show_user(rt, p, user as u8)?;
    }
    Ok(())
}

fn show_file(rt: &impl Print, file: &[u8]) -> io::Result<()> {
    let mut policy = empty_policy();
    match read_policy(file, &mut policy) {
        Ok(()) => show_users(rt, &policy),
        Err(_) => Ok(()),
    }
}

// Is there more? A read that fails ends the input.
fn skip_some(input: &mut (impl Read + Drop)) -> bool {
    let mut bytes = [0u8; 4096];
    match input.read(&mut bytes) {
        Ok(n) => 0 < n,
        Err(_) => false,
    }
}

// A proved loop has to end, and nothing says that an input does: so it counts its turns, up to a number that no run reaches.
fn skip_rest(input: &mut (impl Read + Drop)) {
    for _ in 0..u64::MAX {
        if !skip_some(input) {
            return;
        }
    }
}

// No policy has more than 10,375 bytes: of a longer input the first 10,376 are refused, whatever follows them.
fn main(rt: HostRuntime) -> io::Result<()> {
    let mut file = [0u8; 10376];
    let mut input = rt.reader();
    let n = read_full(&mut input, &mut file);
    skip_rest(&mut input);
    show_file(&rt, &file[..n])
}
