// What the program prints: a line for each case, and which numbers no case reached.
use order::Order;
use policy::{Members, Policy};
use requests::table_row;
use sets::{has, minus};
use std::{fmt, io};

// Whose set of roles it is.
#[derive(Clone, Copy)]
enum Whose {
    // the roles in use
    Used,
    // the juniors of a role
    Senior(usize),
    // the explicit roles of a user ('u') or a permission ('p')
    Member(char, usize),
}

impl fmt::Display for Whose {
    fn fmt<W: fmt::Write>(&self, f: &mut fmt::Formatter<W>) -> fmt::Result {
        match self {
            Whose::Used => write!(f, "r"),
            Whose::Senior(a) => write!(f, "{a}>"),
            Whose::Member(letter, a) => write!(f, "{letter}{a}:"),
        }
    }
}

// A word for each role that left the set or joined it.
fn show_set(rt: &impl Print, whose: Whose, before: u64, after: u64) -> io::Result<()> {
    let gone = minus(before, after);
    let new = minus(after, before);
    for role in 0..64 {
        if has(gone, role) {
            print!(rt; " -{whose}{role}")?;
        }
        if has(new, role) {
            print!(rt; " +{whose}{role}")?;
        }
    }
    Ok(())
}

fn show_order(rt: &impl Print, before: &Order, after: &Order) -> io::Result<()> {
    show_set(rt, Whose::Used, before.used, after.used)?;
    for a in 0..64 {
        show_set(rt, Whose::Senior(a), before.juniors[a], after.juniors[a])?;
    }
    Ok(())
}

fn show_members(
    rt: &impl Print,
    letter: char,
    before: &Members,
    after: &Members,
) -> io::Result<()> {
    for a in 0..256 {
        show_set(
            rt,
            Whose::Member(letter, a),
            before.roles[a],
            after.roles[a],
        )?;
    }
    Ok(())
}

// No request changes anything else of a policy.
pub fn show_change(rt: &impl Print, before: &Policy, after: &Policy) -> io::Result<()> {
    show_order(rt, &before.orders.roles, &after.orders.roles)?;
    show_members(rt, 'u', &before.people.users, &after.people.users)?;
    show_members(rt, 'p', &before.permissions, &after.permissions)
}

pub fn show_answer(rt: &impl Print, label: u64, outcome: u64, number: u64) -> io::Result<()> {
    print!(rt; "{label} {outcome} {number}")
}

pub fn show_end(rt: &impl Print, allowed: bool) -> io::Result<()> {
    if !allowed {
        print!(rt; " NOT ALLOWED")?;
    }
    println!(rt)
}

// The numbers that a kind may give and that no case reached.
fn show_missing(rt: &impl Print, kind: usize, missing: u64) -> io::Result<()> {
    print!(rt; "kind {kind} did not reach")?;
    for number in 0..64 {
        if has(missing, number) {
            print!(rt; " {number}")?;
        }
    }
    println!(rt)
}

// Kind 0 stands for every unknown one.
pub fn show_reached(rt: &impl Print, reached: &[u64; 9]) -> io::Result<()> {
    let mut every = true;
    for (kind, numbers) in reached.iter().enumerate() {
        let missing = minus(table_row(kind as u64), *numbers);
        if missing != 0 {
            show_missing(rt, kind, missing)?;
            every = false;
        }
    }
    if every {
        println!(rt; "every number of every kind reached")?;
    }
    Ok(())
}
