// Runs document 01's cases 1 to 14 and ours, and prints a line each: case, outcome, number beside it, what changed.
#![tactic(auto)]

mod asking;
mod policies;
mod show;

use asking::ask;
use policies::{Start, policy_of};
use requests::may_give;
use sets::with;
use show::{show_answer, show_change, show_end, show_reached};
use std::io;

// A request of a policy. Its kind is a number, since some cases ask for a kind that there is not.
#[derive(Clone, Copy)]
struct Case {
    label: u64,
    start: Start,
    officer: u64,
    kind: u64,
    a: u64,
    b: u64,
}

// Label, start, officer, kind, a, b. Labels to 14 are document 01's. 15: 9 by overlap alone. 16: 9 since a low is no longer junior.
// 17: the department's officer on line 4, then on line 7, and line 7's officer on line 4. 18: kind 5 goes by the two comparisons as printed.
// From 100 on a label is 100 times the kind and the number that the case is to reach, with 9 for an unknown kind.
const CASES: [(u64, Start, u64, u64, u64, u64); 68] = [
    (1, Start::Department, 0, 7, 4, 3),
    (2, Start::Department, 1, 7, 4, 7),
    (3, Start::Department, 0, 7, 4, 7),
    (4, Start::Department, 1, 7, 4, 2),
    (5, Start::Department, 0, 8, 4, 2),
    (6, Start::Department, 1, 8, 4, 2),
    (7, Start::Department, 1, 8, 5, 2),
    (8, Start::Department, 0, 5, 5, 3),
    (9, Start::Department, 1, 5, 10, 3),
    (10, Start::Department, 1, 6, 2, 0),
    (10, Start::Department, 0, 6, 3, 0),
    (11, Start::Department, 0, 1, 2, 3),
    (11, Start::Department, 0, 1, 2, 5),
    (11, Start::Department, 0, 1, 1, 3),
    (12, Start::Joined, 0, 6, 3, 0),
    (13, Start::Chain, 0, 5, 3, 1),
    (14, Start::Full, 0, 5, 63, 1),
    (14, Start::Full, 0, 6, 7, 0),
    (14, Start::Freed, 0, 5, 63, 1),
    (15, Start::Overlapping, 0, 5, 2, 1),
    (16, Start::Lowered, 0, 8, 2, 1),
    (17, Start::Network, 0, 5, 7, 2),
    (17, Start::Network, 0, 5, 6, 5),
    (17, Start::Network, 2, 5, 7, 2),
    (18, Start::Department, 0, 5, 9, 10),
    (100, Start::Permissions, 0, 1, 3, 4),
    (100, Start::Department, 1, 1, 2, 2),
    (102, Start::Permissions, 0, 1, 6, 3),
    (102, Start::Permissions, 6, 1, 2, 3),
    (102, Start::Permissions, 0, 1, 2, 64),
    (103, Start::Permissions, 2, 1, 2, 3),
    (104, Start::Permissions, 0, 1, 1, 3),
    (104, Start::Permissions, 0, 1, 4, 3),
    (105, Start::Permissions, 0, 1, 3, 3),
    (200, Start::Permissions, 0, 2, 5, 2),
    (202, Start::Permissions, 0, 2, 2, 11),
    (203, Start::Permissions, 0, 2, 3, 5),
    (205, Start::Permissions, 0, 2, 3, 2),
    (300, Start::Permissions, 0, 3, 0, 5),
    (300, Start::Permissions, 0, 3, 4, 3),
    (302, Start::Permissions, 0, 3, 5, 3),
    (303, Start::Permissions, 0, 3, 0, 2),
    (304, Start::Permissions, 0, 3, 2, 3),
    (304, Start::Permissions, 0, 3, 3, 3),
    (305, Start::Permissions, 0, 3, 0, 4),
    (400, Start::Permissions, 0, 4, 2, 5),
    (402, Start::Permissions, 0, 4, 18446744073709551615, 3),
    (403, Start::Permissions, 0, 4, 1, 7),
    (405, Start::Permissions, 0, 4, 0, 3),
    (502, Start::Department, 3, 5, 5, 3),
    (502, Start::Department, 0, 5, 18446744073709551615, 3),
    (503, Start::Department, 2, 5, 5, 3),
    (601, Start::Department, 9, 6, 64, 1),
    (602, Start::Department, 0, 6, 11, 0),
    (603, Start::Department, 2, 6, 3, 0),
    (607, Start::Permissions, 0, 6, 4, 0),
    (607, Start::Permissions, 0, 6, 8, 0),
    (608, Start::Permissions, 1, 6, 7, 0),
    (702, Start::Department, 0, 7, 4, 11),
    (703, Start::Chain, 0, 7, 1, 3),
    (705, Start::Department, 0, 7, 4, 4),
    (705, Start::Department, 1, 7, 2, 4),
    (802, Start::Department, 0, 8, 11, 2),
    (803, Start::Department, 2, 8, 5, 4),
    (805, Start::Department, 1, 8, 3, 4),
    (901, Start::Department, 0, 0, 0, 0),
    (901, Start::Department, 0, 9, 0, 0),
    (901, Start::Department, 9, 18446744073709551615, 64, 64),
];

// Prints the line of a case and hands its outcome on.
fn run(rt: &impl Print, case: Case) -> io::Result<u64> {
    let before = policy_of(case.start);
    let (outcome, number, after) = match ask(before, case.officer, case.kind, case.a, case.b) {
        Ok(done) => (0, done.number, done.policy),
        Err(refusal) => (refusal.number(), 0, before),
    };
    show_answer(rt, case.label, outcome, number)?;
    show_change(rt, &before, &after)?;
    show_end(rt, may_give(case.kind, outcome))?;
    Ok(outcome)
}

// Keeps by kind the numbers reached; kind 0 stands for every unknown one.
fn note(reached: &mut [u64; 9], kind: u64, outcome: u64) {
    let row = if kind < 9 { kind as usize } else { 0 };
    if outcome < 64 {
        reached[row] = with(reached[row], outcome as usize);
    }
}

fn main(rt: HostRuntime) -> io::Result<()> {
    let mut reached = [0u64; 9];
    for row in &CASES {
        let (label, start, officer, kind, a, b) = *row;
        let case = Case {
            label,
            start,
            officer,
            kind,
            a,
            b,
        };
        let outcome = run(&rt, case)?;
        note(&mut reached, kind, outcome);
    }
    show_reached(&rt, &reached)
}
