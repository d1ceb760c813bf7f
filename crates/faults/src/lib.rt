// What is looked at once a policy file is read to its end: both orders, and the can-modify rows.
#![tactic(auto)]

ghost use Rattle.std.specs.Prelude.{◌≡◌, ◌≤◌};
ghost use Rattle.sets.specs.Tests.{◌or◌};
ghost use Rattle.sets.specs.Sets.{any};
ghost use Rattle.ranges.specs.Ranking.{over, order_of};
ghost use Rattle.ranges.specs.Rows.{row_at, row_fails};
ghost use Rattle.policy.specs.Outcome.{accept, refuse, first};
ghost use Rattle.faults.specs.Faults.{number, number_of, not_strict, some_low, some_open, two_overlap, fault};

use order::Order;
use policy::{Orders, Ranges};
use ranges::{Look, Ranking};

// Why a policy file that is read to its end is refused, each with its number.
#[derive(Clone, Copy, PartialEq, Eq, Debug)]
pub enum Fault {
    // either order is not strict
    NotStrict = 23,
    // a can-modify low is not junior to its high
    LowNotJunior = 24,
    // a range is not encapsulated
    NotEncapsulated = 25,
    // two ranges overlap in part
    Overlap = 26,
}

impl Fault {
    pub fn number(self) -> u8
        ensures { result ≡ number self }
    {
        self as u8
    }
}

// An order is not strict.
fn not_strict(order: Order) -> bool
    ensures { result ≡ not_strict order }
{
    order.first_fault() < 64
}

// 23: either order is not strict.
fn some_not_strict(orders: Orders) -> bool
    ensures { result ≡ (not_strict orders.roles or not_strict orders.admins) }
{
    not_strict(orders.roles) || not_strict(orders.admins)
}

// Does some can-modify row fail the test that is looked for?
fn some_fails(ranking: Ranking, modify: Ranges, look: Look) -> bool
    requires { modify.count ≤ 64 }
    ensures { result ≡ any modify.count (λ i. row_fails look ranking.entry.used (over ranking.entry) (row_at modify.rows i)) }
{
    let rows = &modify.rows[..modify.count];
    ranking.first_failing(rows, look) < rows.len()
}

// 24: a can-modify low is not junior to its high.
fn some_low(ranking: Ranking, modify: Ranges) -> bool
    requires { modify.count ≤ 64 }
    ensures { result ≡ some_low (order_of ranking.entry) modify }
{
    some_fails(ranking, modify, Look::Low)
}

// 25: a range is not encapsulated.
fn some_open(ranking: Ranking, modify: Ranges) -> bool
    requires { modify.count ≤ 64 }
    ensures { result ≡ some_open (order_of ranking.entry) modify }
{
    some_fails(ranking, modify, Look::Open)
}

// 26: two ranges overlap in part.
fn two_overlap(ranking: Ranking, modify: Ranges) -> bool
    requires { modify.count ≤ 64 }
    ensures { result ≡ two_overlap (order_of ranking.entry) modify }
{
    let rows = &modify.rows[..modify.count];
    ranking.first_overlap(rows) < rows.len()
}

// The first of 24, 25 and 26: the seniors of every role are found once for the three.
fn ranges_fault(order: Order, modify: Ranges) -> Option<Fault>
    requires { modify.count ≤ 64 }
    ensures { number_of result ≡ first (refuse (some_low order modify) 24 (refuse (some_open order modify) 25 (refuse (two_overlap order modify) 26 accept))) }
{
    let seniors = order.all_seniors();
    let ranking = Ranking::of(&order, &seniors);
    if some_low(ranking, modify) {
        return Some(Fault::LowNotJunior);
    }
    if some_open(ranking, modify) {
        return Some(Fault::NotEncapsulated);
    }
    if two_overlap(ranking, modify) {
        return Some(Fault::Overlap);
    }
    None
}

// Why a file that is read to its end is refused, if it is.
pub fn find_fault(orders: Orders, modify: Ranges) -> Option<Fault>
    requires { modify.count ≤ 64 }
    ensures { number_of result ≡ fault orders modify }
{
    if some_not_strict(orders) {
        return Some(Fault::NotStrict);
    }
    ranges_fault(orders.roles, modify)
}
