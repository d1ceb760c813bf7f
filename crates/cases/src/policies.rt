// The policies that the cases start from.
ghost use Rattle.std.specs.Prelude.{◌≡◌, [], ◌∷◌, ◌≤◌, length};
ghost use Rattle.ranges.specs.Rows.{no_row};
ghost use Rattle.policy.specs.Build.{empty_row, empty_members, empty_tables};
ghost use Rattle.requests.specs.Examples.{padded, order_of, members_of, modify_row, department, F};

use crate::asking::ask;
use order::Order;
use policy::{
    Members, Orders, People, Policy, Ranges, Row, Table, Tables, empty_policy, empty_ranges,
    empty_table, with_permissions,
};
use ranges::{AdminId, ModifyRow, RoleId};

#[derive(Clone, Copy)]
pub enum Start {
    // document 01's department, F
    Department,
    // case 13's chain
    Chain,
    // the department after user 2 was put in PE1
    Joined,
    // all 64 roles, and the same after role 7 was deleted
    Full,
    Freed,
    // a chain of four with two ranges that would overlap, and one with a range that would lose its order
    Overlapping,
    Lowered,
    // a network of two lines
    Network,
    // the department with rows in all tables and with permissions
    Permissions,
}

// An order of the first numbers, each with the set of its juniors.
fn order_of(used: u64, firsts: &[u64]) -> Order
    requires { length firsts.now ≤ 64 }
    ensures { result ≡ order_of used firsts.now }
{
    let mut juniors = [0u64; 64];
    juniors[..firsts.len()].copy_from_slice(firsts);
    Order { used, juniors }
}

// Users or permissions, each with its explicit roles.
fn members_of(firsts: &[u64]) -> Members
    requires { length firsts.now ≤ 256 }
    ensures { result ≡ members_of firsts.now }
{
    let mut roles = [0u64; 256];
    roles[..firsts.len()].copy_from_slice(firsts);
    Members {
        count: firsts.len(),
        roles,
    }
}

// Users, each with its administrative set.
fn people_of(users: Members, firsts: &[u64]) -> People
    requires { length firsts.now ≤ 256 }
    ensures { result ≡ record { users = users; offices = padded 256 0 firsts.now } }
{
    let mut offices = [0u64; 256];
    offices[..firsts.len()].copy_from_slice(firsts);
    People { users, offices }
}

// A table of one row, of administrative role 2.
fn one_row(low: u8, high: u8, brackets: u8, needed: u64, barred: u64) -> Table
    ensures { result ≡ record { count = 1; rows = padded 64 empty_row (record { admin = record { 0 = 2 }; low = record { 0 = low }; high = record { 0 = high }; brackets = brackets; needed = needed; barred = barred } ∷ []) } }
{
    let mut table = empty_table();
    table.count = 1;
    table.rows[0] = Row {
        admin: AdminId(2),
        low: RoleId(low),
        high: RoleId(high),
        brackets,
        needed,
        barred,
    };
    table
}

fn modify_row(admin: u8, low: u8, high: u8) -> ModifyRow
    ensures { result ≡ modify_row admin low high }
{
    ModifyRow {
        admin: AdminId(admin),
        low: RoleId(low),
        high: RoleId(high),
    }
}

// At most three can-modify rows; a caller hands rows of zeros past the count.
fn ranges_of(count: usize, a: ModifyRow, b: ModifyRow, c: ModifyRow) -> Ranges
    ensures { result ≡ record { count = count; rows = padded 64 no_row (a ∷ b ∷ c ∷ []) } }
{
    let mut modify = empty_ranges();
    modify.count = count;
    modify.rows[0] = a;
    modify.rows[1] = b;
    modify.rows[2] = c;
    modify
}

// A policy with no other tables and no permissions.
fn policy_from(orders: Orders, people: People, modify: Ranges) -> Policy
    ensures { result ≡ record { orders = orders; people = people; permissions = empty_members; tables = empty_tables; modify = modify } }
{
    Policy {
        orders,
        people,
        modify,
        ..empty_policy()
    }
}

// Document 01's department: roles and SSO > DSO > PSO1.
fn department_orders() -> Orders
    ensures { result ≡ record { roles = department; admins = order_of 7 (6 ∷ 4 ∷ 0 ∷ []) } }
{
    let roles = order_of(2047, &[0, 1, 3, 7, 7, 31, 3, 67, 67, 451, 1023]);
    let admins = order_of(7, &[6, 4, 0]);
    Orders { roles, admins }
}

// PSO1 (E1, PL1), PSO1 (E2, PL2), DSO (ED, DIR).
fn department_ranges() -> Ranges
    ensures { result ≡ record { count = 3; rows = padded 64 no_row (modify_row 2 2 5 ∷ modify_row 2 6 9 ∷ modify_row 1 1 10 ∷ []) } }
{
    ranges_of(
        3,
        modify_row(2, 2, 5),
        modify_row(2, 6, 9),
        modify_row(1, 1, 10),
    )
}

// Document 01's policy F.
fn department_policy() -> Policy
    ensures { result ≡ F }
{
    let users = members_of(&[0, 0, 2]);
    let people = people_of(users, &[4, 2, 0]);
    let mut p = policy_from(department_orders(), people, department_ranges());
    p.tables.assign = one_row(2, 5, 1, 2, 0);
    p
}

// The department's users and three more: u3 in PE1, u4 in PE1 and PL2, u5 in E1 and PE1.
fn member_people() -> People {
    let users = members_of(&[0, 0, 2, 8, 520, 12]);
    people_of(users, &[4, 2, 0, 0, 0, 0])
}

// Users: [E1, PL1), needed ED, barred QE2. Permissions: (E1, PL1], needed QE1, barred QE2, and revoked in [E1, PL1].
fn member_tables() -> Tables {
    Tables {
        assign: one_row(2, 5, 1, 2, 256),
        revoke: one_row(2, 5, 1, 0, 0),
        assignp: one_row(2, 5, 2, 16, 256),
        revokep: one_row(2, 5, 3, 0, 0),
    }
}

// The department with rows in all tables and with permissions: p0 in QE1, p1 in PE2, p2 in PL1, p3 in QE1 and QE2, p4 in QE1 and PL2.
fn member_policy() -> Policy {
    let p = Policy {
        tables: member_tables(),
        ..policy_from(department_orders(), member_people(), department_ranges())
    };
    with_permissions(p, members_of(&[16, 128, 32, 272, 528]))
}

// One administrative role, 0, held by the one user.
fn one_officer(roles: Order) -> Orders {
    let admins = order_of(1, &[0]);
    Orders { roles, admins }
}

// A network: line 4 has the roles 1 to 3, line 7 has 4 to 6, and both lie between 0 and 7, the department's head. The department's
// officer is senior to the lines'.
fn network_orders() -> Orders {
    let roles = order_of(255, &[0, 1, 3, 7, 1, 17, 49, 127]);
    let admins = order_of(7, &[6, 0, 0]);
    Orders { roles, admins }
}

// The ranges of the department, of line 4 and of line 7.
fn network_ranges() -> Ranges {
    ranges_of(
        3,
        modify_row(0, 0, 7),
        modify_row(1, 1, 3),
        modify_row(2, 4, 6),
    )
}

fn network_policy() -> Policy {
    let users = members_of(&[0, 0, 0]);
    let people = people_of(users, &[1, 2, 4]);
    policy_from(network_orders(), people, network_ranges())
}

// All 64 roles: 0 below, 63 on top, the others side by side between them.
fn full_order() -> Order {
    let mut juniors = [1u64; 64];
    juniors[0] = 0;
    juniors[63] = 9223372036854775807;
    Order {
        used: 18446744073709551615,
        juniors,
    }
}

// One officer with at most two ranges, and no other table.
fn officer_policy(roles: Order, count: usize, first: ModifyRow, second: ModifyRow) -> Policy {
    let users = members_of(&[0]);
    let people = people_of(users, &[1]);
    let modify = ranges_of(count, first, second, modify_row(0, 0, 0));
    policy_from(one_officer(roles), people, modify)
}

fn full_policy() -> Policy {
    officer_policy(full_order(), 1, modify_row(0, 0, 63), modify_row(0, 0, 0))
}

// Case 13's chain.
fn chain_policy() -> Policy {
    let roles = order_of(31, &[0, 1, 3, 7, 15]);
    officer_policy(roles, 2, modify_row(0, 0, 2), modify_row(0, 1, 4))
}

// A chain of four roles with two ranges.
fn chain_of_four(first: ModifyRow, second: ModifyRow) -> Policy {
    let roles = order_of(15, &[0, 1, 3, 7]);
    officer_policy(roles, 2, first, second)
}

// A policy after a request of user 0, which is accepted.
fn policy_after(before: Policy, kind: u64, a: u64, b: u64) -> Policy {
    match ask(before, 0, kind, a, b) {
        Ok(done) => done.policy,
        Err(_) => before,
    }
}

// Two of them come by asking, so that no table here repeats an effect.
pub fn policy_of(start: Start) -> Policy
    ensures { start ≡ Start.Department → result ≡ F }
{
    match start {
        Start::Department => department_policy(),
        Start::Chain => chain_policy(),
        Start::Joined => policy_after(department_policy(), 1, 2, 3),
        Start::Full => full_policy(),
        Start::Freed => policy_after(full_policy(), 6, 7, 0),
        Start::Overlapping => chain_of_four(modify_row(0, 0, 2), modify_row(0, 1, 3)),
        Start::Lowered => chain_of_four(modify_row(0, 0, 3), modify_row(0, 1, 2)),
        Start::Network => network_policy(),
        Start::Permissions => member_policy(),
    }
}
