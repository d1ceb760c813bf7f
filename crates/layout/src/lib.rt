// How many bytes a policy's file has, part by part.
#![tactic(auto)]

ghost use Rattle.std.specs.Prelude.{◌≡◌, ◌<◌, ◌≤◌, length};
ghost use Rattle.policy.specs.Good.{Sizes};
ghost use Rattle.layout.specs.Layout.{juniors_bytes, order_bytes, user_bytes, users_bytes, permissions_bytes, ends_bytes, row_bytes, rows_bytes, ranges_bytes, tables_bytes, policy_bytes, TableSizes};

use number::number_len;
use order::Order;
use policy::{Members, People, Policy, Ranges, Row, Table, Tables};
use ranges::{AdminId, RoleId};
use sets::has;

// The set of strict juniors of role a, which the file has where a is in use.
fn juniors_length(used: u64, a: usize, juniors: u64) -> usize
    requires { a < 64 }
    ensures { result ≡ length (juniors_bytes used a juniors) }
{
    if has(used, a) { number_len(juniors) } else { 0 }
}

fn order_length(o: Order) -> usize
    ensures { result ≡ length (order_bytes o) }
{
    let mut n = number_len(o.used);
    for a in 0..64 {
        n += juniors_length(o.used, a, o.juniors[a]);
    }
    n
}

#[tactic(auto, using(crate::proofs::Lengths::lengths))]
fn user_length(roles: u64, office: u64) -> usize
    ensures { result ≡ length (user_bytes roles office) }
{
    number_len(roles) + number_len(office)
}

fn users_length(p: People) -> usize
    requires { p.users.count ≤ 256 }
    ensures { result ≡ length (users_bytes p) }
{
    let mut n = number_len(p.users.count as u64);
    for i in 0..p.users.count {
        n += user_length(p.users.roles[i], p.offices[i]);
    }
    n
}

fn permissions_length(m: Members) -> usize
    requires { m.count ≤ 256 }
    ensures { result ≡ length (permissions_bytes m) }
{
    let mut n = number_len(m.count as u64);
    for roles in &m.roles[..m.count] {
        n += number_len(*roles);
    }
    n
}

#[tactic(auto, using(crate::proofs::Lengths::lengths))]
fn ends_length(admin: AdminId, low: RoleId, high: RoleId) -> usize
    ensures { result ≡ length (ends_bytes admin low high) }
{
    number_len(admin.0 as u64) + number_len(low.0 as u64) + number_len(high.0 as u64)
}

// A row of a can-assign table, which has two sets, or of a can-revoke table.
#[tactic(auto, using(crate::proofs::Lengths::lengths))]
fn row_length(assign: bool, row: Row) -> usize
    ensures { result ≡ length (row_bytes assign row) }
{
    let n = ends_length(row.admin, row.low, row.high) + number_len(row.brackets as u64);
    if assign {
        n + number_len(row.needed) + number_len(row.barred)
    } else {
        n
    }
}

fn rows_length(assign: bool, t: Table) -> usize
    requires { t.count ≤ 64 }
    ensures { result ≡ length (rows_bytes assign t) }
{
    let mut n = number_len(t.count as u64);
    for row in &t.rows[..t.count] {
        n += row_length(assign, *row);
    }
    n
}

fn ranges_length(m: Ranges) -> usize
    requires { m.count ≤ 64 }
    ensures { result ≡ length (ranges_bytes m) }
{
    let mut n = number_len(m.count as u64);
    for row in &m.rows[..m.count] {
        n += ends_length(row.admin, row.low, row.high);
    }
    n
}

#[tactic(auto, using(crate::proofs::Lengths::lengths))]
fn tables_length(t: Tables, m: Ranges) -> usize
    requires { TableSizes t m }
    ensures { result ≡ length (tables_bytes t m) }
{
    let assign = rows_length(true, t.assign);
    let revoke = rows_length(false, t.revoke);
    let assignp = rows_length(true, t.assignp);
    let revokep = rows_length(false, t.revokep);
    assign + revoke + assignp + revokep + ranges_length(m)
}

// How many bytes the file has: it fits a buffer exactly if the buffer is no shorter.
#[tactic(auto, using(crate::proofs::Lengths::lengths))]
pub fn file_length(p: Policy) -> usize
    requires { Sizes p }
    ensures { result ≡ length (policy_bytes p) }
{
    let first = number_len(1);
    let roles = order_length(p.orders.roles);
    let admins = order_length(p.orders.admins);
    let users = users_length(p.people);
    let permissions = permissions_length(p.permissions);
    first + roles + admins + users + permissions + tables_length(p.tables, p.modify)
}
