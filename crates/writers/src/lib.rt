// Writers of the parts of the policy file.
#![tactic(auto)]

ghost use Rattle.std.specs.Prelude.{◌<◌, ◌≤◌};
ghost use Rattle.number.specs.Number.{num_bytes};
ghost use Rattle.layout.specs.Layout.{juniors_bytes, order_bytes, user_bytes, users_bytes, permissions_bytes, ends_bytes, row_bytes, rows_bytes, ranges_bytes};
ghost use Rattle.writers.specs.Writers.{Room, Wrote};

use number::write_number;
use order::Order;
use policy::{Members, People, Ranges, Row, Table};
use ranges::{AdminId, RoleId};
use sets::has;

// A number, with the contract of every writer below: its bytes from a place on, the place past them returned, all other bytes as they were.
pub fn put_number(out: &mut [u8], at: usize, x: u64) -> usize
    requires { Room (num_bytes x) at out.old }
    ensures { Wrote (num_bytes x) at out.old result out.new }
{
    write_number(out, at, x)
}

// The set of strict juniors of role a, where a is in use.
fn write_juniors(out: &mut [u8], at: usize, used: u64, a: usize, juniors: u64) -> usize
    requires { (a < 64) × Room (juniors_bytes used a juniors) at out.old }
    ensures { Wrote (juniors_bytes used a juniors) at out.old result out.new }
{
    if has(used, a) {
        put_number(out, at, juniors)
    } else {
        at
    }
}

pub fn write_order(out: &mut [u8], at: usize, o: Order) -> usize
    requires { Room (order_bytes o) at out.old }
    ensures { Wrote (order_bytes o) at out.old result out.new }
{
    let mut place = put_number(out, at, o.used);
    for a in 0..64 {
        place = write_juniors(out, place, o.used, a, o.juniors[a]);
    }
    place
}

fn write_user(out: &mut [u8], at: usize, roles: u64, office: u64) -> usize
    requires { Room (user_bytes roles office) at out.old }
    ensures { Wrote (user_bytes roles office) at out.old result out.new }
{
    let mid = put_number(out, at, roles);
    put_number(out, mid, office)
}

pub fn write_users(out: &mut [u8], at: usize, p: People) -> usize
    requires { (p.users.count ≤ 256) × Room (users_bytes p) at out.old }
    ensures { Wrote (users_bytes p) at out.old result out.new }
{
    let mut place = put_number(out, at, p.users.count as u64);
    for i in 0..p.users.count {
        place = write_user(out, place, p.users.roles[i], p.offices[i]);
    }
    place
}

pub fn write_permissions(out: &mut [u8], at: usize, m: Members) -> usize
    requires { (m.count ≤ 256) × Room (permissions_bytes m) at out.old }
    ensures { Wrote (permissions_bytes m) at out.old result out.new }
{
    let mut place = put_number(out, at, m.count as u64);
    for roles in &m.roles[..m.count] {
        place = put_number(out, place, *roles);
    }
    place
}

fn write_ends(out: &mut [u8], at: usize, admin: AdminId, low: RoleId, high: RoleId) -> usize
    requires { Room (ends_bytes admin low high) at out.old }
    ensures { Wrote (ends_bytes admin low high) at out.old result out.new }
{
    let a = put_number(out, at, admin.0 as u64);
    let b = put_number(out, a, low.0 as u64);
    put_number(out, b, high.0 as u64)
}

// A row of a can-assign table, which has two sets, or of a can-revoke table.
fn write_row(out: &mut [u8], at: usize, assign: bool, row: Row) -> usize
    requires { Room (row_bytes assign row) at out.old }
    ensures { Wrote (row_bytes assign row) at out.old result out.new }
{
    let a = write_ends(out, at, row.admin, row.low, row.high);
    let b = put_number(out, a, row.brackets as u64);
    if assign {
        let c = put_number(out, b, row.needed);
        put_number(out, c, row.barred)
    } else {
        b
    }
}

// A table's rows, from the start of what it is lent.
pub fn write_rows(out: &mut [u8], assign: bool, t: Table) -> usize
    requires { (t.count ≤ 64) × Room (rows_bytes assign t) 0 out.old }
    ensures { Wrote (rows_bytes assign t) 0 out.old result out.new }
{
    let mut place = put_number(out, 0, t.count as u64);
    for row in &t.rows[..t.count] {
        place = write_row(out, place, assign, *row);
    }
    place
}

pub fn write_ranges(out: &mut [u8], m: Ranges) -> usize
    requires { (m.count ≤ 64) × Room (ranges_bytes m) 0 out.old }
    ensures { Wrote (ranges_bytes m) 0 out.old result out.new }
{
    let mut place = put_number(out, 0, m.count as u64);
    for row in &m.rows[..m.count] {
        place = write_ends(out, place, row.admin, row.low, row.high);
    }
    place
}
