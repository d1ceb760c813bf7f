// Kinds 1 to 4: users and permissions are put in roles and taken out of them.
#![tactic(auto)]

ghost use Rattle.std.specs.Prelude.{◌≡◌, ◌≤◌, ltb, get_or};
ghost use Rattle.sets.specs.Tests.{◌and◌};
ghost use Rattle.order.specs.Order.{senior, reached};
ghost use Rattle.policy.specs.Change.{decided};
ghost use Rattle.policy.specs.Good.{Sizes};
ghost use Rattle.policy.specs.Outcome.{outcome_of, first};
ghost use Rattle.members.specs.Rules.{user_view, permission_view, covers, satisfied, unknown, covered, granted, assign_rules, revoke_rules, with_role, without_role, Becomes, assign_user, revoke_user, assign_permission, revoke_permission};

use order::Order;
use policy::{Change, People, Policy, Refusal, Row, Table, set_at};
use ranges::in_range;
use sets::{both, contains, subset, with, without};

// What kinds 1 to 4 look at; users and permissions differ in it alone.
#[derive(Clone, Copy)]
pub struct View {
    pub known: bool,
    pub roles: Order,
    pub usable: u64,
    pub mine: u64,
    pub needed: u64,
    pub barred: u64,
    pub table: Table,
}

impl View {
    // May the officer use the row, and is b in its range?
    fn covers(&self, row: &Row, b: usize) -> bool
        ensures { result ≡ covers self.now b row.now }
    {
        contains(self.usable, row.admin.0 as u64)
            && in_range(&self.roles.juniors, row.low, row.high, row.brackets, b)
    }

    // Is each needed role among those that count, and no barred one?
    fn satisfies(&self, row: &Row) -> bool
        ensures { result ≡ satisfied self.now row.now }
    {
        subset(row.needed, self.needed) && both(row.barred, self.barred) == 0
    }

    // Both of it, so that the row lets the member be put in b.
    fn grants(&self, row: &Row, b: usize) -> bool
        ensures { result ≡ (covers self.now b row.now and satisfied self.now row.now) }
    {
        self.covers(row, b) && self.satisfies(row)
    }

    // Has some row that the officer may use b in its range?
    pub fn is_covered(self, b: usize) -> bool
        requires { self.table.count ≤ 64 }
        ensures { result ≡ covered self b }
    {
        let rows = &self.table.rows[..self.table.count];
        rows.iter().any(|row| self.covers(row, b))
    }

    // Is one of those rows satisfied too?
    pub fn is_granted(self, b: usize) -> bool
        requires { self.table.count ≤ 64 }
        ensures { result ≡ granted self b }
    {
        let rows = &self.table.rows[..self.table.count];
        rows.iter().any(|row| self.grants(row, b))
    }

    // Number 2: the officer, the user or permission, or the role is unknown.
    fn is_unknown(&self, b: u64) -> bool
        ensures { result ≡ unknown self.now b }
    {
        !(self.known && contains(self.roles.used, b))
    }

    // Kinds 1 and 3: the first refusal that holds.
    pub fn assign_outcome(self, b: u64) -> Result<(), Refusal>
        requires { self.table.count ≤ 64 }
        ensures { outcome_of result ≡ first (assign_rules self b) }
    {
        if self.is_unknown(b) {
            return Err(Refusal::UnknownName);
        }
        let role = b as usize;
        if !self.is_covered(role) {
            return Err(Refusal::NotAllowed);
        }
        if !self.is_granted(role) {
            return Err(Refusal::NotSatisfied);
        }
        if contains(self.mine, b) {
            return Err(Refusal::NothingToDo);
        }
        Ok(())
    }

    // Kinds 2 and 4.
    pub fn revoke_outcome(self, b: u64) -> Result<(), Refusal>
        requires { self.table.count ≤ 64 }
        ensures { outcome_of result ≡ first (revoke_rules self b) }
    {
        if self.is_unknown(b) {
            return Err(Refusal::UnknownName);
        }
        if !self.is_covered(b as usize) {
            return Err(Refusal::NotAllowed);
        }
        if !contains(self.mine, b) {
            return Err(Refusal::NothingToDo);
        }
        Ok(())
    }

    // Kinds 1 and 3: the explicit roles after the user or permission is put in role b.
    fn assigned(self, b: u64) -> Result<u64, Refusal>
        requires { self.table.count ≤ 64 }
        ensures { Becomes (assign_rules self b) (with_role self.mine b) result }
    {
        self.assign_outcome(b)?;
        Ok(with(self.mine, b as usize))
    }

    // Kinds 2 and 4: those after it is taken out.
    fn revoked(self, b: u64) -> Result<u64, Refusal>
        requires { self.table.count ≤ 64 }
        ensures { Becomes (revoke_rules self b) (without_role self.mine b) result }
    {
        self.revoke_outcome(b)?;
        Ok(without(self.mine, b as usize))
    }
}

// Are the officer's number and the member's below their counts?
fn is_below(o: u64, a: u64, officers: u64, members: u64) -> bool
    ensures { result ≡ (ltb o officers and ltb a members) }
{
    o < officers && a < members
}

// The administrative roles whose rows officer o may use: those held explicitly, and their juniors.
fn usable_by(admins: &Order, people: &People, o: u64) -> u64
    ensures { result ≡ reached (senior admins.now.juniors) (get_or people.now.offices o 0) }
{
    let held = set_at(&people.offices, o);
    admins.reached(held)
}

// What kinds 1 and 2 look at, for officer o and user a.
fn user_view(p: &Policy, table: Table, o: u64, a: u64) -> View
    ensures { result ≡ user_view p.now table o a }
{
    let count = p.people.users.count as u64;
    let mine = set_at(&p.people.users.roles, a);
    let held = p.orders.roles.reached(mine);
    View {
        known: is_below(o, a, count, count),
        roles: p.orders.roles,
        usable: usable_by(&p.orders.admins, &p.people, o),
        mine,
        needed: held,
        barred: held,
        table,
    }
}

// What kinds 3 and 4 look at, for officer o and permission a.
fn permission_view(p: &Policy, table: Table, o: u64, a: u64) -> View
    ensures { result ≡ permission_view p.now table o a }
{
    let mine = set_at(&p.permissions.roles, a);
    View {
        known: is_below(
            o,
            a,
            p.people.users.count as u64,
            p.permissions.count as u64,
        ),
        roles: p.orders.roles,
        usable: usable_by(&p.orders.admins, &p.people, o),
        mine,
        needed: mine,
        barred: mine,
        table,
    }
}

// Kind 1: put user a in role b.
pub fn assign_user(p: &Policy, o: u64, a: u64, b: u64) -> Result<Change, Refusal>
    requires { Sizes p.now }
    ensures { decided p.now a result ≡ assign_user p.now o a b }
{
    user_view(p, p.tables.assign, o, a)
        .assigned(b)
        .map(Change::User)
}

// Kind 2: take user a out of role b.
pub fn revoke_user(p: &Policy, o: u64, a: u64, b: u64) -> Result<Change, Refusal>
    requires { Sizes p.now }
    ensures { decided p.now a result ≡ revoke_user p.now o a b }
{
    user_view(p, p.tables.revoke, o, a)
        .revoked(b)
        .map(Change::User)
}

// Kind 3: put permission a in role b.
pub fn assign_permission(p: &Policy, o: u64, a: u64, b: u64) -> Result<Change, Refusal>
    requires { Sizes p.now }
    ensures { decided p.now a result ≡ assign_permission p.now o a b }
{
    permission_view(p, p.tables.assignp, o, a)
        .assigned(b)
        .map(Change::Permission)
}

// Kind 4: take permission a out of role b.
pub fn revoke_permission(p: &Policy, o: u64, a: u64, b: u64) -> Result<Change, Refusal>
    requires { Sizes p.now }
    ensures { decided p.now a result ≡ revoke_permission p.now o a b }
{
    permission_view(p, p.tables.revokep, o, a)
        .revoked(b)
        .map(Change::Permission)
}
