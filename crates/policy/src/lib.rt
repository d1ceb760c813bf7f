// The policy: two orders, users, permissions and five tables. A request changes it by `changed` below and by nothing else; a file is read into its parts.
#![tactic(auto)]

ghost use Rattle.std.specs.Prelude.{◌≡◌, get_or, set};
ghost use Rattle.order.specs.Order.{senior};
ghost use Rattle.policy.specs.Build.{empty_row, empty_table, empty_ranges, empty_policy, with_permissions};
ghost use Rattle.policy.specs.Change.{changed, beside};
ghost use Rattle.policy.specs.Outcome.{number};
ghost use Rattle.policy.specs.Question.{may_exercise, question};

use order::Order;
use ranges::{AdminId, ModifyRow, RoleId};
use sets::both;

// The orders of roles and of administrative roles.
#[derive(Clone, Copy)]
pub struct Orders {
    pub roles: Order,
    pub admins: Order,
}

// Users or permissions: how many, and the explicit roles of each.
#[derive(Clone, Copy)]
pub struct Members {
    pub count: usize,
    pub roles: [u64; 256],
}

// The users, and the administrative set of each.
#[derive(Clone, Copy)]
pub struct People {
    pub users: Members,
    pub offices: [u64; 256],
}

// A row of a can-assign or a can-revoke table; a can-revoke row needs and bars nothing.
#[derive(Clone, Copy)]
pub struct Row {
    pub admin: AdminId,
    pub low: RoleId,
    pub high: RoleId,
    pub brackets: u8,
    pub needed: u64,
    pub barred: u64,
}

#[derive(Clone, Copy)]
pub struct Table {
    pub count: usize,
    pub rows: [Row; 64],
}

#[derive(Clone, Copy)]
pub struct Tables {
    pub assign: Table,
    pub revoke: Table,
    pub assignp: Table,
    pub revokep: Table,
}

// The can-modify table.
#[derive(Clone, Copy)]
pub struct Ranges {
    pub count: usize,
    pub rows: [ModifyRow; 64],
}

#[derive(Clone, Copy)]
pub struct Policy {
    pub orders: Orders,
    pub people: People,
    pub permissions: Members,
    pub tables: Tables,
    pub modify: Ranges,
}

// Why a request is refused: the outcomes but acceptance, each with its number.
#[derive(Clone, Copy, PartialEq, Eq, Debug)]
pub enum Refusal {
    // the kind is none of the eight, or a role is deleted with a second number that is not 0
    UnknownKind = 1,
    // a user or permission that there is not, or a role that is not in use
    UnknownName = 2,
    // the officer may use no row that allows it
    NotAllowed = 3,
    // there are such rows, and what each needs or bars is not as it says
    NotSatisfied = 4,
    // it would change nothing
    NothingToDo = 5,
    // all 64 roles are in use
    NoFreeRole = 6,
    // some row names the role
    RoleNamed = 7,
    // a user or a permission is in the role
    RoleHeld = 8,
    // some authority range would be unsound after it
    RangeSpoilt = 9,
    // what is to be written is longer than the buffer
    BufferTooShort = 10,
}

impl Refusal {
    // The number of the outcome.
    pub fn number(self) -> u64
        ensures { result ≡ number self }
    {
        self as u64
    }
}

// What an accepted request changes, small enough to hand on.
#[derive(Clone, Copy)]
pub enum Change {
    // the roles of a user
    User(u64),
    // the roles of a permission
    Permission(u64),
    // the order of roles; with it the number of the new role, or 0
    Hierarchy(Order, u64),
}

impl Change {
    // The number that acceptance returns beside it.
    pub fn number(&self) -> u64
        ensures { result ≡ beside self.now }
    {
        match self {
            Change::Hierarchy(_, number) => *number,
            _ => 0,
        }
    }
}

pub fn empty_row() -> Row
    ensures { result ≡ empty_row }
{
    Row {
        admin: AdminId(0),
        low: RoleId(0),
        high: RoleId(0),
        brackets: 0,
        needed: 0,
        barred: 0,
    }
}

pub fn empty_table() -> Table
    ensures { result ≡ empty_table }
{
    let row = empty_row();
    Table {
        count: 0,
        rows: [row; 64],
    }
}

pub fn empty_ranges() -> Ranges
    ensures { result ≡ empty_ranges }
{
    let row = ModifyRow {
        admin: AdminId(0),
        low: RoleId(0),
        high: RoleId(0),
    };
    Ranges {
        count: 0,
        rows: [row; 64],
    }
}

// A policy with nothing in it: what a refused read yields.
pub fn empty_policy() -> Policy
    ensures { result ≡ empty_policy }
{
    let order = Order {
        used: 0,
        juniors: [0u64; 64],
    };
    let members = Members {
        count: 0,
        roles: [0u64; 256],
    };
    let table = empty_table();
    Policy {
        orders: Orders {
            roles: order,
            admins: order,
        },
        people: People {
            users: members,
            offices: [0u64; 256],
        },
        permissions: members,
        tables: Tables {
            assign: table,
            revoke: table,
            assignp: table,
            revokep: table,
        },
        modify: empty_ranges(),
    }
}

// The policy with other permissions.
pub fn with_permissions(mut p: Policy, permissions: Members) -> Policy
    ensures { result ≡ with_permissions p permissions }
{
    p.permissions = permissions;
    p
}

// The explicit roles of a member, or the administrative set of a user; none for a number that no member has.
pub fn set_at(sets: &[u64; 256], member: u64) -> u64
    ensures { result ≡ get_or sets.now member 0 }
{
    sets.get(member as usize).copied().unwrap_or(0)
}

// Gives a member other explicit roles; a number that no member has changes nothing.
pub fn put_roles(sets: &mut [u64; 256], member: u64, roles: u64)
    ensures { sets.new ≡ set sets.old member roles }
{
    if member < 256 {
        sets[member as usize] = roles;
    }
}

// The policy after a change that was asked with a user or permission a, put together at this one place.
pub fn changed(mut p: Policy, a: u64, c: Change) -> Policy
    ensures { result ≡ changed p a c }
{
    match c {
        Change::User(roles) => put_roles(&mut p.people.users.roles, a, roles),
        Change::Permission(roles) => put_roles(&mut p.permissions.roles, a, roles),
        Change::Hierarchy(order, _) => p.orders.roles = order,
    }
    p
}

// Is some role held equal or senior to some role granted? So it is where held reaches a role that is granted.
fn exercises(order: &Order, held: u64, granted: u64) -> bool
    ensures { result ≡ may_exercise (senior order.now.juniors) held granted }
{
    both(order.reached(held), granted) != 0
}

// The permission question, for any numbers.
pub fn question(p: &Policy, user: u64, permission: u64) -> Result<bool, Refusal>
    ensures { result ≡ question p.now user permission }
{
    if p.people.users.count as u64 <= user || p.permissions.count as u64 <= permission {
        return Err(Refusal::UnknownName);
    }
    let held = set_at(&p.people.users.roles, user);
    let granted = set_at(&p.permissions.roles, permission);
    Ok(exercises(&p.orders.roles, held, granted))
}
