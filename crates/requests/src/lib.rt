// One function over all kinds of request, and the table of the numbers that each kind may give.
#![tactic(auto)]

ghost use Rattle.std.specs.Prelude.{◌≡◌, true};
ghost use Rattle.std.specs.Option.{ok_or};
ghost use Rattle.policy.specs.Good.{Sizes, Good};
ghost use Rattle.policy.specs.Change.{decided};
ghost use Rattle.policy.specs.declared.Refusal.TheVariants.{UnknownKind};
ghost use Rattle.requests.specs.Kinds.{kind_of};
ghost use Rattle.requests.specs.Requests.{answered, decide};
ghost use Rattle.requests.specs.Numbers.{may_give, table_row};

use hierarchy::{create_role, delete_edge, delete_role, insert_edge};
use members::{assign_permission, assign_user, revoke_permission, revoke_user};
use policy::{Change, Policy, Refusal, changed};
use sets::contains;

// The kinds of request, each with its number.
#[derive(Clone, Copy, PartialEq, Eq, Debug)]
pub enum Kind {
    // put user a in role b, take user a out of role b
    AssignUser = 1,
    RevokeUser = 2,
    // the same for permission a
    AssignPermission = 3,
    RevokePermission = 4,
    // create a role, parent a, child b
    CreateRole = 5,
    // delete role a
    DeleteRole = 6,
    // insert edge, a senior to b
    InsertEdge = 7,
    // delete edge (a, b)
    DeleteEdge = 8,
}

impl TryFrom<u64> for Kind {
    type Error = Refusal;

    ghost try_from_gives = { λ number kind. kind ≡ ok_or (kind_of number) UnknownKind };

    fn try_from(number: u64) -> Result<Kind, Refusal> {
        match number {
            1 => Ok(Kind::AssignUser),
            2 => Ok(Kind::RevokeUser),
            3 => Ok(Kind::AssignPermission),
            4 => Ok(Kind::RevokePermission),
            5 => Ok(Kind::CreateRole),
            6 => Ok(Kind::DeleteRole),
            7 => Ok(Kind::InsertEdge),
            8 => Ok(Kind::DeleteEdge),
            _ => Err(Refusal::UnknownKind),
        }
    }
}

#[derive(Clone, Copy)]
pub struct Request {
    pub officer: u64,
    pub kind: u64,
    pub a: u64,
    pub b: u64,
}

// By kind the set of the numbers that a request may give, acceptance with them; the first row is for a kind that is none of the eight.
const NUMBERS: [u64; 9] = [2, 61, 45, 61, 45, 621, 399, 557, 557];

// The row of the table for a kind.
pub fn table_row(kind: u64) -> u64
    ensures { result ≡ table_row kind }
{
    NUMBERS.get(kind as usize).copied().unwrap_or(NUMBERS[0])
}

// May a request of the kind give the outcome?
pub fn may_give(kind: u64, outcome: u64) -> bool
    ensures { result ≡ may_give kind outcome }
{
    contains(table_row(kind), outcome)
}

// What any request decides, whatever its four numbers. Where sound says so, p is known to be good.
pub fn change_of(p: &Policy, sound: bool, q: Request) -> Result<Change, Refusal>
    requires { Sizes p.now × (sound ≡ true → Good p.now) }
    ensures { decided p.now q.a result ≡ decide p.now q }
{
    let Ok(kind) = Kind::try_from(q.kind) else {
        return Err(Refusal::UnknownKind);
    };
    match kind {
        Kind::AssignUser => assign_user(p, q.officer, q.a, q.b),
        Kind::RevokeUser => revoke_user(p, q.officer, q.a, q.b),
        Kind::AssignPermission => assign_permission(p, q.officer, q.a, q.b),
        Kind::RevokePermission => revoke_permission(p, q.officer, q.a, q.b),
        Kind::CreateRole => create_role(p, sound, q.officer, q.a, q.b),
        Kind::DeleteRole => delete_role(p, q.officer, q.a, q.b),
        Kind::InsertEdge => insert_edge(p, sound, q.officer, q.a, q.b),
        Kind::DeleteEdge => delete_edge(p, sound, q.officer, q.a, q.b),
    }
}

// What an accepted request gives: the policy after, and the number beside acceptance.
#[derive(Clone, Copy)]
pub struct Accepted {
    pub number: u64,
    pub policy: Policy,
}

// The answer to any request, with the policy after.
pub fn decide(p: Policy, q: Request) -> Result<Accepted, Refusal>
    requires { Sizes p }
    ensures { answered p result ≡ decide p q }
{
    let change = change_of(&p, false, q)?;
    Ok(Accepted {
        number: change.number(),
        policy: changed(p, q.a, change),
    })
}
