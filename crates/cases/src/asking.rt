// Asks without owing a proof of sizes: a policy whose counts are past them is refused with 1, and no case has one.
ghost use Rattle.std.specs.Prelude.{◌≡◌, ◌↔◌, IsTrue};
ghost use Rattle.policy.specs.Good.{Sizes};
ghost use Rattle.requests.specs.Requests.{answered, decide, ask};

use policy::{Policy, Refusal};
use requests::{Accepted, Request, decide};

fn is_sized(p: &Policy) -> bool
    ensures { IsTrue result ↔ Sizes p.now }
{
    p.people.users.count <= 256
        && p.permissions.count <= 256
        && p.tables.assign.count <= 64
        && p.tables.revoke.count <= 64
        && p.tables.assignp.count <= 64
        && p.tables.revokep.count <= 64
        && p.modify.count <= 64
}

pub fn ask(p: Policy, officer: u64, kind: u64, a: u64, b: u64) -> Result<Accepted, Refusal>
    ensures { Sizes p → answered p result ≡ decide p (ask officer kind a b) }
{
    if !is_sized(&p) {
        return Err(Refusal::UnknownKind);
    }
    decide(
        p,
        Request {
            officer,
            kind,
            a,
            b,
        },
    )
}
