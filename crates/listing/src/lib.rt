// The listing: every request of kinds 5 to 8 that an officer would have accepted.
#![tactic(auto)]

ghost use Rattle.std.specs.Prelude.{◌≡◌, ◌+◌, ◌*◌, ◌≤◌, ◌<◌, ◌/◌, length};
ghost use Rattle.std.proofs.lemmas.List.Edits.{sets};
ghost use Rattle.sets.specs.Sets.{count};
ghost use Rattle.policy.specs.Good.{Good};
ghost use Rattle.policy.specs.Outcome.{outcome_of};
ghost use Rattle.hierarchy.specs.Kinds.{kind_number};
ghost use Rattle.listing.specs.Listing.{AcceptedRows, in_rows, place_count, entry, entries_of, ListingOf};
ghost use Rattle.listing.specs.Sites.{site_outcome, site_set, ToDo};

use hierarchy::{Ground, HierarchyKind, tied_roles};
use policy::{Policy, Refusal};
use sets::{has, lowest, minus, size, with, without_lowest};

// The kind of the requests at place j of 4 times 64.
fn kind_at(j: usize) -> HierarchyKind
    requires { j < 256 }
    ensures { kind_number result ≡ 5 + j / 64 }
{
    match j / 64 {
        0 => HierarchyKind::CreateRole,
        1 => HierarchyKind::DeleteRole,
        2 => HierarchyKind::InsertEdge,
        _ => HierarchyKind::DeleteEdge,
    }
}

// The outcome: authority and "nothing to do" are tested before the costly check of all ranges. tied is the set of the roles that cannot go.
#[tactic(auto, unfolding(crate::specs::Sites::site_outcome))]
fn site_outcome(
    ground: &Ground,
    tied: u64,
    kind: HierarchyKind,
    a: usize,
    b: usize,
) -> Result<(), Refusal>
    requires { a < 64 }
    ensures { outcome_of result ≡ site_outcome ground.now.site tied (kind_number kind) a b }
{
    let first = a as u64;
    let second = b as u64;
    match kind {
        HierarchyKind::CreateRole => ground.create_outcome(first, second),
        HierarchyKind::DeleteRole => ground
            .site
            .delete_outcome(has(tied, a), false, first, second),
        HierarchyKind::InsertEdge => ground.insert_outcome(first, second),
        HierarchyKind::DeleteEdge => ground.cut_outcome(first, second),
    }
}

// A set that has each b with which a request has something to do, so that few are tried in vain; kind 6 has b 0 alone.
fn to_do(ground: &Ground, kind: HierarchyKind, a: usize) -> u64
    requires { a < 64 }
    ensures { ToDo ground.now.site (kind_number kind) a result }
{
    let order = &ground.site.roles;
    if !has(order.used, a) {
        return 0;
    }
    let below = order.juniors[a];
    match kind {
        HierarchyKind::CreateRole | HierarchyKind::DeleteEdge => below,
        HierarchyKind::DeleteRole => 1,
        HierarchyKind::InsertEdge => minus(minus(order.used, below), ground.seniors[a]),
    }
}

// The set of the b with which the request of kind and a at place j of 4 times 64 would be accepted.
fn accepted_row(ground: &Ground, tied: u64, j: usize) -> u64
    requires { j < 256 }
    ensures { result ≡ site_set ground.now.site tied j }
{
    let kind = kind_at(j);
    let a = j % 64;
    let mut row: u64 = 0;
    let mut rest = to_do(ground, kind, a);
    while rest != 0 {
        let b = lowest(rest);
        let outcome = site_outcome(ground, tied, kind, a, b);
        if outcome.is_ok() {
            row = with(row, b);
        }
        rest = without_lowest(rest);
    }
    row
}

// All that would be accepted, gathered before a byte is written; what does not depend on the request is found once.
fn gathered(p: &Policy, o: u64) -> [u64; 256]
    requires { Good p.now }
    ensures { AcceptedRows p.now o result }
{
    let ground = Ground::of(p, true, o);
    let tied = tied_roles(p);
    let mut rows = [0u64; 256];
    for (j, row) in rows.iter_mut().enumerate() {
        *row = accepted_row(&ground, tied, j);
    }
    rows
}

// How many entries there are.
fn total(rows: &[u64; 256]) -> usize
    ensures { result ≡ count place_count (in_rows rows.now) }
{
    let mut n: usize = 0;
    for row in rows {
        n += size(*row) as usize;
    }
    n
}

// Writes the three bytes of the entry at place i.
fn put_entry(out: &mut [u8], at: usize, i: usize)
    requires { (at + 3 ≤ length out.old) × (i < place_count) }
    ensures { out.new ≡ sets out.old at (entry i) }
{
    out[at] = (5 + i / 4096) as u8;
    out[at + 1] = (i / 64 % 64) as u8;
    out[at + 2] = (i % 64) as u8;
}

// Writes the entries from the start of the buffer.
fn put_entries(out: &mut [u8], rows: &[u64; 256])
    requires { length (entries_of (in_rows rows.now)) ≤ length out.old }
    ensures { out.new ≡ sets out.old 0 (entries_of (in_rows rows.now)) }
{
    let mut at = 0;
    for i in 0..16384 {
        if has(rows[i / 64], i % 64) {
            put_entry(out, at, i);
            at += 3;
        }
    }
}

// The listing of an officer into a lent buffer: the count of entries.
pub fn list(p: &Policy, o: u64, out: &mut [u8]) -> Result<usize, Refusal>
    requires { Good p.now }
    ensures { ListingOf p.now o out.old result out.new }
{
    if p.people.users.count as u64 <= o {
        return Err(Refusal::UnknownName);
    }
    let rows = gathered(p, o);
    let n = total(&rows);
    if out.len() < 3 * n {
        return Err(Refusal::BufferTooShort);
    }
    put_entries(out, &rows);
    Ok(n)
}
