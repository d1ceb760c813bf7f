// The records of the data files, as tests/README.md gives them. Of one that is cut short nothing is made, and nothing follows it.
ghost use Rattle.std.specs.Prelude.{◌≡◌, ◌+◌, ◌<◌, length, drop, IfSome, MatchOption};
ghost use Rattle.vectors.specs.Numbers.{two_at, eight_at, IsLater};

use crate::agree::{file_agrees, listing_agrees, request_agrees, table_agrees};
use crate::tally::{Agreed, Row};
use requests::{Kind, Request};

// What a record came to: what was agreed on, or nothing where the module and the vector differ; and what follows the record.
#[derive(Clone, Copy)]
pub struct Ran<'a> {
    pub agreed: Option<Agreed>,
    pub rest: &'a [u8],
}

// A number of two bytes, lowest first, and what follows it; none where they are too few.
fn short(s: &[u8]) -> Option<(u16, &[u8])>
    ensures { MatchOption result (length s.now < 2) (λ r. (r.0 ≡ two_at s.now 0) × (r.1.now ≡ drop 2 s.now) × (length r.1.now + 2 ≡ length s.now)) }
{
    let (bytes, rest) = s.split_first_chunk::<2>()?;
    Some((u16::from_le_bytes(*bytes), rest))
}

// The same of eight bytes.
fn long(s: &[u8]) -> Option<(u64, &[u8])>
    ensures { MatchOption result (length s.now < 8) (λ r. (r.0 ≡ eight_at s.now 0) × (r.1.now ≡ drop 8 s.now) × (length r.1.now + 8 ≡ length s.now)) }
{
    let (bytes, rest) = s.split_first_chunk::<8>()?;
    Some((u64::from_le_bytes(*bytes), rest))
}

// Input length (2), outcome (1), place (2), the input.
fn run_file(s: &[u8]) -> Option<Ran<'_>>
    ensures { IfSome result (λ r. IsLater r.rest.now s.now) }
{
    let (n, s) = short(s)?;
    let (outcome, s) = s.split_first()?;
    let (place, s) = short(s)?;
    let (input, rest) = s.split_at_checked(n as usize)?;
    let (outcome, place) = (u64::from(*outcome), u64::from(place));
    let agreed = Agreed {
        row: Row::File,
        outcome,
        place: Some(place),
    };
    let agrees = file_agrees(input, outcome + 65536 * place);
    Some(Ran {
        agreed: agrees.then_some(agreed),
        rest,
    })
}

fn row_of(kind: u64) -> Row {
    match Kind::try_from(kind) {
        Ok(kind) => Row::Request(kind),
        Err(_) => Row::UnknownKind,
    }
}

// The request of four numbers, and what follows them.
fn request_of(s: &[u8]) -> Option<(Request, &[u8])>
    ensures { MatchOption result (length s.now < 32) (λ r. (r.1.now ≡ drop 32 s.now) × (length r.1.now + 32 ≡ length s.now)) }
{
    let (officer, s) = long(s)?;
    let (kind, s) = long(s)?;
    let (a, s) = long(s)?;
    let (b, s) = long(s)?;
    Some((
        Request {
            officer,
            kind,
            a,
            b,
        },
        s,
    ))
}

// Policy length (2), officer, kind, a, b (8 each), answer (8), the policy, the new file.
fn run_request(s: &[u8]) -> Option<Ran<'_>>
    ensures { IfSome result (λ r. IsLater r.rest.now s.now) }
{
    let (n, s) = short(s)?;
    let (q, s) = request_of(s)?;
    let (answer, s) = long(s)?;
    let (policy, s) = s.split_at_checked(n as usize)?;
    let (file, rest) = s.split_at_checked((answer / 4294967296) as usize)?;
    let agreed = Agreed {
        row: row_of(q.kind),
        outcome: answer % 256,
        place: None,
    };
    let agrees = request_agrees(policy, q, answer, file);
    Some(Ran {
        agreed: agrees.then_some(agreed),
        rest,
    })
}

// Policy length (2), officer (8), answer (8), the policy, three bytes for each entry.
fn run_listing(s: &[u8]) -> Option<Ran<'_>>
    ensures { IfSome result (λ r. IsLater r.rest.now s.now) }
{
    let (n, s) = short(s)?;
    let (officer, s) = long(s)?;
    let (answer, s) = long(s)?;
    let (policy, s) = s.split_at_checked(n as usize)?;
    let (entries, rest) = s.split_at_checked(3 * (answer / 4294967296) as usize)?;
    let agreed = Agreed {
        row: Row::Listing,
        outcome: answer % 256,
        place: None,
    };
    let agrees = listing_agrees(policy, officer, answer, entries);
    Some(Ran {
        agreed: agrees.then_some(agreed),
        rest,
    })
}

// Policy length (2), table (8), answer (8), the policy.
fn run_table(s: &[u8]) -> Option<Ran<'_>>
    ensures { IfSome result (λ r. IsLater r.rest.now s.now) }
{
    let (n, s) = short(s)?;
    let (table, s) = long(s)?;
    let (answer, s) = long(s)?;
    let (policy, rest) = s.split_at_checked(n as usize)?;
    let agreed = Agreed {
        row: Row::Table,
        outcome: answer % 256,
        place: None,
    };
    let agrees = table_agrees(policy, table, answer);
    Some(Ran {
        agreed: agrees.then_some(agreed),
        rest,
    })
}

// The data files, each of records of its own.
#[derive(Clone, Copy)]
pub enum Records {
    Files,
    Requests,
    Listings,
    Tables,
}

impl Records {
    pub fn file_name(self) -> &'static str {
        match self {
            Records::Files => "files.bin",
            Records::Requests => "requests.bin",
            Records::Listings => "listings.bin",
            Records::Tables => "tables.bin",
        }
    }

    // Runs the first record.
    pub fn run(self, s: &[u8]) -> Option<Ran<'_>>
        ensures { IfSome result (λ r. IsLater r.rest.now s.now) }
    {
        match self {
            Records::Files => run_file(s),
            Records::Requests => run_request(s),
            Records::Listings => run_listing(s),
            Records::Tables => run_table(s),
        }
    }
}
