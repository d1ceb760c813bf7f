// Does the entry that C calls give what a vector expects? An answer is one number, which holds outcome, number (8 bits each), place (16) and
// length (32).
ghost use Rattle.std.specs.Prelude.{◌≡◌, true, take};
ghost use Rattle.policy.specs.Good.{Good};
ghost use Rattle.layout.specs.Layout.{policy_bytes};
ghost use Rattle.vectors.specs.Agree.{FileIs, RequestIs, ListingIs, TableIs};

use check::same;
use entries::{aestilumne_check, aestilumne_listing, aestilumne_request, aestilumne_table};
use parts::table_part;
use policy::{Policy, empty_policy};
use reading::read_policy;
use requests::Request;
use writing::write_policy;

// Are these the buffer's first n bytes?
fn starts(out: &[u8], n: usize, bytes: &[u8]) -> bool
    ensures { result ≡ true → take n out.now ≡ bytes.now }
{
    n <= out.len() && same(&out[..n], bytes)
}

// Are these the bytes of the policy's file?
fn is_file(p: Policy, file: &[u8]) -> bool
    requires { Good p }
    ensures { result ≡ true → policy_bytes p ≡ file.now }
{
    let mut out = [0u8; 10375];
    match write_policy(p, &mut out) {
        Ok(n) => starts(&out, n, file),
        Err(_) => false,
    }
}

pub fn file_agrees(s: &[u8], answer: u64) -> bool
    ensures { result ≡ true → FileIs s.now answer }
{
    if aestilumne_check(s) != answer {
        return false;
    }
    let mut policy = empty_policy();
    match read_policy(s, &mut policy) {
        Ok(()) => is_file(policy, s),
        Err(_) => true,
    }
}

pub fn request_agrees(s: &[u8], q: Request, answer: u64, file: &[u8]) -> bool
    ensures { result ≡ true → RequestIs s.now q answer file.now }
{
    let mut out = [0u8; 10375];
    if aestilumne_request(s, q.officer, q.kind, q.a, q.b, &mut out) != answer {
        return false;
    }
    starts(&out, (answer / 4294967296) as usize, file)
}

pub fn listing_agrees(s: &[u8], officer: u64, answer: u64, entries: &[u8]) -> bool
    ensures { result ≡ true → ListingIs s.now officer answer entries.now }
{
    let mut out = [0u8; 37056];
    if aestilumne_listing(s, officer, &mut out) != answer {
        return false;
    }
    starts(&out, 3 * (answer / 4294967296) as usize, entries)
}

pub fn table_agrees(s: &[u8], table: u64, answer: u64) -> bool
    ensures { result ≡ true → TableIs s.now table answer }
{
    if aestilumne_table(s, table) != answer {
        return false;
    }
    let start = (answer / 65536 % 65536) as usize;
    let end = start + (answer / 4294967296) as usize;
    if s.len() < end {
        return false;
    }
    same(table_part(s, table), &s[start..end])
}
