// A number of the policy file: groups of seven bits, lowest group first, the top bit set on all bytes but the last.
#![tactic(auto)]

ghost use Rattle.std.specs.Prelude.{◌≡◌, ◌+◌, ◌≤◌, leb, length, get_or};
ghost use Rattle.std.proofs.lemmas.List.Edits.{sets};
ghost use Rattle.number.specs.Number.{Before, is_long, is_over, num_at, num_bytes, number_of, place_of, as_num};

// Why no number is read, each with its place.
#[derive(Clone, Copy, PartialEq, Eq, Debug)]
pub enum NumberError {
    // 20: the input ends inside or before the number.
    Ended(usize),
    // 21: it is not in its shortest form, or over 64 bits.
    Malformed(usize),
    // 22: it is a number, and none that may stand there.
    Unfit(usize),
}

impl NumberError {
    // Document 01's number of the refusal.
    pub fn number(self) -> u64
        ensures { result ≡ number_of self }
    {
        match self {
            NumberError::Ended(_) => 20,
            NumberError::Malformed(_) => 21,
            NumberError::Unfit(_) => 22,
        }
    }

    pub fn place(self) -> usize
        ensures { result ≡ place_of self }
    {
        match self {
            NumberError::Ended(place) => place,
            NumberError::Malformed(place) => place,
            NumberError::Unfit(place) => place,
        }
    }
}

// The groups before a number's last byte.
struct Groups {
    // The place of the last byte.
    last: usize,
    // The value of the groups before it.
    value: u64,
    // What the last group counts: 128 for each group before it.
    scale: u64,
}

// Is the top bit of the byte at i set? Past the end there is none.
fn is_continued(s: &[u8], i: usize) -> bool
    ensures { result ≡ leb 128 (get_or s.now i 0) }
{
    i < s.len() && 128 <= s[i]
}

// The groups that are continued: nine at most, since a tenth byte is a number's last.
fn read_groups(s: &[u8], at: usize) -> Groups
    ensures { Before s.now at result.last result.value result.scale }
{
    let mut last = at;
    let mut value: u64 = 0;
    let mut scale: u64 = 1;
    for _n in 0..9usize {
        if !is_continued(s, last) {
            break;
        }
        value += u64::from(s[last]) % 128 * scale;
        scale *= 128;
        last += 1;
    }
    Groups { last, value, scale }
}

// The place of a number's first byte among its bytes.
const FIRST: usize = 0;

// Is the last byte b, with n before it, a group of nothing that the shortest form leaves out?
fn is_long(n: usize, b: u64) -> bool
    ensures { result ≡ is_long n b }
{
    FIRST < n && b == 0
}

// Does the last byte b, with n before it, hold a bit past the 64th? Nine groups hold 63 bits.
fn is_over(n: usize, b: u64) -> bool
    ensures { result ≡ is_over n b }
{
    n == 9 && 1 < b
}

// What stands at `at`: a number with the place past it, or why there is none.
pub fn read_number(s: &[u8], at: usize) -> Result<(u64, usize), NumberError>
    ensures { as_num result ≡ num_at s.now at }
{
    let Groups { last, value, scale } = read_groups(s, at);
    let end = s.len();
    if end <= last {
        return Err(NumberError::Ended(end));
    }
    let b = u64::from(s[last]);
    let n = last - at;
    if is_long(n, b) || is_over(n, b) {
        return Err(NumberError::Malformed(at));
    }
    let next = last + 1;
    Ok((value + b * scale, next))
}

// How many bytes `x` takes.
pub fn number_len(x: u64) -> usize
    ensures { result ≡ length (num_bytes x) }
{
    let mut v = x;
    let mut n: usize = 1;
    while 128 <= v {
        v /= 128;
        n += 1;
    }
    n
}

// Writes `x` at `at`, and gives the place past it. All other bytes stay.
pub fn write_number(out: &mut [u8], at: usize, x: u64) -> usize
    requires { at + length (num_bytes x) ≤ length out.old }
    ensures { (result ≡ at + length (num_bytes x)) × (out.new ≡ sets out.old at (num_bytes x)) }
{
    let mut v = x;
    let mut i = at;
    while 128 <= v {
        out[i] = (v % 128 + 128) as u8;
        v /= 128;
        i += 1;
    }
    out[i] = v as u8;
    i + 1
}
