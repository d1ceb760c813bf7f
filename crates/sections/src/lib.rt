// The policy file before its tables: sets, counts and members, an order, users, permissions.
#![tactic(auto)]

ghost use Rattle.std.specs.Prelude.{◌≡◌, Bool, ℕ, ◌<◌, ◌^◌};
ghost use Rattle.number.specs.Number.{num_at, tested, as_num};
ghost use Rattle.number.specs.Run.{Step, as_step};
ghost use Rattle.sections.specs.Numbers.{set_at, count_at, member_at};
ghost use Rattle.sections.specs.Each.{Reads, things_read, each_at};
ghost use Rattle.sections.specs.Sections.{order_at, people_at, members_at};

use number::{NumberError, read_number};
use order::Order;
use policy::{Members, People};
use sets::{contains, has, subset};

// A number that passes a test, with the place past it; 22 where it does not pass.
pub fn read_fitting<F: FnOnce(u64) -> bool>(
    s: &[u8],
    at: usize,
    fits: F,
) -> Result<(u64, usize), NumberError>
    requires { F.IsAlwaysCallable fits }
    ensures { (test : ℕ → Bool) → ((x : ℕ) (b : Bool) → x < 2 ^ 64 → F.post fits x b → b ≡ test x) → as_num result ≡ tested test at (num_at s.now at) }
{
    let number = read_number(s, at);
    let Ok((x, _)) = number else {
        return number;
    };
    if fits(x) {
        number
    } else {
        Err(NumberError::Unfit(at))
    }
}

// A set of members of `of`.
pub fn read_set(s: &[u8], at: usize, of: u64) -> Result<(u64, usize), NumberError>
    ensures { as_num result ≡ set_at s.now of at }
{
    read_fitting(s, at, |x| subset(x, of))
}

// A count, or another number, of at most `most`.
pub fn read_count(s: &[u8], at: usize, most: u64) -> Result<(u64, usize), NumberError>
    ensures { as_num result ≡ count_at s.now most at }
{
    read_fitting(s, at, |x| x <= most)
}

// A member of `of`.
pub fn read_member(s: &[u8], at: usize, of: u64) -> Result<(u64, usize), NumberError>
    ensures { as_num result ≡ member_at s.now of at }
{
    read_fitting(s, at, |x| contains(of, x))
}

// The numbers in use, of all that there are, and of each in use its strict juniors.
pub fn read_order(s: &[u8], at: usize, all: u64) -> Result<(Order, usize), NumberError>
    ensures { as_step result ≡ order_at s.now all at }
{
    let (used, first) = read_set(s, at, all)?;
    let mut juniors = [0u64; 64];
    let mut place = first;
    for i in 0..64 {
        if has(used, i) {
            let (x, past) = read_set(s, place, used)?;
            juniors[i] = x;
            place = past;
        }
    }
    Ok((Order { used, juniors }, place))
}

// A count of at most the places there are, and so many things, each where the one before it ends: how many there are, and the place past them.
pub fn read_each<T: Copy, F: Fn(usize) -> Result<(T, usize), NumberError>>(
    s: &[u8],
    at: usize,
    things: &mut [T],
    read: F,
) -> Result<(usize, usize), NumberError>
    requires { F.IsAlwaysCallable read }
    ensures { (item : ℕ → Step T) → Reads (F.post read) item → things_read result things.new ≡ each_at s.now item at things.old }
{
    let (most, first) = read_count(s, at, things.len() as u64)?;
    let count = most as usize;
    let mut place = first;
    for i in 0..count {
        let (thing, past) = read(place)?;
        things[i] = thing;
        place = past;
    }
    Ok((count, place))
}

// The most users that a policy has.
const USERS: u64 = 256;

// The users: of each its roles, inside those in use, and its administrative roles, inside those in use.
pub fn read_people(
    s: &[u8],
    at: usize,
    roles: u64,
    admins: u64,
) -> Result<(People, usize), NumberError>
    ensures { as_step result ≡ people_at s.now roles admins at }
{
    let (most, first) = read_count(s, at, USERS)?;
    let count = most as usize;
    let mut held = [0u64; 256];
    let mut offices = [0u64; 256];
    let mut place = first;
    for i in 0..count {
        let (x, mid) = read_set(s, place, roles)?;
        let (y, past) = read_set(s, mid, admins)?;
        held[i] = x;
        offices[i] = y;
        place = past;
    }
    let users = Members { count, roles: held };
    Ok((People { users, offices }, place))
}

// The permissions: of each its roles, inside those in use.
pub fn read_members(s: &[u8], at: usize, roles: u64) -> Result<(Members, usize), NumberError>
    ensures { as_step result ≡ members_at s.now roles at }
{
    let mut held = [0u64; 256];
    let (count, place) = read_each(s, at, &mut held, |place| read_set(s, place, roles))?;
    Ok((Members { count, roles: held }, place))
}
