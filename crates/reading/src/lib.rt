// The policy file, whole: its sections in document 01's order, then what is looked at once all of it is read.
#![tactic(auto)]

ghost use Rattle.std.specs.Prelude.{◌≡◌, ◌≤◌, eqb, ltb, length};
ghost use Rattle.sets.specs.Tests.{pick};
ghost use Rattle.faults.specs.Faults.{fault};
ghost use Rattle.reading.specs.declared.FileError.TheVariants.{Number};
ghost use Rattle.reading.specs.File.{Accepted, Refused, front_at, rest_at, places, file_at, no_file, error_number, error_place, as_how, read_policy};
ghost use Rattle.reading.specs.Joined.{front_of, FrontGiven, RestGiven, judgement, FileGiven};

use faults::{Fault, find_fault};
use number::NumberError;
use policy::{Orders, Policy, Ranges, empty_policy};
use reader::Reader;

// The numbers that roles and administrative roles can have, as sets.
const ROLES: u64 = 0xFFFF_FFFF_FFFF_FFFF;

const ADMINS: u64 = 0xFFFF;

// Where each table starts, and where the last one ends.
#[derive(Clone, Copy)]
pub struct Places {
    pub assign: usize,
    pub revoke: usize,
    pub assignp: usize,
    pub revokep: usize,
    pub modify: usize,
    pub end: usize,
}

// A policy file: the policy, and where its tables stand.
#[derive(Clone, Copy)]
pub struct File {
    pub policy: Policy,
    pub places: Places,
}

// Why a file is refused.
#[derive(Clone, Copy, PartialEq, Eq, Debug)]
pub enum FileError {
    // 20 to 22: a number is cut short or malformed, or is none that may stand there.
    Number(NumberError),
    // 27: bytes are left over, from this place on.
    LeftOver(usize),
    // 23 to 26: an order is not strict, or a can-modify range is unsound.
    Fault(Fault),
}

impl FileError {
    // Document 01's number of the refusal.
    pub fn number(self) -> u64
        ensures { result ≡ error_number self }
    {
        match self {
            FileError::Number(e) => e.number(),
            FileError::LeftOver(_) => 27,
            FileError::Fault(fault) => u64::from(fault.number()),
        }
    }

    // Its place: 0 for a fault.
    pub fn place(self) -> usize
        ensures { result ≡ error_place self }
    {
        match self {
            FileError::Number(e) => e.place(),
            FileError::LeftOver(place) => place,
            FileError::Fault(_) => 0,
        }
    }
}

impl From<NumberError> for FileError {
    ghost from_gives = { λ e f. f ≡ Number e };

    fn from(e: NumberError) -> FileError {
        FileError::Number(e)
    }
}

// The first number, both orders, users and permissions, each into its place in the policy: the reader goes from each to the next. It is not inlined, so
// that the sections that it holds on the way are off the stack before the tables are read.
#[inline(never)]
fn read_front<'a>(r: Reader<'a>, policy: &mut Policy) -> Result<Reader<'a>, NumberError>
    ensures { FrontGiven (front_at r.entry.bytes.now r.entry.at) r.entry.bytes result policy.new }
{
    let (_, a) = r.number(|x| x == 1)?;
    let (roles, b) = a.order(ROLES)?;
    policy.orders.roles = roles;
    let (admins, c) = b.order(ADMINS)?;
    policy.orders.admins = admins;
    let (people, d) = c.people(roles.used, admins.used)?;
    policy.people = people;
    let (permissions, e) = d.members(roles.used)?;
    policy.permissions = permissions;
    Ok(e)
}

// The five tables, each into its place in the file, and the place past them. It is not inlined, as read_front is not.
#[inline(never)]
fn read_rest<'a>(a: Reader<'a>, file: &mut File) -> Result<usize, NumberError>
    ensures { RestGiven (rest_at a.entry.bytes.now file.old.policy.orders.roles.used file.old.policy.orders.admins.used a.entry.at) (front_of file.old.policy) result file.new }
{
    let roles = file.policy.orders.roles.used;
    let admins = file.policy.orders.admins.used;
    let (assign, b) = a.table(roles, admins, true)?;
    let (revoke, c) = b.table(roles, admins, false)?;
    let (assignp, d) = c.table(roles, admins, true)?;
    let (revokep, e) = d.table(roles, admins, false)?;
    let (modify, g) = e.ranges(roles, admins)?;
    file.policy.tables.assign = assign;
    file.policy.tables.revoke = revoke;
    file.policy.tables.assignp = assignp;
    file.policy.tables.revokep = revokep;
    file.policy.modify = modify;
    file.places = Places {
        assign: a.at,
        revoke: b.at,
        assignp: c.at,
        revokep: d.at,
        modify: e.at,
        end: g.at,
    };
    Ok(g.at)
}

// 27: the reading went to the file's end.
fn nothing_left(s: &[u8], end: usize) -> Result<(), FileError>
    ensures { as_how result ≡ pick (ltb end (length s.now)) (Refused 27 end) Accepted }
{
    let left_over = end < s.len();
    if left_over {
        return Err(FileError::LeftOver(end));
    }
    Ok(())
}

// 23 to 26: neither the orders nor the ranges have a fault.
fn no_fault(orders: Orders, modify: Ranges) -> Result<(), FileError>
    requires { modify.count ≤ 64 }
    ensures { as_how result ≡ pick (eqb (fault orders modify) 0) Accepted (Refused (fault orders modify) 0) }
{
    match find_fault(orders, modify) {
        Some(fault) => Err(FileError::Fault(fault)),
        None => Ok(()),
    }
}

// What is looked at once all is read: the first of the two that is refused is the answer.
fn judge(s: &[u8], end: usize, orders: Orders, modify: Ranges) -> Result<(), FileError>
    requires { modify.count ≤ 64 }
    ensures { as_how result ≡ judgement s.now end orders modify }
{
    nothing_left(s, end)?;
    no_fault(orders, modify)
}

// A file with nothing in it, to be read into.
pub fn no_file() -> File
    ensures { result ≡ no_file }
{
    let policy = empty_policy();
    File {
        policy,
        places: Places {
            assign: 0,
            revoke: 0,
            assignp: 0,
            revokep: 0,
            modify: 0,
            end: 0,
        },
    }
}

// The policy, and where its tables stand: one reader goes through the file.
pub fn read_file(s: &[u8], file: &mut File) -> Result<(), FileError>
    ensures { FileGiven (file_at s.now) result file.new }
{
    let r = read_front(Reader::new(s), &mut file.policy)?;
    let end = read_rest(r, file)?;
    judge(s, end, file.policy.orders, file.policy.modify)
}

// A refused read yields a policy with nothing in it.
pub fn read_policy(s: &[u8], policy: &mut Policy) -> Result<(), FileError>
    ensures how { as_how result ≡ (read_policy s.now).how }
    ensures policy { policy.new ≡ (read_policy s.now).policy }
{
    *policy = empty_policy();
    let mut file = no_file();
    read_file(s, &mut file)?;
    *policy = file.policy;
    Ok(())
}
