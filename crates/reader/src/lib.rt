// The reader stands on the caller's bytes and keeps its own place in them.
#![tactic(auto)]

ghost use Rattle.std.specs.Prelude.{◌≡◌, Bool, ℕ, ◌<◌, ◌^◌};
ghost use Rattle.number.specs.Number.{num_at, tested, as_num};
ghost use Rattle.number.specs.Run.{as_step};
ghost use Rattle.sections.specs.Sections.{order_at, people_at, members_at};
ghost use Rattle.rows.specs.Rows.{table_at, ranges_at};
ghost use Rattle.reader.specs.Standing.{standing, up_to, StaysOn};

use number::NumberError;
use order::Order;
use policy::{Members, People, Ranges, Table};
use rows::{read_ranges, read_table};
use sections::{read_fitting, read_members, read_order, read_people};

// The file's bytes, the caller's own, and the place of the next number.
#[derive(Clone, Copy)]
pub struct Reader<'a> {
    pub bytes: &'a [u8],
    pub at: usize,
}

// Each method but the first two reads what stands where the reader stands, and gives it with the reader past it.
impl<'a> Reader<'a> {
    // A reader before the first byte.
    pub fn new(bytes: &'a [u8]) -> Reader<'a>
        ensures { result ≡ standing bytes.entry 0 }
    {
        Reader { bytes, at: 0 }
    }

    // The same bytes, from another place on.
    fn past(self, at: usize) -> Reader<'a>
        ensures { result ≡ standing self.entry.bytes at }
    {
        Reader {
            bytes: self.bytes,
            at,
        }
    }

    // A number that passes a test.
    pub fn number<F: FnOnce(u64) -> bool>(self, fits: F) -> Result<(u64, Reader<'a>), NumberError>
        requires { F.IsAlwaysCallable fits }
        ensures read { (test : ℕ → Bool) → ((x : ℕ) (b : Bool) → x < 2 ^ 64 → F.post fits x b → b ≡ test x) → as_num (up_to result) ≡ tested test self.entry.at (num_at self.entry.bytes.now self.entry.at) }
        ensures stays { StaysOn self.entry.bytes result }
    {
        let (number, at) = read_fitting(self.bytes, self.at, fits)?;
        Ok((number, self.past(at)))
    }

    pub fn order(self, all: u64) -> Result<(Order, Reader<'a>), NumberError>
        ensures read { as_step (up_to result) ≡ order_at self.entry.bytes.now all self.entry.at }
        ensures stays { StaysOn self.entry.bytes result }
    {
        let (order, at) = read_order(self.bytes, self.at, all)?;
        Ok((order, self.past(at)))
    }

    pub fn people(self, roles: u64, admins: u64) -> Result<(People, Reader<'a>), NumberError>
        ensures read { as_step (up_to result) ≡ people_at self.entry.bytes.now roles admins self.entry.at }
        ensures stays { StaysOn self.entry.bytes result }
    {
        let (people, at) = read_people(self.bytes, self.at, roles, admins)?;
        Ok((people, self.past(at)))
    }

    pub fn members(self, roles: u64) -> Result<(Members, Reader<'a>), NumberError>
        ensures read { as_step (up_to result) ≡ members_at self.entry.bytes.now roles self.entry.at }
        ensures stays { StaysOn self.entry.bytes result }
    {
        let (members, at) = read_members(self.bytes, self.at, roles)?;
        Ok((members, self.past(at)))
    }

    pub fn table(
        self,
        roles: u64,
        admins: u64,
        assign: bool,
    ) -> Result<(Table, Reader<'a>), NumberError>
        ensures read { as_step (up_to result) ≡ table_at self.entry.bytes.now assign roles admins self.entry.at }
        ensures stays { StaysOn self.entry.bytes result }
    {
        let (table, at) = read_table(self.bytes, self.at, roles, admins, assign)?;
        Ok((table, self.past(at)))
    }

    pub fn ranges(self, roles: u64, admins: u64) -> Result<(Ranges, Reader<'a>), NumberError>
        ensures read { as_step (up_to result) ≡ ranges_at self.entry.bytes.now roles admins self.entry.at }
        ensures stays { StaysOn self.entry.bytes result }
    {
        let (ranges, at) = read_ranges(self.bytes, self.at, roles, admins)?;
        Ok((ranges, self.past(at)))
    }
}
