// The tables of the policy file: of each a count, and its rows.
#![tactic(auto)]

ghost use Rattle.std.specs.Prelude.{◌≡◌, ◌<◌};
ghost use Rattle.number.specs.Run.{as_step};
ghost use Rattle.rows.specs.Rows.{range_at, row, table_row_at, table_at, ranges_at};

use number::NumberError;
use policy::{Ranges, Row, Table, empty_ranges, empty_table};
use ranges::{AdminId, ModifyRow, RoleId};
use sections::{read_count, read_each, read_member, read_set};

// What each row begins with: its administrative role, low and high, in use.
fn read_range(
    s: &[u8],
    at: usize,
    roles: u64,
    admins: u64,
) -> Result<(ModifyRow, usize), NumberError>
    ensures { as_step result ≡ range_at s.now roles admins at }
{
    let (admin, second) = read_member(s, at, admins)?;
    let (low, third) = read_member(s, second, roles)?;
    let (high, next) = read_member(s, third, roles)?;
    let range = ModifyRow {
        admin: AdminId(admin as u8),
        low: RoleId(low as u8),
        high: RoleId(high as u8),
    };
    Ok((range, next))
}

// A row of what was read: brackets at most 3.
fn make_row(range: ModifyRow, brackets: u64, needed: u64, barred: u64) -> Row
    requires { brackets < 4 }
    ensures { result ≡ row range brackets needed barred }
{
    let ModifyRow { admin, low, high } = range;
    Row {
        admin,
        low,
        high,
        brackets: brackets as u8,
        needed,
        barred,
    }
}

// A row with brackets; assign says whether it is of a can-assign table, and has a needed and a barred set.
fn read_row(
    s: &[u8],
    at: usize,
    roles: u64,
    admins: u64,
    assign: bool,
) -> Result<(Row, usize), NumberError>
    ensures { as_step result ≡ table_row_at s.now assign roles admins at }
{
    let (range, fourth) = read_range(s, at, roles, admins)?;
    let (brackets, fifth) = read_count(s, fourth, 3)?;
    if !assign {
        return Ok((make_row(range, brackets, 0, 0), fifth));
    }
    let (needed, sixth) = read_set(s, fifth, roles)?;
    let (barred, next) = read_set(s, sixth, roles)?;
    Ok((make_row(range, brackets, needed, barred), next))
}

// A can-assign table, or else a can-revoke table.
pub fn read_table(
    s: &[u8],
    at: usize,
    roles: u64,
    admins: u64,
    assign: bool,
) -> Result<(Table, usize), NumberError>
    ensures { as_step result ≡ table_at s.now assign roles admins at }
{
    let mut table = empty_table();
    let (count, place) = read_each(s, at, &mut table.rows, |place| {
        read_row(s, place, roles, admins, assign)
    })?;
    table.count = count;
    Ok((table, place))
}

// The can-modify table: its rows are ranges alone.
pub fn read_ranges(
    s: &[u8],
    at: usize,
    roles: u64,
    admins: u64,
) -> Result<(Ranges, usize), NumberError>
    ensures { as_step result ≡ ranges_at s.now roles admins at }
{
    let mut ranges = empty_ranges();
    let (count, place) = read_each(s, at, &mut ranges.rows, |place| {
        read_range(s, place, roles, admins)
    })?;
    ranges.count = count;
    Ok((ranges, place))
}
