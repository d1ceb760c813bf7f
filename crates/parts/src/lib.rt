// The part of the caller's own policy file that one table is.
#![tactic(auto)]

ghost use Rattle.std.specs.Prelude.{◌≡◌};
ghost use Rattle.parts.specs.declared.PartError.TheVariants as error;
ghost use Rattle.parts.specs.Parts.{Names, start_of, end_of, table_number, as_part, part_at, part_bytes};

use reading::{FileError, Places, no_file, read_file};

// The five tables, in the order of the file.
#[derive(Clone, Copy, PartialEq, Eq, Debug)]
pub enum TableName {
    Assign,
    Revoke,
    Assignp,
    Revokep,
    Modify,
}

// Why no part is found.
#[derive(Clone, Copy, PartialEq, Eq, Debug)]
pub enum PartError {
    // 1: no table has the number.
    NoTable,
    // The file's own refusal.
    File(FileError),
}

impl From<FileError> for PartError {
    ghost from_gives = { λ e f. f ≡ error.File e };

    fn from(e: FileError) -> PartError {
        PartError::File(e)
    }
}

// The number of the first table.
const FIRST: u64 = 1;

impl TryFrom<u64> for TableName {
    type Error = PartError;

    ghost try_from_gives = { Names };

    fn try_from(number: u64) -> Result<TableName, PartError> {
        if number < FIRST {
            return Err(PartError::NoTable);
        }
        let place = number - FIRST;
        match place {
            0 => Ok(TableName::Assign),
            1 => Ok(TableName::Revoke),
            2 => Ok(TableName::Assignp),
            3 => Ok(TableName::Revokep),
            4 => Ok(TableName::Modify),
            _ => Err(PartError::NoTable),
        }
    }
}

// Where a table starts, and where it ends: where the next one starts.
fn ends_of(places: Places, table: TableName) -> (usize, usize)
    ensures { result ≡ (start_of places (table_number table), end_of places (table_number table)) }
{
    match table {
        TableName::Assign => (places.assign, places.revoke),
        TableName::Revoke => (places.revoke, places.assignp),
        TableName::Assignp => (places.assignp, places.revokep),
        TableName::Revokep => (places.revokep, places.modify),
        TableName::Modify => (places.modify, places.end),
    }
}

// Where a table stands, for any number: the place of its first byte, and how many bytes it has.
pub fn find_part(s: &[u8], number: u64) -> Result<(usize, usize), PartError>
    ensures { as_part result ≡ part_at s.now number }
{
    let table = TableName::try_from(number)?;
    let mut file = no_file();
    read_file(s, &mut file)?;
    let (start, end) = ends_of(file.places, table);
    Ok((start, end - start))
}

// The table's bytes themselves; nothing where it is refused.
pub fn table_part(s: &[u8], number: u64) -> &[u8]
    ensures { result.now ≡ part_bytes s.now number }
{
    match find_part(s, number) {
        Ok((start, len)) => &s[start..start + len],
        Err(_) => &s[..0],
    }
}
