// How many vectors agree, by what they are of and by outcome, and how many differ.
ghost use Rattle.std.specs.Prelude.{◌<◌};

use requests::Kind;
use std::fmt;
use std::num::wrapping_add_u64;

// The outcomes that are counted: 0 to 27.
const OUTCOMES: usize = 28;

// What a vector is of.
#[derive(Clone, Copy)]
pub enum Row {
    File,
    Request(Kind),
    UnknownKind,
    Listing,
    Table,
}

pub const ROWS: [Row; 12] = [
    Row::File,
    Row::Request(Kind::AssignUser),
    Row::Request(Kind::RevokeUser),
    Row::Request(Kind::AssignPermission),
    Row::Request(Kind::RevokePermission),
    Row::Request(Kind::CreateRole),
    Row::Request(Kind::DeleteRole),
    Row::Request(Kind::InsertEdge),
    Row::Request(Kind::DeleteEdge),
    Row::UnknownKind,
    Row::Listing,
    Row::Table,
];

impl Row {
    // The row's place among all rows.
    fn index(self) -> usize
        ensures { result < 12 }
    {
        match self {
            Row::File => 0,
            Row::Request(kind) => kind as usize,
            Row::UnknownKind => 9,
            Row::Listing => 10,
            Row::Table => 11,
        }
    }
}

impl fmt::Display for Row {
    fn fmt<W: fmt::Write>(&self, f: &mut fmt::Formatter<W>) -> fmt::Result {
        match *self {
            Row::File => f.write_str("file"),
            Row::Request(kind) => write!(f, "kind {}", kind as u64),
            Row::UnknownKind => f.write_str("unknown kind"),
            Row::Listing => f.write_str("listing"),
            Row::Table => f.write_str("table"),
        }
    }
}

// What the module and the vector agree on.
#[derive(Clone, Copy)]
pub struct Agreed {
    pub row: Row,
    pub outcome: u64,
    // The place that the answer gives, which only a file's has.
    pub place: Option<u64>,
}

// The lowest and the highest place that was given.
#[derive(Clone, Copy)]
struct Places {
    lowest: u64,
    highest: u64,
}

// How many vectors agree, and which places their answers give.
#[derive(Clone, Copy)]
pub struct Count {
    pub vectors: u64,
    places: Option<Places>,
}

impl Count {
    fn add(&mut self, place: Option<u64>) {
        self.vectors = wrapping_add_u64(self.vectors, 1);
        if let Some(place) = place {
            self.places = Some(match self.places {
                Some(seen) => Places {
                    lowest: seen.lowest.min(place),
                    highest: seen.highest.max(place),
                },
                None => Places {
                    lowest: place,
                    highest: place,
                },
            });
        }
    }
}

impl fmt::Display for Count {
    fn fmt<W: fmt::Write>(&self, f: &mut fmt::Formatter<W>) -> fmt::Result {
        write!(f, "{}", self.vectors)?;
        match self.places {
            Some(Places { lowest, highest }) => write!(f, ", places {lowest} to {highest}"),
            None => Ok(()),
        }
    }
}

#[derive(Clone, Copy)]
pub struct Tally {
    // Of each row and each outcome.
    pub counts: [[Count; OUTCOMES]; 12],
    // How many vectors differ.
    pub differences: u64,
}

impl Tally {
    pub fn new() -> Tally {
        let none = Count {
            vectors: 0,
            places: None,
        };
        Tally {
            counts: [[none; OUTCOMES]; 12],
            differences: 0,
        }
    }

    // Counts a vector: what was agreed on, or that it differs.
    pub fn note(&mut self, agreed: Option<Agreed>) {
        match agreed {
            Some(v) if v.outcome < 28 => self.counts[v.row.index()][v.outcome as usize].add(
                v.place,
            ),
            _ => self.differences = wrapping_add_u64(self.differences, 1),
        }
    }
}
