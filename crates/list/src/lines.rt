// A line of the listing as text.
ghost use Rattle.std.specs.Prelude.{Some};
ghost use Rattle.list.specs.Lines.{line};

use std::fmt;

// An entry of a user's listing.
#[derive(Clone, Copy)]
pub struct Line {
    pub user: u8,
    pub kind: u8,
    pub a: u8,
    pub b: u8,
}

impl fmt::Display for Line {
    ghost output = { λ l. Some (line l.user l.kind l.a l.b) };

    fn fmt<W: fmt::Write>(&self, f: &mut fmt::Formatter<W>) -> fmt::Result {
        let Line { user, kind, a, b } = *self;
        writeln!(f, "{user} {kind} {a} {b}")
    }
}
