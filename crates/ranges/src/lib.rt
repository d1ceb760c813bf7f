// Authority ranges and ranges with brackets, over an order of 64 roles, and the checks of all can-modify rows.
#![tactic(auto)]

ghost use Rattle.std.specs.Prelude.{◌≡◌, Bool, true, ℕ, ◌<◌, ◌≤◌, eqb, ltb, length};
ghost use Rattle.sets.specs.Tests.{◌and◌, ◌or◌, neg, ◌implies◌, ◌iff◌};
ghost use Rattle.sets.specs.Sets.{has, all, any, Exactly};
ghost use Rattle.order.specs.Order.{senior};
ghost use Rattle.order.specs.Rows.{Above};
ghost use Rattle.ranges.specs.declared.Look.TheVariants.{Either};
ghost use Rattle.ranges.specs.Ranges.{in_range, encapsulated, parted, parted_by_ends, overlap_in_part};
ghost use Rattle.ranges.specs.Rows.{row_at, within, low_not_junior, not_encapsulated, row_fails};
ghost use Rattle.ranges.specs.Rows.{first_failing, overlap, overlap_from, first_overlap, unsound};
ghost use Rattle.ranges.specs.After.{SameAt, SameOutside, SoundBefore, RowBefore, EndsStay, KeptRow, RangesStay, RangeSets, cut_from, some_cut};

use order::{Order, is_senior, juniors_of, seniors_of};
use sets::{agree, both, has, lowest, minus, union, with, without_lowest};

#[derive(Clone, Copy)]
pub struct RoleId(pub u8);

#[derive(Clone, Copy)]
pub struct AdminId(pub u8);

#[derive(Clone, Copy)]
pub struct ModifyRow {
    pub admin: AdminId,
    pub low: RoleId,
    pub high: RoleId,
}

// Which test of a can-modify row is looked for.
#[derive(Clone, Copy)]
pub enum Look {
    // 24: low is not junior to high
    Low,
    // 25: the range is not encapsulated
    Open,
    // 9: either of the two
    Either,
}

// Is a the same as b, where that counts, or senior to b?
fn at_or_over(juniors: &[u64], a: usize, b: usize, same: bool) -> bool
    ensures { result ≡ ((eqb a b and same) or senior juniors.now a b) }
{
    (a == b && same) || is_senior(juniors, a, b)
}

// The one routine that says whether a role is in a range; a strict range has brackets 0.
pub fn in_range(juniors: &[u64], low: RoleId, high: RoleId, brackets: u8, r: usize) -> bool
    ensures { result ≡ in_range (senior juniors.now) low.0 high.0 brackets r }
{
    let ends = brackets as u64;
    let bottom = low.0 as usize;
    let top = high.0 as usize;
    at_or_over(juniors, r, bottom, has(ends, 0)) && at_or_over(juniors, top, r, has(ends, 1))
}

// The set with one end more; an end that no role has adds nothing.
fn with_end(set: u64, end: usize) -> u64
    ensures { (m : ℕ) → m < 64 → has result m ≡ (eqb m end or has set m) }
{
    if end < 64 { with(set, end) } else { set }
}

// Do two ranges overlap in part: do they share a role, and has each one that the other lacks?
fn cut_across(range: u64, other: u64) -> bool
    ensures { result ≡ overlap_in_part (has range) (has other) }
{
    both(range, other) != 0 && minus(range, other) != 0 && minus(other, range) != 0
}

// The roles in use, of each role its juniors, and of each its seniors: found once, and lent to all checks of the rows.
#[derive(Clone, Copy)]
pub struct Ranking<'a> {
    pub used: u64,
    pub juniors: &'a [u64],
    pub seniors: &'a [u64],
    ghost above: { Above juniors.now seniors.now },
}

// The tests of a range, and of the rows.
impl<'a> Ranking<'a> {
    ghost use Rattle.ranges.specs.Ranking.{over, order_of};

    // Roles in use, of each role its juniors, and its seniors, which were found: as many of either as there are.
    pub fn on(used: u64, juniors: &'a [u64], seniors: &'a [u64]) -> Ranking<'a>
        requires { Above juniors.now seniors.now }
        ensures { (order_of result ≡ record { used = used; juniors = juniors.now }) × (result.seniors.now ≡ seniors.now) }
    {
        Ranking {
            used,
            juniors,
            seniors,
        }
    }

    // An order, whose seniors were found, as a ranking.
    pub fn of(order: &'a Order, seniors: &'a [u64]) -> Ranking<'a>
        requires { Above order.now.juniors seniors.now }
        ensures { (order_of result ≡ order.now) × (result.seniors.now ≡ seniors.now) }
    {
        Ranking::on(order.used, &order.juniors, seniors)
    }

    // The roles strictly between low and high of a row: the juniors of high among the seniors of low.
    pub fn range_set(self, row: ModifyRow) -> u64
        ensures { Exactly result (within (over self.entry) row) }
    {
        let bottom = row.low.0 as usize;
        let top = row.high.0 as usize;
        both(
            seniors_of(self.seniors, bottom),
            juniors_of(self.juniors, top),
        )
    }

    // Of the roles outside, has r above it exactly those of above, and below it exactly those of below?
    fn is_parted(self, r: usize, outside: u64, above: u64, below: u64) -> bool
        ensures { result ≡ parted (over self.entry) r (has outside) (has above) (has below) }
    {
        agree(seniors_of(self.seniors, r), above, outside)
            && agree(juniors_of(self.juniors, r), below, outside)
    }

    // The same of each role of a range.
    fn each_parted(self, range: u64, outside: u64, above: u64, below: u64) -> bool
        ensures { result ≡ all 64 (λ r. has range r implies parted (over self.entry) r (has outside) (has above) (has below)) }
    {
        let mut rest = range;
        while rest != 0 {
            if !self.is_parted(lowest(rest), outside, above, below) {
                return false;
            }
            rest = without_lowest(rest);
        }
        true
    }

    // Is each role of a set parted so from the roles outside by the two ends of a row's range?
    fn parted_by_ends(self, row: ModifyRow, set: u64, outside: u64) -> bool
        ensures { result ≡ parted_by_ends (over self.entry) row.low.0 row.high.0 set outside }
    {
        let bottom = row.low.0 as usize;
        let top = row.high.0 as usize;
        let above = with_end(seniors_of(self.seniors, top), top);
        let below = with_end(juniors_of(self.juniors, bottom), bottom);
        self.each_parted(set, outside, above, below)
    }

    // Is the range of a row encapsulated among the roles in use?
    pub fn is_encapsulated(self, row: ModifyRow) -> bool
        ensures { result ≡ encapsulated self.entry.used (over self.entry) row.low.0 row.high.0 }
    {
        let range = self.range_set(row);
        self.parted_by_ends(row, range, minus(self.used, range))
    }

    // 24: is low of a row not junior to high?
    fn low_not_junior(self, row: ModifyRow) -> bool
        ensures { result ≡ low_not_junior (over self.entry) row }
    {
        let bottom = row.low.0 as usize;
        let top = row.high.0 as usize;
        !is_senior(self.juniors, top, bottom)
    }

    // 25: is the range of a row not encapsulated?
    fn not_encapsulated(self, row: ModifyRow) -> bool
        ensures { result ≡ not_encapsulated self.entry.used (over self.entry) row }
    {
        !self.is_encapsulated(row)
    }

    // Does a row fail the test that is looked for?
    pub fn row_fails(self, row: ModifyRow, look: Look) -> bool
        ensures { result ≡ row_fails look self.entry.used (over self.entry) row }
    {
        match look {
            Look::Low => self.low_not_junior(row),
            Look::Open => self.not_encapsulated(row),
            Look::Either => self.low_not_junior(row) || self.not_encapsulated(row),
        }
    }

    // Does the range of a row overlap another in part?
    pub fn overlaps(self, range: u64, row: ModifyRow) -> bool
        ensures { result ≡ overlap_in_part (has range) (within (over self.entry) row) }
    {
        cut_across(range, self.range_set(row))
    }

    // The first of the rows that fails the test that is looked for; their count where none does.
    pub fn first_failing(self, rows: &[ModifyRow], look: Look) -> usize
        ensures { result ≡ first_failing look self.entry.used (over self.entry) (length rows.now) rows.now }
    {
        rows.iter()
            .position(|row| self.row_fails(*row, look))
            .unwrap_or(rows.len())
    }

    // The first of the rows, from a place on, that overlaps a range in part; their count where none does.
    fn overlap_from(self, rows: &[ModifyRow], from: usize, range: u64) -> usize
        ensures { result ≡ overlap_from (over self.entry) (length rows.now) rows.now from (has range) }
    {
        let end = rows.len();
        (from..end)
            .find(|j| self.overlaps(range, rows[*j]))
            .unwrap_or(end)
    }

    // Does the row at a place overlap a later one in part?
    fn overlaps_later(self, rows: &[ModifyRow], i: usize) -> bool
        requires { i < length rows.now }
        ensures { result ≡ any (length rows.now) (λ j. ltb i j and overlap (over self.entry) (row_at rows.now i) (row_at rows.now j)) }
    {
        self.overlap_from(rows, i + 1, self.range_set(rows[i])) < rows.len()
    }

    // The first row that overlaps a later one in part; the rows' count where none does.
    pub fn first_overlap(self, rows: &[ModifyRow]) -> usize
        ensures { result ≡ first_overlap (over self.entry) (length rows.now) rows.now }
    {
        (0..rows.len())
            .find(|i| self.overlaps_later(rows, *i))
            .unwrap_or(rows.len())
    }

    // Is some range unsound: low not junior to high, not encapsulated, or two overlapping in part?
    pub fn spoils_some(self, rows: &[ModifyRow]) -> bool
        ensures { result ≡ unsound self.entry.used (over self.entry) (length rows.now) rows.now }
    {
        let count = rows.len();
        self.first_failing(rows, Look::Either) < count || self.first_overlap(rows) < count
    }
}

// Is some range unsound in an order? Its seniors are found first.
pub fn is_unsound(rows: &[ModifyRow], order: &Order) -> bool
    ensures { result ≡ unsound order.now.used (senior order.now.juniors) (length rows.now) rows.now }
{
    let seniors = order.all_seniors();
    Ranking::of(order, &seniors).spoils_some(rows)
}

// Does a set from a place on overlap a range in part?
fn cut_from(sets: &[u64], from: usize, range: u64) -> bool
    ensures { result ≡ cut_from sets.now from range }
{
    (from..sets.len()).any(|j| cut_across(range, sets[j]))
}

// Does some set overlap a later one in part?
fn some_cut(sets: &[u64]) -> bool
    ensures { result ≡ some_cut sets.now }
{
    (0..sets.len()).any(|i| cut_from(sets, i + 1, sets[i]))
}

// The roles that are in one of two sets and not in the other.
fn difference(s: u64, t: u64) -> u64
    ensures { Exactly result (λ m. neg (has s m iff has t m)) }
{
    union(minus(s, t), minus(t, s))
}

// What a change does to the rows: self is the ranking before it, and after the one after it.
impl<'a> Ranking<'a> {
    ghost use Rattle.ranges.specs.Ranking.{over};

    // The roles to which r does not stand as it did before a change: those whose place among its juniors or its seniors is another.
    fn differing_at(self, after: Ranking<'a>, r: usize) -> u64
        ensures { SameAt (over self.entry) (over after.entry) result r }
    {
        let below = difference(juniors_of(self.juniors, r), juniors_of(after.juniors, r));
        let above = difference(seniors_of(self.seniors, r), seniors_of(after.seniors, r));
        union(below, above)
    }

    // The same for some role that was in use.
    fn differing(self, after: Ranking<'a>) -> u64
        ensures { SameOutside self.entry.used (over self.entry) (over after.entry) result }
    {
        let mut set: u64 = 0;
        let mut rest = self.used;
        while rest != 0 {
            let more = self.differing_at(after, lowest(rest));
            set = union(set, more);
            rest = without_lowest(rest);
        }
        set
    }

    // Is low of a row junior to high after a change, with the seniors of high and the juniors of low that there were before?
    fn ends_stay(self, after: Ranking<'a>, row: ModifyRow) -> bool
        ensures { result ≡ true → EndsStay (over self.entry) (over after.entry) row }
    {
        let bottom = row.low.0 as usize;
        let top = row.high.0 as usize;
        is_senior(after.juniors, top, bottom)
            && seniors_of(self.seniors, top) == seniors_of(after.seniors, top)
            && juniors_of(self.juniors, bottom) == juniors_of(after.juniors, bottom)
    }

    // Does a change leave all that says that a row's range is encapsulated, but for roles that were not in use before?
    fn is_kept(
        self,
        after: Ranking<'a>,
        row: ModifyRow,
        range: u64,
        outside: u64,
        differs: u64,
    ) -> bool
        ensures { result ≡ true → KeptRow self.entry.used (over self.entry) (over after.entry) row range outside differs }
    {
        self.ends_stay(after, row)
            && agree(range, self.range_set(row), self.used)
            && both(differs, outside) == 0
    }

    // Does a row that was sound before a change fail after it? One that is kept is asked about the roles that are new in its range only.
    fn fails_after(self, after: Ranking<'a>, row: ModifyRow, differs: u64) -> bool
        requires { RowBefore self.used (over self) (over after) differs row }
        ensures { result ≡ row_fails Either after.entry.used (over after.entry) row }
    {
        let used = self.used;
        let present = after.used;
        let range = after.range_set(row);
        let outside = minus(present, range);
        if !self.is_kept(after, row, range, outside, differs) {
            return after.row_fails(row, Look::Either);
        }
        let fresh = minus(range, used);
        fresh != 0 && !after.parted_by_ends(row, fresh, outside)
    }

    // Does some row fail after a change?
    fn some_fails_after(self, after: Ranking<'a>, rows: &[ModifyRow]) -> bool
        requires { SoundBefore rows.now self.used (over self) }
        ensures { result ≡ any (length rows.now) (λ i. row_fails Either after.entry.used (over after.entry) (row_at rows.now i)) }
    {
        let differs = self.differing(after);
        (0..rows.len()).any(|i| self.fails_after(after, rows[i], differs))
    }

    // Is the range of a row the same set after a change as before it?
    fn range_stays(self, after: Ranking<'a>, row: ModifyRow) -> bool
        ensures { result ≡ true → (r : ℕ) → within (over after.entry) row r ≡ within (over self.entry) row r }
    {
        self.range_set(row) == after.range_set(row)
    }

    // The same of each row.
    fn ranges_stay(self, after: Ranking<'a>, rows: &[ModifyRow]) -> bool
        ensures { result ≡ true → RangesStay (over self.entry) (over after.entry) (length rows.now) rows.now }
    {
        rows.iter().all(|row| self.range_stays(after, *row))
    }

    // The range of each row, at the row's place.
    fn range_sets(self, rows: &[ModifyRow]) -> [u64; 64]
        requires { length rows.now ≤ 64 }
        ensures { RangeSets (over self.entry) (length rows.now) rows.now result }
    {
        let mut sets = [0; 64];
        for i in 0..rows.len() {
            sets[i] = self.range_set(rows[i]);
        }
        sets
    }

    // Do two ranges overlap in part? Of the 64 rows that a policy has at most each range is found once, and not anew for each two.
    fn two_cut(self, rows: &[ModifyRow]) -> bool
        ensures { result ≡ any (length rows.now) (λ i. any (length rows.now) (λ j. overlap (over self.entry) (row_at rows.now i) (row_at rows.now j))) }
    {
        let count = rows.len();
        if 64 < count {
            return self.first_overlap(rows) < count;
        }
        let sets = self.range_sets(rows);
        some_cut(&sets[..count])
    }

    // Is some range unsound after a change, where each was sound before it? Two can overlap only where some range has changed.
    pub fn is_unsound_after(self, after: Ranking<'a>, rows: &[ModifyRow]) -> bool
        requires { SoundBefore rows.now self.used (over self) }
        ensures { result ≡ unsound after.entry.used (over after.entry) (length rows.now) rows.now }
    {
        self.some_fails_after(after, rows)
            || (!self.ranges_stay(after, rows) && after.two_cut(rows))
    }
}
