// A strict order, of roles or of administrative roles: which are in use, and of each the set of its strict juniors.
#![tactic(auto)]

ghost use Rattle.std.specs.Prelude.{◌≡◌, ◌<◌, ◌≤◌, eqb, length, get_or};
ghost use Rattle.sets.specs.Tests.{◌and◌, ◌or◌, neg};
ghost use Rattle.sets.specs.Sets.{has, any, subset, Exactly};
ghost use Rattle.order.specs.Order.{senior, at_least, comparable, reached, faulty, first_fault, edge};
ghost use Rattle.order.specs.Effects.{create, remove, insert, cut_edge};
ghost use Rattle.order.specs.Rows.{Spread, Dropped, Raised, Above};

use sets::{both, contains, lowest, only, subset, union, with, without, without_lowest};

#[derive(Clone, Copy)]
pub struct Order {
    pub used: u64,
    pub juniors: [u64; 64],
}

// The set of all juniors of a. A number that no role has has none.
pub fn juniors_of(juniors: &[u64], a: usize) -> u64
    ensures { result ≡ get_or juniors.now a 0 }
{
    juniors.get(a).copied().unwrap_or(0)
}

// Is a senior to b? A number that no role has is senior to none and junior to none.
#[tactic(auto, unfolding(crate::specs::Order::senior))]
pub fn is_senior(juniors: &[u64], a: usize, b: usize) -> bool
    ensures { result ≡ senior juniors.now a b }
{
    contains(juniors_of(juniors, a), b as u64)
}

// The set of all seniors of b, where those of every role were found: a row of sets is read as one of juniors is.
pub fn seniors_of(above: &[u64], b: usize) -> u64
    ensures { result ≡ get_or above.now b 0 }
{
    juniors_of(above, b)
}

// Is a equal or senior to b?
#[tactic(auto, using(crate::proofs::Joined::joined), unfolding(crate::specs::Order::at_least))]
pub fn is_at_least(juniors: &[u64], a: usize, b: usize) -> bool
    ensures { result ≡ at_least (senior juniors.now) a b }
{
    a == b || is_senior(juniors, a, b)
}

// The set of all seniors of b.
pub fn seniors(juniors: &[u64], b: usize) -> u64
    requires { length juniors.now ≤ 64 }
    ensures { Exactly result (λ a. senior juniors.now a b) }
{
    let mut set = 0;
    for a in 0..juniors.len() {
        if is_senior(juniors, a, b) {
            set = with(set, a);
        }
    }
    set
}

// The set of all seniors of each role, so that who asks it of many roles finds it once.
pub fn all_seniors(juniors: &[u64]) -> [u64; 64]
    requires { length juniors.now ≡ 64 }
    ensures { Above juniors.now result }
{
    let mut above = [0; 64];
    for a in 0..64 {
        raise(&mut above, a, juniors[a]);
    }
    above
}

// Is (a, b) an edge?
#[tactic(auto, using(crate::proofs::Joined::joined), unfolding(crate::specs::Order::edge))]
pub fn is_edge(juniors: &[u64], a: usize, b: usize) -> bool
    requires { length juniors.now ≤ 64 }
    ensures { result ≡ edge (senior juniors.now) a b }
{
    is_senior(juniors, a, b) && both(juniors_of(juniors, a), seniors(juniors, b)) == 0
}

// Has some member of row a junior that row lacks?
fn lacks_one(juniors: &[u64], row: u64) -> bool
    ensures { result ≡ any 64 (λ b. has row b and neg (subset 64 (get_or juniors.now b 0) row)) }
{
    let mut rest = row;
    while rest != 0 {
        let b = lowest(rest);
        if !subset(juniors_of(juniors, b), row) {
            return true;
        }
        rest = without_lowest(rest);
    }
    false
}

#[tactic(auto, using(crate::proofs::Joined::joined), unfolding(crate::specs::Order::faulty))]
fn is_faulty(juniors: &[u64], a: usize) -> bool
    ensures { result ≡ faulty (senior juniors.now) a }
{
    is_senior(juniors, a, a) || lacks_one(juniors, juniors_of(juniors, a))
}

// The first role that is its own senior or has a junior whose junior it lacks; the number of rows where the order is strict.
pub fn first_fault(juniors: &[u64]) -> usize
    requires { length juniors.now ≤ 64 }
    ensures { result ≡ first_fault juniors.now }
{
    let end = juniors.len();
    (0..end).find(|a| is_faulty(juniors, *a)).unwrap_or(end)
}

// What is asked of an order: each of its juniors' sets, which are 64.
impl Order {
    // The set of all juniors of a.
    pub fn juniors_of(&self, a: usize) -> u64
        ensures { result ≡ get_or self.now.juniors a 0 }
    {
        juniors_of(&self.juniors, a)
    }

    // Is a senior to b?
    pub fn is_senior(&self, a: usize, b: usize) -> bool
        ensures { result ≡ senior self.now.juniors a b }
    {
        is_senior(&self.juniors, a, b)
    }

    // Is a equal or senior to b?
    pub fn is_at_least(&self, a: usize, b: usize) -> bool
        ensures { result ≡ at_least (senior self.now.juniors) a b }
    {
        is_at_least(&self.juniors, a, b)
    }

    // Are a and b equal, or one senior to the other?
    #[tactic(auto, using(crate::proofs::Joined::joined), unfolding(crate::specs::Order::comparable, crate::specs::Order::at_least))]
    pub fn is_comparable(&self, a: usize, b: usize) -> bool
        ensures { result ≡ comparable (senior self.now.juniors) a b }
    {
        self.is_at_least(a, b) || self.is_senior(b, a)
    }

    // Is (a, b) an edge?
    pub fn is_edge(&self, a: usize, b: usize) -> bool
        ensures { result ≡ edge (senior self.now.juniors) a b }
    {
        is_edge(&self.juniors, a, b)
    }

    // The set of all seniors of b.
    pub fn seniors(&self, b: usize) -> u64
        ensures { Exactly result (λ a. senior self.now.juniors a b) }
    {
        seniors(&self.juniors, b)
    }

    // The set of all seniors of each role.
    pub fn all_seniors(&self) -> [u64; 64]
        ensures { Above self.now.juniors result }
    {
        all_seniors(&self.juniors)
    }

    // The members of set and all their juniors.
    pub fn reached(&self, set: u64) -> u64
        ensures { result ≡ reached (senior self.now.juniors) set }
    {
        let mut down = set;
        let mut rest = set;
        while rest != 0 {
            let a = lowest(rest);
            down = union(down, self.juniors[a]);
            rest = without_lowest(rest);
        }
        down
    }

    // The first faulty role, 64 where the order is strict.
    pub fn first_fault(&self) -> usize
        ensures { result ≡ first_fault self.now.juniors }
    {
        first_fault(&self.juniors)
    }
}

// What requests make of an order.
impl Order {
    // Kind 5: n, which is free, goes under a and over b.
    pub fn create(self, n: usize, a: usize, b: usize) -> Order
        requires { (n < 64) × (a < 64) × (b < 64) }
        ensures { result ≡ create self n a b }
    {
        let below = with(self.juniors[b], b);
        let mut juniors = self.spread(a, only(n));
        juniors[n] = union(juniors[n], below);
        Order {
            used: with(self.used, n),
            juniors,
        }
    }

    // Kind 6: a goes, and all other pairs stay.
    pub fn remove(self, a: usize) -> Order
        requires { a < 64 }
        ensures { result ≡ remove self a }
    {
        let mut juniors = self.dropped(a);
        juniors[a] = 0;
        Order {
            used: without(self.used, a),
            juniors,
        }
    }

    // Kind 7: a and each senior of a becomes senior to b and to each junior of b.
    pub fn insert(self, a: usize, b: usize) -> Order
        requires { (a < 64) × (b < 64) }
        ensures { result ≡ insert self a b }
    {
        let gained = with(self.juniors[b], b);
        Order {
            used: self.used,
            juniors: self.spread(a, gained),
        }
    }

    // Kind 8: the one pair (a, b) goes.
    pub fn cut_edge(mut self, a: usize, b: usize) -> Order
        requires { (a < 64) × (b < 64) }
        ensures { result ≡ cut_edge self a b }
    {
        self.juniors[a] = without(self.juniors[a], b);
        self
    }

    // Kinds 5 and 7 share this: a and each senior of a becomes senior to each member of gained.
    fn spread(&self, a: usize, gained: u64) -> [u64; 64]
        requires { a < 64 }
        ensures { Spread self.now.juniors a gained result }
    {
        let mut next = self.juniors;
        for x in 0..64 {
            if self.is_at_least(x, a) {
                next[x] = union(next[x], gained);
            }
        }
        next
    }

    // Takes a out of each set of juniors.
    fn dropped(&self, a: usize) -> [u64; 64]
        requires { a < 64 }
        ensures { Dropped self.now.juniors a result }
    {
        let mut next = self.juniors;
        for x in 0..64 {
            next[x] = without(next[x], a);
        }
        next
    }
}

// a, whose juniors are row, joins the seniors of each member of row.
fn raise(above: &mut [u64; 64], a: usize, row: u64)
    requires { a < 64 }
    ensures { Raised above.old a row above.new }
{
    let mut rest = row;
    while rest != 0 {
        let b = lowest(rest);
        above[b] = with(above[b], a);
        rest = without_lowest(rest);
    }
}
