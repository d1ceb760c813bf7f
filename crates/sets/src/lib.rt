// Sets of the numbers 0 to 63, each a u64 with bit n for member n.
#![tactic(auto)]

ghost use Rattle.std.specs.Prelude.{◌≡◌, ◌<◌, eqb};
ghost use Rattle.sets.specs.Sets.{has, Exactly, subset, agreeing, lowest, lowest_free, size};
ghost use Rattle.sets.specs.Tests.{◌and◌, ◌or◌, neg};

// Is n a member of s?
pub fn has(s: u64, n: usize) -> bool
    requires { n < 64 }
    ensures { result ≡ has s n }
{
    (s >> n) % 2 == 1
}

// The same for any number: one of 64 or more is a member of no set.
pub fn contains(s: u64, n: u64) -> bool
    ensures { result ≡ has s n }
{
    n < 64 && has(s, n as usize)
}

// The set of n alone.
pub fn only(n: usize) -> u64
    requires { n < 64 }
    ensures { Exactly result (λ m. eqb m n) }
{
    1 << n
}

// The set s with n.
pub fn with(s: u64, n: usize) -> u64
    requires { n < 64 }
    ensures { Exactly result (λ m. eqb m n or has s m) }
{
    (1 << n) | s
}

// The set s without n.
pub fn without(s: u64, n: usize) -> u64
    requires { n < 64 }
    ensures { Exactly result (λ m. has s m and neg (eqb m n)) }
{
    s & !(1 << n)
}

// What is in s or in t.
pub fn union(s: u64, t: u64) -> u64
    ensures { Exactly result (λ m. has s m or has t m) }
{
    s | t
}

// What is in s and in t.
pub fn both(s: u64, t: u64) -> u64
    ensures { Exactly result (λ m. has s m and has t m) }
{
    s & t
}

// What is in s and not in t.
pub fn minus(s: u64, t: u64) -> u64
    ensures { Exactly result (λ m. has s m and neg (has t m)) }
{
    s & !t
}

// Is each member of s one of t?
pub fn subset(s: u64, t: u64) -> bool
    ensures { result ≡ subset 64 s t }
{
    minus(s, t) == 0
}

// Have s and t the same members among those of on?
pub fn agree(s: u64, t: u64, on: u64) -> bool
    ensures { result ≡ agreeing 64 s t on }
{
    s & on == t & on
}

// The lowest member of s, 64 where there is none.
pub fn lowest(s: u64) -> usize
    ensures { result ≡ lowest 64 s }
{
    u64::trailing_zeros(s) as usize
}

// The set s without its lowest member: who goes through a set takes its members one by one so, in as many steps as it has.
pub fn without_lowest(s: u64) -> u64
    requires { 0 < s }
    ensures { (result < s) × Exactly result (λ m. has s m and neg (eqb m (lowest 64 s))) }
{
    s & (s - 1)
}

// The lowest number that is no member of s: trailing zeros of the free set, 64 where none is free.
pub fn lowest_free(s: u64) -> usize
    ensures { result ≡ lowest_free 64 s }
{
    u64::trailing_zeros(!s) as usize
}

// How many members s has.
pub fn size(s: u64) -> u32
    ensures { result ≡ size 64 s }
{
    u64::count_ones(s)
}
