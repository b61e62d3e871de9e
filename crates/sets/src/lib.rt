// Words as sets of the numbers 0 to 63: k is a member where bit k is set.
//
// The laws stand in specs/, over the width. Assumes nothing.
#![tactic(auto)]

ghost use Rattle.std.specs.Prelude.{◌≡◌, ◌<◌, ◌^◌, ltb};
ghost use Rattle.std.specs.Int.Bits.{bit_or};
ghost use Rattle.paper.specs.Sets.{bit};
ghost use Rattle.paper.specs.Sets;
ghost use Rattle.paper.specs.Table.{within, apart, single};
ghost use Rattle.std.specs.Iterator.{at_most};
ghost use Rattle.sets.specs.Lowest.{cleared, Lowest};

// k is a member of the set.
pub fn has(set: u64, k: u32) -> bool
    requires { k < 64 }
    ensures { result ≡ bit set k }
{
    (set >> k) & 1 == 1
}

// Each member of a is one of b.
pub fn is_within(a: u64, b: u64) -> bool
    ensures { result ≡ within a b }
{
    a & b == a
}

// No member of a is one of b.
pub fn is_apart(a: u64, b: u64) -> bool
    ensures { result ≡ apart a b }
{
    a & b == 0
}

// The set has one member or none.
pub fn is_single(a: u64) -> bool
    ensures { result ≡ single a }
{
    u64::count_ones(a) <= 1
}

// Each member is below n.
pub fn uses_lowest(set: u64, n: u32) -> bool
    ensures { result ≡ ltb set (2 ^ n) }
{
    if n >= 64 {
        return true;
    }
    set >> n == 0
}

// The set of k alone.
pub fn one(k: u32) -> u64
    requires { k < 64 }
    ensures { result ≡ 2 ^ k }
{
    1 << k
}

// The set with k in it.
pub fn with(set: u64, k: u32) -> u64
    requires { k < 64 }
    ensures { result ≡ bit_or set (2 ^ k) }
{
    set | one(k)
}

// The set if the test holds, and else none.
pub fn when(test: bool, set: u64) -> u64
    ensures { result ≡ Sets.when test set }
{
    if test {
        return set;
    }
    0
}

// The set without its lowest member.
pub fn without_lowest(set: u64) -> u64
    requires { 0 < set }
    ensures { result ≡ cleared set }
{
    set & (set - 1)
}

// A walk over the members of a set, the lowest first.
#[derive(Drop)]
pub struct Members(pub u64);

impl Iterator for Members {
    type Item = u32;

    ghost next_gives = { λ s r t. Lowest s.0 r t.0 };

    ghost remaining = { λ s. at_most s.0 };

    // The lowest member of those that are left.
    fn next(&mut self) -> Option<u32> {
        if self.0 == 0 {
            return None;
        }
        let k = u64::trailing_zeros(self.0);
        self.0 = without_lowest(self.0);
        Some(k)
    }
}
