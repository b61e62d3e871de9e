// Seven-bit numbers: one is read at a place of a slice of bytes, its bytes are counted, and it is stored at a place.
//
// Nothing is asked of the bytes that are read: a number that is not whole, not of the shortest form or too long is `None`.
// Assumes nothing.
#![tactic(auto)]

ghost use Rattle.std.specs.Prelude.{◌≡◌, ◌<◌, length, drop};
ghost use Rattle.paper.specs.Files.{bytes_of, second, third};
ghost use Rattle.numbers.specs.At.{placed, num_at};
ghost use Rattle.numbers.specs.Store.{Storable, stored};

// A number that stands at a place, and the place after it.
#[derive(Clone, Copy)]
pub struct Num {
    pub value: u32,
    pub next: usize,
}

// The third byte; the two before it carry v.
fn third_at(s: &[u8], at: usize, v: u32) -> Option<Num>
    requires { v < 16384 }
    ensures { result ≡ placed (length s.now) (third v (drop at s.now)) }
{
    let c = *s.get(at)? as u32;
    if c == 0 || c >= 128 {
        return None;
    }
    Some(Num {
        value: v + c * 16384,
        next: at + 1,
    })
}

// The second byte; the one before it carries v.
fn second_at(s: &[u8], at: usize, v: u32) -> Option<Num>
    requires { v < 128 }
    ensures { result ≡ placed (length s.now) (second v (drop at s.now)) }
{
    let b = *s.get(at)? as u32;
    if b == 0 {
        return None;
    }
    if b < 128 {
        return Some(Num {
            value: v + b * 128,
            next: at + 1,
        });
    }
    third_at(s, at + 1, v + (b - 128) * 128)
}

// The number at a place of s.
#[tactic(auto, unfolding(crate::specs::At::num_at, paper::specs::Files::front))]
pub fn number_at(s: &[u8], at: usize) -> Option<Num>
    ensures { result ≡ num_at s.now at }
{
    let a = *s.get(at)? as u32;
    if a < 128 {
        return Some(Num {
            value: a,
            next: at + 1,
        });
    }
    second_at(s, at + 1, a - 128)
}

// How many bytes n takes.
pub fn width(n: u32) -> usize
    ensures { result ≡ length (bytes_of n) }
{
    if n < 128 {
        return 1;
    }
    if n < 16384 {
        return 2;
    }
    3
}

// The bytes of n go into s from place `at` on; the place after them.
pub fn put_number(s: &mut [u8], at: usize, n: u32) -> usize
    requires { Storable s.old at n }
    ensures { (result, s.new) ≡ stored s.old at n }
{
    if n < 128 {
        s[at] = n as u8;
        return at + 1;
    }
    s[at] = (128 + n % 128) as u8;
    if n < 16384 {
        s[at + 1] = (n / 128) as u8;
        return at + 2;
    }
    s[at + 1] = (128 + n / 128 % 128) as u8;
    s[at + 2] = (n / 16384) as u8;
    at + 3
}
