// A field of bits that says which values were met: bit v % 64 of word v / 64 is set where v was.
//
// The field is lent by the caller. One of WORDS words has a bit for each value that a token can have. The laws stand in specs/, over the
// length. Assumes nothing.
#![tactic(auto)]

ghost use Rattle.std.specs.Prelude.{◌≡◌, ◌/◌, ◌^◌, ◌<◌, length, cond};
ghost use Rattle.std.specs.Int.Bits.{bit_or, bit_xor};
ghost use Rattle.field.specs.Field.{marked, mark, unmark, Noted};

use sets::{has, one, with};

// So many values have a bit in one word.
const IN_WORD: u32 = 64;

// 65,536 bits.
pub const WORDS: usize = 1024;

// The value is marked.
pub fn is_marked(field: &[u64], v: u32) -> bool
    requires { v / 64 < length field.now }
    ensures { result ≡ marked field.now v }
{
    let i = (v / IN_WORD) as usize;
    has(field[i], v % IN_WORD)
}

// Marks the value.
fn mark(field: &mut [u64], v: u32)
    requires { v / 64 < length field.old }
    ensures { field.new ≡ mark field.old v }
{
    let i = (v / IN_WORD) as usize;
    let word = with(field[i], v % IN_WORD);
    field[i] = word;
}

// Marks the value where `is` holds. The answer: it was marked before.
pub fn note(field: &mut [u64], is: bool, v: u32) -> bool
    requires { v / 64 < length field.old }
    ensures { Noted field.old is v field.new result }
{
    if !is {
        return false;
    }
    let met = is_marked(field, v);
    mark(field, v);
    met
}

// The word without a bit.
fn without(word: u64, k: u32) -> u64
    requires { k < 64 }
    ensures { result ≡ bit_xor (bit_or word (2 ^ k)) (2 ^ k) }
{
    with(word, k) ^ one(k)
}

// Takes the mark of the value away where `is` holds.
pub fn unmark(field: &mut [u64], is: bool, v: u32)
    requires { v / 64 < length field.old }
    ensures { field.new ≡ cond is (unmark field.old v) field.old }
{
    if !is {
        return;
    }
    let i = (v / IN_WORD) as usize;
    let word = without(field[i], v % IN_WORD);
    field[i] = word;
}
