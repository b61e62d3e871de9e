// The test of a table's entries of fixed attributes.
//
// The table has the right length and not too many elements; nothing else is asked of it, and nothing is written. Assumes nothing.
#![tactic(auto)]

ghost use Rattle.std.specs.Prelude.{◌≡◌, ◌≤◌, length, get_or};
ghost use Rattle.paper.specs.Basics.{most_elements, most_fixed};
ghost use Rattle.paper.specs.Table.{table_length, fixed_part, proper_fixed};
ghost use Rattle.fixed.specs.Entry.{MayFix, Tested, Next};
ghost use Rattle.fixed.specs.Places.{entries_at};
ghost use Rattle.fixed.specs.Entries.{entries_good};

use paper::{
    ALLOWED_AT, ENTRY_WORDS, FIXED_AT, ID_AT, IDREF_AT, IDREFS_AT, MOST_ATTRIBUTES, MOST_FIXED,
    MOST_NUMBER, REQUIRED_AT,
};
use sets::has;
use table::block_of;
use zeros::all_zero;

// Attribute a is allowed, of no ID or reference kind and not required, by the sets of an element.
fn may_fix(allowed: u64, required: u64, id: u64, idref: u64, idrefs: u64, a: u64) -> bool
    ensures { MayFix allowed required id idref idrefs a result }
{
    if a >= MOST_ATTRIBUTES as u64 {
        return false;
    }
    let k = a as u32;
    has(allowed, k) & !has(required, k) & !has(id, k) & !has(idref, k) & !has(idrefs, k)
}

// "[entries] name an attribute allowed, of no ID or reference kind and not required, [..] values stay at or below 65,535"
fn proper_entry(table: &[u64], e: u64, a: u64, v: u64) -> bool
    requires { (length table.now ≡ table_length) × (get_or table.now 0 0 ≤ most_elements) }
    ensures { Tested table.now e a v result }
{
    if e >= table[0] {
        return false;
    }
    let b = block_of(table, e as usize);
    let may = may_fix(
        b[ALLOWED_AT],
        b[REQUIRED_AT],
        b[ID_AT],
        b[IDREF_AT],
        b[IDREFS_AT],
        a,
    );
    may & (v <= MOST_NUMBER as u64)
}

// The entry of element x, attribute a and value v is proper, and "rise[s] strictly by element and then attribute": it is one of element e
// with an attribute from `low` on, or of a later element.
fn next_proper(table: &[u64], e: u64, low: u64, x: u64, a: u64, v: u64) -> bool
    requires { (length table.now ≡ table_length) × (get_or table.now 0 0 ≤ most_elements) }
    ensures { Next table.now e low x a v result }
{
    let good = proper_entry(table, x, a, v);
    ((e < x) | ((e == x) & (low <= a))) & good
}

// The n entries "rise strictly by element and then attribute", and each is proper.
fn proper_entries(table: &[u64], n: usize) -> bool
    requires { (length table.now ≡ table_length) × (get_or table.now 0 0 ≤ most_elements) × (n ≤ most_fixed) }
    ensures { result ≡ entries_good table.now (entries_at table.now n) }
{
    let mut e: u64 = 0;
    let mut low: u64 = 0;
    for i in 0..n {
        let at = FIXED_AT + 1 + i * ENTRY_WORDS;
        let x = table[at];
        let a = table[at + 1];
        if !next_proper(table, e, low, x, a, table[at + 2]) {
            return false;
        }
        e = x;
        low = a + 1;
    }
    true
}

// "the count is at most 16, [..] unused entries are 0", and those that there are rise and are proper.
pub fn proper_fixed(table: &[u64]) -> bool
    requires { (length table.now ≡ table_length) × (get_or table.now 0 0 ≤ most_elements) }
    ensures { result ≡ proper_fixed table.now (fixed_part table.now) }
{
    let count = table[FIXED_AT];
    if count > MOST_FIXED as u64 {
        return false;
    }
    let n = count as usize;
    let end = FIXED_AT + 1 + n * ENTRY_WORDS;
    if !all_zero(&table[end..]) {
        return false;
    }
    proper_entries(table, n)
}
