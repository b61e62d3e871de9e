// The fixed attributes of one element: whether each that is present has its value.
//
// The entries of a proper table are gone through for each attribute behind a start. Nothing is written. Assumes nothing.
#![tactic(auto)]

ghost use Rattle.std.specs.Prelude.{◌≡◌, true, ◌≤◌, length, drop};
ghost use Rattle.paper.specs.Tokens.{toks, heads};
ghost use Rattle.paper.specs.Table.{proper, fixed_part, entries};
ghost use Rattle.paper.specs.Rules.{fixed_by};
ghost use Rattle.paper.specs.Judgement.{only_value, fixed_good};
ghost use Rattle.fixed_values.specs.Value.{value_of};
ghost use Rattle.fixed_values.specs.Kept.{fixed_kept};

use paper::{ENTRY_WORDS, FIXED_AT};
use places::token_at;
use tokens::{is_attribute, is_value, number};

// The value to which attribute a of element e is fixed, if it is.
fn value_of(table: &[u64], e: u64, a: u64) -> Option<u64>
    requires { proper table.now ≡ true }
    ensures { value_of result ≡ fixed_by (entries (fixed_part table.now)) e a }
{
    let n = table[FIXED_AT] as usize;
    for i in 0..n {
        let at = FIXED_AT + 1 + i * ENTRY_WORDS;
        if (e == table[at]) & (a == table[at + 1]) {
            let v = table[at + 2];
            return Some(v);
        }
    }
    None
}

// The value v, and no other, stands at a place.
fn only_value(doc: &[u32], place: usize, v: u64) -> bool
    requires { place ≤ length doc.now }
    ensures { result ≡ only_value v (heads (drop place (toks doc.now))) }
{
    let t = token_at(doc, place);
    let next = token_at(doc, place + 1);
    is_value(t) & (number(t) as u64 == v) & !is_value(next)
}

// "if present has exactly that value": the attribute a, behind which a place is.
fn is_kept(table: &[u64], e: usize, a: u32, doc: &[u32], place: usize) -> bool
    requires { (proper table.now ≡ true) × (place ≤ length doc.now) }
    ensures { result ≡ fixed_good (fixed_by (entries (fixed_part table.now)) e a) (heads (drop place (toks doc.now))) }
{
    match value_of(table, e as u64, a as u64) {
        None => true,
        Some(v) => only_value(doc, place, v),
    }
}

// Each attribute that stands from a place on is kept.
pub fn fixed_kept(table: &[u64], e: usize, doc: &[u32], at: usize) -> bool
    requires { (proper table.now ≡ true) × (at ≤ length doc.now) }
    ensures { result ≡ fixed_kept table.now e (heads (drop at (toks doc.now))) }
{
    for i in at..doc.len() {
        let t = doc[i];
        if is_attribute(t) {
            if !is_kept(table, e, number(t), doc, i + 1) {
                return false;
            }
            continue;
        }
        if is_value(t) {
            continue;
        }
        return true;
    }
    true
}
