// The test whether a lent table is proper.
//
// No table is trusted. `proper` takes any slice, and refuses what the paper does not call proper. Numbers that must be 0 are joined
// into one word, so that a table is read once, with no branch for each number. Nothing is written. Assumes nothing.
#![tactic(auto)]

ghost use Rattle.std.specs.Prelude.{◌≡◌, ◌≤◌, ltb, length};
ghost use Rattle.paper.specs.Basics.{all, most_elements, most_names};
ghost use Rattle.paper.specs.Table;
ghost use Rattle.paper.specs.Table.{table_length, block_length, proper_sets, proper_model, proper_block};
ghost use Rattle.proper.specs.Model.{ranged};
ghost use Rattle.proper.specs.Whole.{proper_blocks, rest_zero};

use fixed::proper_fixed;
use paper::{
    ALLOWED_AT, COUNT_AT, FIRST_AT, FOLLOW_AT, ID_AT, IDREF_AT, IDREFS_AT, KIND_AT, LAST_AT,
    MOST_ELEMENTS, MOST_NAMES, NAMES_AT, NO_CHILD_AT, REQUIRED_AT, TABLE_WORDS,
};
use sets::{is_apart, is_single, is_within, uses_lowest};
use table::block_of;
use zeros::{all_zero, union_of};

// Each number is below the bound.
fn all_below(words: &[u64], bound: u64) -> bool
    ensures { result ≡ all (λ a. ltb a bound) words.now }
{
    let mut ok = true;
    for word in words {
        ok &= *word < bound;
    }
    ok
}

// "required and the three kinds lie in allowed; the three kinds share no bit, and ID has one bit or none"
fn proper_sets(block: &[u64]) -> bool
    requires { length block.now ≡ block_length }
    ensures { result ≡ proper_sets block.now }
{
    let allowed = block[ALLOWED_AT];
    let id = block[ID_AT];
    let idref = block[IDREF_AT];
    let idrefs = block[IDREFS_AT];
    is_within(block[REQUIRED_AT], allowed)
        & is_within(id, allowed)
        & is_within(idref, allowed)
        & is_within(idrefs, allowed)
        & is_apart(id, idref)
        & is_apart(id, idrefs)
        & is_apart(idref, idrefs)
        & is_single(id)
}

// "the no-child flag is 0 or 1; sets use only the lowest n bits; the first n names are below E; [..] unused numbers [..] are 0"
fn in_range(elements: u64, block: &[u64], n: usize) -> bool
    requires { (length block.now ≡ block_length) × (n ≤ most_names) }
    ensures { result ≡ ranged elements block.now n }
{
    let names = NAMES_AT + n;
    let follow = FOLLOW_AT + n;
    let sets = block[FIRST_AT] | block[LAST_AT] | union_of(&block[FOLLOW_AT..follow]);
    (block[NO_CHILD_AT] <= 1)
        & uses_lowest(sets, n as u32)
        & all_below(&block[NAMES_AT..names], elements)
        & all_zero(&block[names..FOLLOW_AT])
        & all_zero(&block[follow..])
}

// "n is 1 to 64 for kind 2; [..] neither the first set nor any follow set holds two occurrences of one name"
fn proper_model(elements: u64, block: &[u64]) -> bool
    requires { (length block.now ≡ block_length) × (elements ≤ most_elements) }
    ensures { result ≡ proper_model elements block.now }
{
    let count = block[COUNT_AT];
    if count < 1 {
        return false;
    }
    if count > MOST_NAMES as u64 {
        return false;
    }
    let n = count as usize;
    if !in_range(elements, block, n) {
        return false;
    }
    ambiguity::unambiguous(
        n,
        block[FIRST_AT],
        &block[NAMES_AT..FOLLOW_AT],
        &block[FOLLOW_AT..],
    )
}

// "kinds keep their ranges"; "all from n on is 0 for kinds 0 and 1"
fn proper_block(elements: u64, block: &[u64]) -> bool
    requires { (length block.now ≡ block_length) × (elements ≤ most_elements) }
    ensures { result ≡ proper_block elements block.now }
{
    if !proper_sets(block) {
        return false;
    }
    let kind = block[KIND_AT];
    if kind <= paper::TEXT_ONLY as u64 {
        return all_zero(&block[COUNT_AT..]);
    }
    if kind != paper::MODEL as u64 {
        return false;
    }
    proper_model(elements, block)
}

// The blocks of the elements are proper.
fn proper_blocks(table: &[u64], elements: u64) -> bool
    requires { (length table.now ≡ table_length) × (elements ≤ most_elements) }
    ensures { result ≡ proper_blocks table.now elements }
{
    for e in 0..elements as usize {
        if !proper_block(elements, block_of(table, e)) {
            return false;
        }
    }
    true
}

// "blocks from E on included, are 0": tested a block at a time, so that the compiler knows how many numbers there are, and unrolls.
fn unused_from(table: &[u64], elements: u64) -> bool
    requires { (length table.now ≡ table_length) × (elements ≤ most_elements) }
    ensures { result ≡ rest_zero table.now elements }
{
    for e in elements as usize..MOST_ELEMENTS {
        if !all_zero(block_of(table, e)) {
            return false;
        }
    }
    true
}

// "A table is proper exactly if: it has [6,675] numbers; E, root and kinds keep their ranges; [..] unused numbers, blocks from E
// on included, are 0"; and its entries of fixed attributes are as they must be.
pub fn proper(table: &[u64]) -> bool
    ensures { result ≡ Table.proper table.now }
{
    if table.len() != TABLE_WORDS {
        return false;
    }
    let elements = table[0];
    if elements < 1 {
        return false;
    }
    if elements > MOST_ELEMENTS as u64 {
        return false;
    }
    if table[1] >= elements {
        return false;
    }
    if !unused_from(table, elements) {
        return false;
    }
    if !proper_fixed(table) {
        return false;
    }
    proper_blocks(table, elements)
}
