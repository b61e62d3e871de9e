// Tokens that go and tokens that come, taken into a field that marks the IDs of a document, and into counts of how many references each
// value has.
//
// Field and counts are lent by the caller. Any tokens are taken; the table is a proper one. Assumes nothing.
#![tactic(auto)]

ghost use Rattle.std.specs.Prelude.{◌≡◌, true};
ghost use Rattle.paper.specs.Table.{proper};
ghost use Rattle.paper.specs.Rules.{of_table};
ghost use Rattle.paper.specs.Judgement.{is_id, is_ref};
ghost use Rattle.key_moves.specs.Moves.{Gone, Come, value_here, Long, Enough, Room, Fits, Exchanged};
ghost use Rattle.key_moves.specs.Turns.{ids_in, refs_in};

use field::{note, unmark};
use key_walk::{Walk, is_id, is_reference, pass};
use tokens::{is_value, number};

// So many values there are, each with a count.
pub const VALUES: usize = 65536;

// A token goes: an ID is marked no more, and a reference is counted no more.
fn take_out(table: &[u64], at: Walk, t: u32, field: &mut [u64], counts: &mut [u16])
    requires table_value { proper table.now ≡ true }
    requires long { Long field.old counts.old × Enough counts.old (value_here (is_ref (of_table table.now)) at t) }
    ensures { Gone field.old counts.old (value_here (is_id (of_table table.now)) at t) (value_here (is_ref (of_table table.now)) at t) field.new counts.new }
{
    if !is_value(t) {
        return;
    }
    let v = number(t);
    unmark(field, is_id(table, at.element, at.attribute), v);
    if !is_reference(table, at.element, at.attribute) {
        return;
    }
    let i = v as usize;
    counts[i] -= 1;
}

// A token comes: an ID is marked, and a reference counted. The answer: it is no ID that was marked before.
fn put_in(table: &[u64], at: Walk, t: u32, field: &mut [u64], counts: &mut [u16]) -> bool
    requires table_value { proper table.now ≡ true }
    requires long { Long field.old counts.old × Room counts.old (value_here (is_ref (of_table table.now)) at t) }
    ensures { Come field.old counts.old (value_here (is_id (of_table table.now)) at t) (value_here (is_ref (of_table table.now)) at t) field.new counts.new result }
{
    if !is_value(t) {
        return true;
    }
    let v = number(t);
    let met = note(field, is_id(table, at.element, at.attribute), v);
    if !is_reference(table, at.element, at.attribute) {
        return !met;
    }
    let i = v as usize;
    counts[i] += 1;
    !met
}

// The tokens from the walk on go.
fn leave(table: &[u64], doc: &[u32], from: Walk, field: &mut [u64], counts: &mut [u16])
    requires table_value { proper table.now ≡ true }
    requires long { Long field.old counts.old × Enough counts.old (refs_in table.now doc.now from) }
    ensures { Gone field.old counts.old (ids_in table.now doc.now from) (refs_in table.now doc.now from) field.new counts.new }
{
    let mut at = from;
    while at.place < doc.len() {
        let i = at.place;
        let t = doc[i];
        take_out(table, at, t, field, counts);
        at = pass(at, t);
    }
}

// The tokens from the walk on come. The answer: "no coming ID was there or comes twice".
pub fn enter(table: &[u64], doc: &[u32], from: Walk, field: &mut [u64], counts: &mut [u16]) -> bool
    requires table_value { proper table.now ≡ true }
    requires long { Long field.old counts.old × Room counts.old (refs_in table.now doc.now from) }
    ensures { Come field.old counts.old (ids_in table.now doc.now from) (refs_in table.now doc.now from) field.new counts.new result }
{
    let mut at = from;
    let mut fresh = true;
    while at.place < doc.len() {
        let i = at.place;
        let t = doc[i];
        fresh = fresh & put_in(table, at, t, field, counts);
        at = pass(at, t);
    }
    fresh
}

// The tokens of one document from the walk on go, and those of another come. The answer: "no coming ID was there or comes twice".
pub fn exchange(
    table: &[u64],
    went: &[u32],
    came: &[u32],
    from: Walk,
    field: &mut [u64],
    counts: &mut [u16],
) -> bool
    requires table_value { proper table.now ≡ true }
    requires long { Long field.old counts.old × Enough counts.old (refs_in table.now went.now from) × Fits counts.old (refs_in table.now went.now from) (refs_in table.now came.now from) }
    ensures { Exchanged field.old counts.old (ids_in table.now went.now from) (refs_in table.now went.now from) (ids_in table.now came.now from) (refs_in table.now came.now from) field.new counts.new result }
{
    leave(table, went, from, field, counts);
    enter(table, came, from, field, counts)
}
