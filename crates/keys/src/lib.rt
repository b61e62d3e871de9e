// The faults of IDs and references: an ID value that is met twice, and a reference value that is no ID.
//
// Each ID is marked in a field of bits, one for each value, and what was met earlier is asked of the field. References are a second pass,
// over the field of all IDs. A document with no key pays for no field. Any tokens are taken; the table is a proper one.
// Assumes nothing.
#![tactic(auto)]

ghost use Rattle.std.specs.Prelude.{◌≡◌, true, [], ◌+◌, ◌-◌, ◌^◌, ◌≤◌, ◌<◌, length};
ghost use Rattle.paper.specs.Basics.{most_tokens};
ghost use Rattle.paper.specs.Codes.{told};
ghost use Rattle.paper.specs.Table.{proper};
ghost use Rattle.paper.specs.Tokens.{tok_of, toks};
ghost use Rattle.paper.specs.Rules.{of_table};
ghost use Rattle.paper.specs.Judgement.{is_ref, key_fault};
ghost use Rattle.field.specs.Field.{Field};
ghost use Rattle.key_walk.specs.Walk.{value_of};
ghost use Rattle.keys.specs.Marking.{field_words, Begun, noted, refs_left};
ghost use Rattle.keys.specs.Turns.{Owed, Marks};
ghost use Rattle.keys.specs.Looking.{unmarked};
ghost use Rattle.keys.specs.Answer.{fault_from};

use field::{WORDS, is_marked, note};
use key_walk::{Walk, is_id, is_reference, is_value_at, next_key, pass};
use paper::{Fault, Refusal};
use tokens::{is_value, number};

// The references met: so many, the first of them from the walk on.
#[derive(Clone, Copy)]
struct Refs {
    at: Walk,
    count: usize,
}

// What a pass over the IDs finds: the first that was met earlier, or the references.
#[derive(Clone, Copy)]
struct Marked {
    twice: Option<Fault>,
    refs: Refs,
}

// The references met, once the values of the walk's attribute, up to place i, were passed.
fn counted(table: &[u64], refs: Refs, at: Walk, i: usize) -> Refs
    requires { (proper table.now ≡ true) × (at.place ≤ i) × (refs.count + (i - at.place) < 2 ^ 64) }
    ensures { result ≡ noted table.now refs at i }
{
    if !is_reference(table, at.element, at.attribute) {
        return refs;
    }
    let values = i - at.place;
    if refs.count == 0 {
        return Refs { at, count: values };
    }
    let first = refs.at;
    Refs {
        at: first,
        count: refs.count + values,
    }
}

// "an ID value met earlier as an ID (11, place of the later value token)": the loops go over the attributes that have keys, and over the
// values of one. Each ID is marked; the label is taken at the first that was marked before.
fn mark_ids(table: &[u64], doc: &[u32], from: Walk, field: &mut [u64]) -> Marked
    requires table_value { (proper table.now ≡ true) × (length doc.now ≤ most_tokens) }
    requires begun { Begun doc.now from }
    requires field_len { (length field.old ≡ field_words) × Field field.old [] }
    ensures { Marks table.now doc.now from field.new result.twice result.refs }
{
    let mut twice = None;
    let mut refs = Refs { at: from, count: 0 };
    let mut at = from;
    'ids: while at.place < doc.len() {
        let id = is_id(table, at.element, at.attribute);
        let mut i = at.place;
        while is_value_at(doc, i) {
            let place = i as u32;
            if note(field, id, number(doc[i])) {
                twice = Some(Fault {
                    refusal: Refusal::IdTwice,
                    place,
                });
                break 'ids;
            }
            i += 1;
        }
        refs = counted(table, refs, at, i);
        let behind = Walk {
            place: i,
            element: at.element,
            attribute: at.attribute,
        };
        at = next_key(table, doc, behind);
    }
    Marked { twice, refs }
}

// The token at the walk's place is a reference value.
fn is_reference_at(table: &[u64], at: Walk, t: u32) -> bool
    requires { proper table.now ≡ true }
    ensures { result ≡ value_of (is_ref (of_table table.now)) at (tok_of t) }
{
    if !is_value(t) {
        return false;
    }
    is_reference(table, at.element, at.attribute)
}

// "a reference value that is no ID in the document (12, that token)": of the references, the field being that of all IDs. The pass ends
// with the last of them.
fn dangling_reference(table: &[u64], doc: &[u32], refs: Refs, field: &[u64]) -> Result<(), Fault>
    requires table_value { (proper table.now ≡ true) × (length doc.now ≤ most_tokens) }
    requires owed { Owed table.now doc.now refs × (length field.now ≡ field_words) }
    ensures { told result ≡ unmarked field.now (refs_left table.now doc.now refs.at) }
{
    let mut at = refs.at;
    let mut left = refs.count;
    while left != 0 {
        let key = next_key(table, doc, at);
        let i = key.place;
        let here = i as u32;
        let t = doc[i];
        at = pass(key, t);
        if !is_reference_at(table, key, t) {
            continue;
        }
        if !is_marked(field, number(t)) {
            return Err(Fault {
                refusal: Refusal::NoId,
                place: here,
            });
        }
        left -= 1;
    }
    Ok(())
}

// The first fault among the IDs, else among the references, from the walk on.
fn fault_from(table: &[u64], doc: &[u32], from: Walk) -> Result<(), Fault>
    requires table_value { (proper table.now ≡ true) × (length doc.now ≤ most_tokens) }
    requires begun { Begun doc.now from }
    ensures { told result ≡ fault_from table.now doc.now from }
{
    let mut field = [0u64; WORDS];
    let marked = mark_ids(table, doc, from, &mut field);
    let twice = marked.twice;
    if let Some(fault) = twice {
        return Err(fault);
    }
    let refs = marked.refs;
    dangling_reference(table, doc, refs, &field)
}

// The first fault among the IDs, else among the references.
pub fn key_fault(table: &[u64], doc: &[u32]) -> Result<(), Fault>
    requires { (proper table.now ≡ true) × (length doc.now ≤ most_tokens) }
    ensures { told result ≡ key_fault (of_table table.now) (toks doc.now) }
{
    let front = Walk {
        place: 0,
        element: 0,
        attribute: 0,
    };
    let first = next_key(table, doc, front);
    if first.place >= doc.len() {
        return Ok(());
    }
    fault_from(table, doc, first)
}
