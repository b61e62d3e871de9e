// IDs and references from edit to edit: a field that marks the IDs of a document, and how many references each value has.
//
// Both are lent by the caller. `learn` fills them from a document. `follow` takes an edit into them, by the tokens that go and those that
// come alone, and tells whether the edited document has no fault of 11 or 12. The law is that of `kept_laws`.
// Assumes nothing.
#![tactic(auto)]

ghost use Rattle.std.specs.Prelude.{◌≡◌, true, ◌≤◌, length};
ghost use Rattle.paper.specs.Basics.{most_tokens};
ghost use Rattle.paper.specs.Table.{proper};
ghost use Rattle.paper.specs.Tokens.{toks};
ghost use Rattle.paper.specs.Rules.{of_table};
ghost use Rattle.key_moves.specs.Moves.{Long};
ghost use Rattle.kept_keys.specs.Settled.{of_kind, settled_here, settled_in, both_settled};
ghost use Rattle.kept_keys.specs.Follow.{Keeps, Change, Followed};
ghost use Rattle.kept_keys.specs.Learn.{Empty};

use field::is_marked;
use key_moves::{enter, exchange};
use key_walk::{Walk, is_id, is_reference, pass};
use tokens::{is_value, number};

// The values of the element's attribute are IDs, or, as asked, references.
fn is_of(table: &[u64], ids: bool, element: u32, attribute: u32) -> bool
    requires { proper table.now ≡ true }
    ensures { result ≡ of_kind ids (of_table table.now) element attribute }
{
    if ids {
        return is_id(table, element, attribute);
    }
    is_reference(table, element, attribute)
}

// The value of a token, if it is one of the kind, is an ID, or is referred to no more.
fn is_settled(table: &[u64], ids: bool, at: Walk, t: u32, field: &[u64], counts: &[u16]) -> bool
    requires { (proper table.now ≡ true) × Long field.now counts.now }
    ensures { result ≡ settled_here table.now ids at t field.now counts.now }
{
    if !is_value(t) {
        return true;
    }
    if !is_of(table, ids, at.element, at.attribute) {
        return true;
    }
    let v = number(t);
    if is_marked(field, v) {
        return true;
    }
    let i = v as usize;
    counts[i] == 0
}

// All of them are, from the walk on.
fn are_settled(
    table: &[u64],
    ids: bool,
    doc: &[u32],
    from: Walk,
    field: &[u64],
    counts: &[u16],
) -> bool
    requires { (proper table.now ≡ true) × Long field.now counts.now }
    ensures { result ≡ settled_in table.now ids doc.now from field.now counts.now }
{
    let mut at = from;
    while at.place < doc.len() {
        let i = at.place;
        let t = doc[i];
        if !is_settled(table, ids, at, t, field, counts) {
            return false;
        }
        at = pass(at, t);
    }
    true
}

// "Each coming reference has an ID, and no ID that went alone is still referred to."
fn none_owed(
    table: &[u64],
    went: &[u32],
    came: &[u32],
    from: Walk,
    field: &[u64],
    counts: &[u16],
) -> bool
    requires { (proper table.now ≡ true) × Long field.now counts.now }
    ensures { result ≡ both_settled table.now went.now came.now from field.now counts.now }
{
    if !are_settled(table, true, went, from, field, counts) {
        return false;
    }
    are_settled(table, false, came, from, field, counts)
}

// The IDs and references of a document, in a field and counts that are empty.
pub fn learn(table: &[u64], doc: &[u32], field: &mut [u64], counts: &mut [u16])
    requires { (proper table.now ≡ true) × (length doc.now ≤ most_tokens) × Empty field.old counts.old }
    ensures { Keeps table.now field.new counts.new (toks doc.now) }
{
    let front = Walk {
        place: 0,
        element: 0,
        attribute: 0,
    };
    enter(table, doc, front, field, counts);
}

// "Where the document before has no fault of 11 or 12, the edited one has none exactly if no coming ID was there or comes twice, each
// coming reference has an ID, and no ID that went alone is still referred to": doc became new, `coming` tokens came at a place. The
// element is the name of the one at the edit's place; only an attribute is read by it. The answer: the edited document has no such fault.
pub fn follow(
    table: &[u64],
    doc: &[u32],
    new: &[u32],
    at: usize,
    coming: usize,
    element: u32,
    field: &mut [u64],
    counts: &mut [u16],
) -> bool
    requires table_value { (proper table.now ≡ true) × Keeps table.now field.old counts.old (toks doc.now) }
    requires change { Change (of_table table.now) doc.now new.now at coming element }
    ensures { Followed table.now new.now field.new counts.new result }
{
    let from = Walk {
        place: at,
        element,
        attribute: 0,
    };
    let gone = at + (doc.len() + coming - new.len());
    let come = at + coming;
    let went = &doc[..gone];
    let came = &new[..come];
    if !exchange(table, went, came, from, field, counts) {
        return false;
    }
    none_owed(table, went, came, from, field, counts)
}
