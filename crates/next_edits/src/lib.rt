// One edit of a list: the first of its edits, and a later one, for which IDs and references are kept.
//
// Both are of a document with shape, by a proper table: what a single call comes to "with room for its inverse". "It writes no inverses." The
// edited tokens are made in a buffer that is lent for it. Assumes nothing.
#![tactic(auto)]

ghost use Rattle.std.specs.Prelude.{◌≡◌, true, [], length, take};
ghost use Rattle.paper.specs.Basics.{most_tokens};
ghost use Rattle.paper.specs.Tokens.{toks};
ghost use Rattle.paper.specs.Shape.{shape_of};
ghost use Rattle.paper.specs.Table.{proper};
ghost use Rattle.paper.specs.Rules.{of_table};
ghost use Rattle.paper.specs.Judgement.{key_fault};
ghost use Rattle.paper.specs.Lists.{lent_with, next_edit};
ghost use Rattle.edits.specs.Outcomes.{outcome_of};
ghost use Rattle.form.specs.Form.{InForm};
ghost use Rattle.kept_keys.specs.Follow.{Keeps};
ghost use Rattle.next_edits.specs.Kept.{Goes};

use counts::put;
use edits::{Answer, carried, commit, refused};
use form::{Form, form_of};
use kept_judged::judged_kept;
use touched::judged;

// The first edit, in form; new holds the edited tokens.
fn next_in_form(
    table: &[u64],
    doc: &mut [u32],
    used: usize,
    operation: u32,
    place: usize,
    piece: &[u32],
    counts: &mut [i32; paper::MOST_ELEMENTS],
    f: Form,
    new: &[u32],
) -> Answer
    requires table_value { (proper table.now ≡ true) × (shape_of doc.old used ≡ true) }
    requires form { InForm (length doc.old) (record { operation = operation; place = place; piece = piece.now }) (take used doc.old) new.now f }
    ensures { outcome_of result doc.new [] counts.new ≡ next_edit table.now (lent_with doc.old used counts.old 0) (record { operation = operation; place = place; piece = piece.now }) }
{
    let at = f.at;
    let cut = used + f.coming - f.used;
    let Some(after) = carried(table, counts, doc, new, at, cut, f.coming) else {
        return refused(paper::COUNTS, 0, used);
    };
    let end = f.used;
    let edited = &new[..end];
    match judged(table, edited, at, f.coming) {
        Err(fault) => refused(fault.refusal.number(), fault.place, used),
        Ok(children) => {
            put(counts, &after);
            commit(doc, used, edited, at, children)
        }
    }
}

// The first edit: its judgement looks through all IDs and references.
pub fn next_edit(
    table: &[u64],
    doc: &mut [u32],
    used: usize,
    operation: u32,
    place: usize,
    piece: &[u32],
    counts: &mut [i32; paper::MOST_ELEMENTS],
    new: &mut [u32],
) -> Answer
    requires { (proper table.now ≡ true) × (shape_of doc.old used ≡ true) × (length new.old ≡ most_tokens) }
    ensures { outcome_of result doc.new [] counts.new ≡ next_edit table.now (lent_with doc.old used counts.old 0) (record { operation = operation; place = place; piece = piece.now }) }
{
    let room = doc.len();
    match form_of(&doc[..used], room, operation, place, piece, new) {
        Err(refusal) => refused(refusal.number(), 0, used),
        Ok(f) => next_in_form(table, doc, used, operation, place, piece, counts, f, new),
    }
}

// A later edit, in form; new holds the edited tokens.
fn kept_in_form(
    table: &[u64],
    doc: &mut [u32],
    used: usize,
    operation: u32,
    place: usize,
    piece: &[u32],
    counts: &mut [i32; paper::MOST_ELEMENTS],
    f: Form,
    new: &[u32],
    field: &mut [u64],
    referred: &mut [u16],
) -> Answer
    requires table_value { (proper table.now ≡ true) × (shape_of doc.old used ≡ true) }
    requires form { InForm (length doc.old) (record { operation = operation; place = place; piece = piece.now }) (take used doc.old) new.now f }
    requires doc_value { ((key_fault (of_table table.now) (toks (take used doc.old))).0 ≡ 0) × Keeps table.now field.old referred.old (toks (take used doc.old)) }
    ensures counts_after { outcome_of result doc.new [] counts.new ≡ next_edit table.now (lent_with doc.old used counts.old 0) (record { operation = operation; place = place; piece = piece.now }) }
    ensures goes { Goes table.now doc.new field.new referred.new result }
{
    let at = f.at;
    let cut = used + f.coming - f.used;
    let Some(after) = carried(table, counts, doc, new, at, cut, f.coming) else {
        return refused(paper::COUNTS, 0, used);
    };
    let end = f.used;
    let edited = &new[..end];
    let old = &doc[..used];
    match judged_kept(table, old, place, edited, at, f.coming, field, referred) {
        Err(fault) => refused(fault.refusal.number(), fault.place, used),
        Ok(children) => {
            put(counts, &after);
            commit(doc, used, edited, at, children)
        }
    }
}

// A later edit: the document before it has no fault of 11 or 12, and what is kept of its IDs and references is lent. After a done edit that is
// kept of the edited document.
pub fn kept_edit(
    table: &[u64],
    doc: &mut [u32],
    used: usize,
    operation: u32,
    place: usize,
    piece: &[u32],
    counts: &mut [i32; paper::MOST_ELEMENTS],
    new: &mut [u32],
    field: &mut [u64],
    referred: &mut [u16],
) -> Answer
    requires table_value { (proper table.now ≡ true) × (shape_of doc.old used ≡ true) × (length new.old ≡ most_tokens) }
    requires doc_value { ((key_fault (of_table table.now) (toks (take used doc.old))).0 ≡ 0) × Keeps table.now field.old referred.old (toks (take used doc.old)) }
    ensures counts_after { outcome_of result doc.new [] counts.new ≡ next_edit table.now (lent_with doc.old used counts.old 0) (record { operation = operation; place = place; piece = piece.now }) }
    ensures goes { Goes table.now doc.new field.new referred.new result }
{
    let room = doc.len();
    match form_of(&doc[..used], room, operation, place, piece, new) {
        Err(refusal) => refused(refusal.number(), 0, used),
        Ok(f) => kept_in_form(
            table, doc, used, operation, place, piece, counts, f, new, field, referred,
        ),
    }
}
