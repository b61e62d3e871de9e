// The five edits of a document, as one call: insert, remove, replace, set, drop.
//
// `edit` asks nothing of its arguments. The edited tokens are made in a buffer of its own and judged there, at what the edit touches; only
// an edit that is done is written back, its inverse into a second buffer, and the counts with what comes and what goes. A refusal leaves all
// as they were.
// Assumes nothing.
#![tactic(auto)]

ghost use Rattle.std.specs.Prelude.{◌≡◌, true, ◌+◌, ◌≤◌, length, take, drop};
ghost use Rattle.paper.specs.Basics.{most_tokens};
ghost use Rattle.paper.specs.Tokens.{toks};
ghost use Rattle.paper.specs.Shape.{shape_of};
ghost use Rattle.paper.specs.Table.{proper};
ghost use Rattle.paper.specs.Rules.{of_table};
ghost use Rattle.paper.specs.Edits.{editing, written, outcome, edit};
ghost use Rattle.paper.specs.Counts.{moved_from};
ghost use Rattle.counts.specs.Moved.{Numbers};
ghost use Rattle.form.specs.Form.{InForm};
ghost use Rattle.edits.specs.Outcomes.{outcome_of, refusal, done_with};

use back::{need, note};
use counts::{moves, put};
use form::{Form, form_of};
use touched::judged;
use written::{change_of, write};

// "The answer has number, place, used length, and the change in length, a signed count that is negative when tokens went." Item 10: "A done
// edit reports the number of children looked at".
#[derive(Clone, Copy)]
pub struct Answer {
    pub number: u32,
    pub place: u32,
    pub used: usize,
    pub change: i32,
    pub children: u32,
}

// "Refusals [..] give the old length and change 0." Item 10: "Refused edits report 0."
pub fn refused(number: u32, place: u32, used: usize) -> Answer
    ensures { result ≡ refusal number place used }
{
    Answer {
        number,
        place,
        used,
        change: 0,
        children: 0,
    }
}

// The edited tokens go into the document: the answer of a done edit.
pub fn commit(doc: &mut [u32], used: usize, new: &[u32], at: usize, children: u32) -> Answer
    requires at_in_bounds { (at ≤ length new.now) × (length new.now ≤ length doc.old) × (used ≤ length doc.old) × (take at new.now ≡ take at doc.old) }
    requires used_le_most_tokens { (used ≤ most_tokens) × (length new.now ≤ most_tokens) }
    ensures { (doc.new ≡ written doc.old used new.now) × (result ≡ done_with used (length new.now) children) }
{
    write(doc, used, new, at);
    Answer {
        number: paper::DONE,
        place: 0,
        used: new.len(),
        change: change_of(used, new.len()),
        children,
    }
}

// "carried along by edits": the counts after an edit that cuts `cut` tokens of the document at a place and puts `coming` tokens of the edited
// one there, if all are 0 to 8,192.
pub fn carried(
    table: &[u64],
    counts: &[i32; paper::MOST_ELEMENTS],
    doc: &[u32],
    new: &[u32],
    at: usize,
    cut: usize,
    coming: usize,
) -> Option<[u32; paper::MOST_ELEMENTS]>
    requires { (proper table.now ≡ true) × (at + cut ≤ length doc.now) × (cut ≤ most_tokens) × (at + coming ≤ length new.now) × (coming ≤ most_tokens) }
    ensures { Numbers (moved_from (toks (take cut (drop at doc.now))) (toks (take coming (drop at new.now))) (of_table table.now).elements 0 counts.now) result }
{
    let elements = table[0] as u32;
    moves(counts, &doc[at..at + cut], &new[at..at + coming], elements)
}

// An edit in form, of a document with shape, by a proper table; new holds the edited tokens. A refusal writes nothing to what is lent.
fn edit_in_form(
    table: &[u64],
    doc: &mut [u32],
    used: usize,
    operation: u32,
    place: usize,
    piece: &[u32],
    back: &mut [u32],
    counts: &mut [i32; paper::MOST_ELEMENTS],
    f: Form,
    new: &[u32],
) -> Answer
    requires table_value { (proper table.now ≡ true) × (shape_of doc.old used ≡ true) }
    requires form { InForm (length doc.old) (record { operation = operation; place = place; piece = piece.now }) (take used doc.old) new.now f }
    ensures { outcome_of result doc.new back.new counts.new ≡ outcome doc.old used back.old counts.old (editing (of_table table.now) (length doc.old) (length back.old) (record { operation = operation; place = place; piece = piece.now }) (take used doc.old) counts.old) }
{
    let at = f.at;
    let cut = used + f.coming - f.used;
    let room = paper::BACK_PIECE + need(operation, cut);
    if back.len() < room {
        return refused(paper::ROOM, 0, used);
    }
    let Some(after) = carried(table, counts, doc, new, at, cut, f.coming) else {
        return refused(paper::COUNTS, 0, used);
    };
    let end = f.used;
    let edited = &new[..end];
    match judged(table, edited, at, f.coming) {
        Err(fault) => refused(fault.refusal.number(), fault.place, used),
        Ok(children) => {
            note(back, &doc[..used], operation, place, piece, at, cut);
            put(counts, &after);
            commit(doc, used, edited, at, children)
        }
    }
}

// An edit of a document with shape, by a proper table.
fn edit_shaped(
    table: &[u64],
    doc: &mut [u32],
    used: usize,
    operation: u32,
    place: usize,
    piece: &[u32],
    back: &mut [u32],
    counts: &mut [i32; paper::MOST_ELEMENTS],
) -> Answer
    requires { (proper table.now ≡ true) × (shape_of doc.old used ≡ true) }
    ensures { outcome_of result doc.new back.new counts.new ≡ outcome doc.old used back.old counts.old (editing (of_table table.now) (length doc.old) (length back.old) (record { operation = operation; place = place; piece = piece.now }) (take used doc.old) counts.old) }
{
    let mut new = [0u32; paper::MOST_TOKENS];
    let room = doc.len();
    match form_of(&doc[..used], room, operation, place, piece, &mut new) {
        Err(refusal) => refused(refusal.number(), 0, used),
        Ok(f) => edit_in_form(
            table, doc, used, operation, place, piece, back, counts, f, &new,
        ),
    }
}

// An edit: 1 insert, 2 remove, 3 replace, 4 set, 5 drop. "Order: table (13); document shape (4); operation not 1 to 5 (6); piece (4); place
// (6); result over 8,192 tokens, over 64 deep or over the buffer (5)." Item 2: the second buffer shorter than the inverse needs (5). Item 7:
// "any of the 48 counts below 0 or above 8,192 after the edit" (15). "Then the edited document is judged [..]." A done edit writes its
// inverse into the first places of the second buffer, and moves the counts.
pub fn edit(
    table: &[u64],
    doc: &mut [u32],
    used: usize,
    operation: u32,
    place: usize,
    piece: &[u32],
    back: &mut [u32],
    counts: &mut [i32; paper::MOST_ELEMENTS],
) -> Answer
    ensures { outcome_of result doc.new back.new counts.new ≡ edit table.now doc.old used (record { operation = operation; place = place; piece = piece.now }) back.old counts.old }
{
    if !proper::proper(table) {
        return refused(paper::TABLE, 0, used);
    }
    if !shape::shape(doc, used) {
        return refused(paper::SHAPE, 0, used);
    }
    edit_shaped(table, doc, used, operation, place, piece, back, counts)
}
