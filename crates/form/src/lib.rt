// The form of an edit: its piece, its place and its size; and in form, the edited tokens.
//
// Only `form_of` is called from outside, with a document that has shape. The document is read; the edited tokens are written to a buffer
// beside it.
// Assumes nothing.
#![tactic(auto)]

ghost use Rattle.std.specs.Prelude.{◌≡◌, true, ◌+◌, ◌≤◌, length};
ghost use Rattle.paper.specs.Basics.{most_tokens};
ghost use Rattle.paper.specs.Codes.{operation_of};
ghost use Rattle.paper.specs.Shape.{shape_of};
ghost use Rattle.paper.specs.Edits.{coming, splice};
ghost use Rattle.form.specs.Size.{Level, Made};
ghost use Rattle.form.specs.Form.{Formed};

use depths::shallow_at;
use paper::{Operation, Refusal};
use pieces::good_piece;
use plans::{Plan, plan_of};
use splicing::splice_into;

// The tokens that come: those of the piece; none for remove and drop.
fn coming(operation: Operation, piece: &[u32]) -> &[u32]
    ensures { result.now ≡ coming (operation_of operation) piece.now }
{
    match operation {
        Operation::Insert => piece,
        Operation::Remove => &piece[..0],
        Operation::Replace => piece,
        Operation::Set => piece,
        Operation::Drop => &piece[..0],
    }
}

// An edit in form, before it is judged: where it changes the document, how many tokens come, and the new length.
#[derive(Clone, Copy)]
pub struct Form {
    pub at: usize,
    pub coming: usize,
    pub used: usize,
}

// "result over 8,192 tokens, over 64 deep or over the buffer (5)", for a buffer of `room` places: the edited tokens, in new.
fn made(doc: &[u32], room: usize, p: Plan, piece: &[u32], new: &mut [u32]) -> Result<Form, Refusal>
    requires few { (length doc.now ≤ most_tokens) × (p.at + p.cut ≤ length doc.now) × (length piece.now ≤ most_tokens) }
    requires len { (length new.old ≡ most_tokens) × Level doc.now p.at p.cut piece.now }
    ensures { Made room p.at (length piece.now) (splice p.at p.cut piece.now doc.now) new.new result }
{
    let used = doc.len() - p.cut + piece.len();
    if paper::MOST_TOKENS < used {
        return Err(Refusal::Room);
    }
    if room < used {
        return Err(Refusal::Room);
    }
    if !shallow_at(doc, p.at, piece) {
        return Err(Refusal::Room);
    }
    splice_into(new, doc, p.at, p.cut, piece);
    Ok(Form {
        at: p.at,
        coming: piece.len(),
        used,
    })
}

// "operation not 1 to 5 (6); piece (4); place (6); result [..] (5)", of a document with shape in a buffer of `room` places. In form, the
// edited tokens are in new.
pub fn form_of(
    doc: &[u32],
    room: usize,
    operation: u32,
    place: usize,
    piece: &[u32],
    new: &mut [u32],
) -> Result<Form, Refusal>
    requires { (shape_of doc.now (length doc.now) ≡ true) × (length new.old ≡ most_tokens) }
    ensures { Formed room (record { operation = operation; place = place; piece = piece.now }) doc.now new.new result }
{
    let Ok(operation) = Operation::try_from(operation) else {
        return Err(Refusal::Place);
    };
    if !good_piece(operation, piece) {
        return Err(Refusal::Shape);
    }
    let Some(p) = plan_of(doc, operation, place, piece) else {
        return Err(Refusal::Place);
    };
    made(doc, room, p, coming(operation, piece), new)
}
