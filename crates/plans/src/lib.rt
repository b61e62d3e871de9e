// The place of an edit: whether it is one that the operation takes, and then the splice that makes the edit.
//
// It holds of any document.
// Assumes nothing.
#![tactic(auto)]

ghost use Rattle.std.specs.Prelude.{◌≡◌};
ghost use Rattle.paper.specs.Codes.{operation_of};
ghost use Rattle.paper.specs.Tokens.{tok_of, toks};
ghost use Rattle.paper.specs.Edits.{opens, opens_or_ends};
ghost use Rattle.plans.specs.Plan.{planned, plan_of, head_of};

use paper::Operation;
use pieces::{attr_number, is_one_text};
use places::{item_size, token_at};
use slots::{held, slot};
use tokens::{is_end, is_start, is_text};

// Where an edit changes the document, and how many tokens go there.
#[derive(Clone, Copy)]
pub struct Plan {
    pub at: usize,
    pub cut: usize,
}

// Whether a token begins a text or an element.
fn opens(t: u32) -> bool
    ensures { result ≡ opens (tok_of t) }
{
    is_start(t) | is_text(t)
}

// Whether an item may stand before a token.
fn opens_or_ends(t: u32) -> bool
    ensures { result ≡ opens_or_ends (tok_of t) }
{
    opens(t) | is_end(t)
}

// A plan, if its place is good.
fn planned(good: bool, at: usize, cut: usize) -> Option<Plan>
    ensures { result ≡ planned good at cut }
{
    if good {
        return Some(Plan { at, cut });
    }
    None
}

// Of a start: where the attribute that the piece names stands or would stand, and how many tokens it has.
fn head_of(doc: &[u32], place: usize, piece: &[u32]) -> Option<Plan>
    ensures { result ≡ head_of place (toks piece.now) (toks doc.now) }
{
    if !is_start(token_at(doc, place)) {
        return None;
    }
    let a = attr_number(piece);
    let before = slot(&doc[place + 1..], a);
    let at = place + 1 + before;
    Some(Plan {
        at,
        cut: held(&doc[at..], a),
    })
}

// "the place (6)": the splice that makes the edit, if the place is one that the operation takes.
pub fn plan_of(doc: &[u32], operation: Operation, place: usize, piece: &[u32]) -> Option<Plan>
    ensures { result ≡ plan_of (operation_of operation) place (toks piece.now) (toks doc.now) }
{
    let t = token_at(doc, place);
    match operation {
        Operation::Insert => planned(opens_or_ends(t) & (0 < place), place, 0),
        Operation::Remove => planned(opens(t) & (0 < place), place, item_size(doc, place)),
        Operation::Replace => {
            let good = opens(t) & ((0 < place) | !is_one_text(piece));
            planned(good, place, item_size(doc, place))
        }
        Operation::Set => head_of(doc, place, piece),
        Operation::Drop => {
            let Some(p) = head_of(doc, place, piece) else {
                return None;
            };
            planned(0 < p.cut, p.at, p.cut)
        }
    }
}
