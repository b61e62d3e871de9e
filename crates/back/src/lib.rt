// The edit that takes an edit back, written into a second buffer (item 2).
//
// `need` and `note` are called with an edit in form that cuts `cut` tokens at `at`, before the document is overwritten. The places of the
// second buffer behind the inverse keep their contents.
// Assumes nothing.
#![tactic(auto)]

ghost use Rattle.std.specs.Prelude.{◌≡◌, ◌≤◌, length};
ghost use Rattle.paper.specs.Basics.{most_tokens};
ghost use Rattle.paper.specs.Back.{inverse, needs, noted};
ghost use Rattle.back.specs.Noted.{adds_by, count_by, operation_by, headed, Cuts};

use copying::copy;

// Whether an edit adds an attribute: a set that cuts nothing.
fn adds(operation: u32, cut: usize) -> bool
    ensures { result ≡ adds_by operation cut }
{
    (operation == paper::SET) & (cut == 0)
}

// How many tokens the piece of the inverse has: those that go, or the attribute that was added.
pub fn need(operation: u32, cut: usize) -> usize
    ensures { result ≡ count_by operation cut }
{
    if adds(operation, cut) {
        return 1;
    }
    cut
}

// "a set is undone by a drop if it added the attribute, else by a set": the operation that takes an operation back.
fn back_operation(operation: u32, cut: usize) -> u32
    ensures { result ≡ operation_by operation cut }
{
    if operation == paper::INSERT {
        return paper::REMOVE;
    }
    if operation == paper::REMOVE {
        return paper::INSERT;
    }
    if operation == paper::REPLACE {
        return paper::REPLACE;
    }
    if adds(operation, cut) {
        return paper::DROP;
    }
    paper::SET
}

// Writes operation, place and piece count.
fn note_head(second: &mut [u32], operation: u32, place: usize, count: usize)
    requires { (3 ≤ length second.old) × (place ≤ most_tokens) × (count ≤ most_tokens) }
    ensures { second.new ≡ headed second.old operation place count }
{
    second[0] = operation;
    second[1] = place as u32;
    second[2] = count as u32;
}

// Writes the inverse of an edit: operation, place, piece count and piece.
pub fn note(
    second: &mut [u32],
    doc: &[u32],
    operation: u32,
    place: usize,
    piece: &[u32],
    at: usize,
    cut: usize,
)
    requires cuts { Cuts (record { operation = operation; place = place; piece = piece.now }) doc.now at cut }
    requires doc_in_bounds { needs (record { operation = operation; place = place; piece = piece.now }) doc.now ≤ length second.old }
    ensures { second.new ≡ noted second.old (inverse (record { operation = operation; place = place; piece = piece.now }) doc.now) }
{
    let back = back_operation(operation, cut);
    note_head(second, back, place, need(operation, cut));
    if adds(operation, cut) {
        copy(second, paper::BACK_PIECE, piece, 0, 1);
    } else {
        copy(second, paper::BACK_PIECE, doc, at, cut);
    }
}
