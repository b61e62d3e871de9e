// The judgement of an edited document, at what the edit touches: the parent of the place, and the elements of the piece.
//
// The parent is found by looking back, and its children, judged and counted in one pass, one after another; the piece is judged by itself.
// So the cost is that of the parent's tokens and of the piece, and not of the document. The table is a proper one, and nothing is written. Assumes nothing.
#![tactic(auto)]

ghost use Rattle.std.specs.Prelude.{◌≡◌, true, ◌+◌, ◌≤◌, length, take, drop};
ghost use Rattle.paper.specs.Basics.{most_tokens};
ghost use Rattle.paper.specs.Tokens.{toks};
ghost use Rattle.paper.specs.Table.{proper};
ghost use Rattle.shape_laws.specs.Touch.{parent_of};
ghost use Rattle.shape_laws.specs.Widths.{Comes};
ghost use Rattle.touched.specs.Touched.{OfPiece, Looked};
ghost use Rattle.touched.specs.Judged.{Elements, Found};

use cost::own;
use judge::{element_fault, root_fault};
use keys::key_fault;
use paper::Fault;
use piece_faults::piece_fault;
use places::parent_of;

// The elements of the piece, `coming` tokens at a place: their first fault, or their children with those of the parent.
fn with_piece(table: &[u64], doc: &[u32], at: usize, coming: usize, over: u32) -> Result<u32, Fault>
    requires table_value { proper table.now ≡ true }
    requires coming_in_bounds { (at + coming ≤ length doc.now) × (at + coming ≤ most_tokens) × (over ≤ most_tokens) }
    ensures { OfPiece table.now doc.now at coming over result }
{
    let piece = &doc[at..at + coming];
    piece_fault(table, piece, at)?;
    let children = over + own(piece);
    Ok(children)
}

// "7, 8 and 9 only at touched elements": the parent, then the elements of the piece. Item 10: "children and texts of the touched parent (or
// of the set or dropped element) in the edited document, plus those of every element in the piece; a replaced root has no parent, which
// counts 0".
fn touched_fault(
    table: &[u64],
    doc: &[u32],
    at: usize,
    coming: usize,
    parent: usize,
) -> Result<u32, Fault>
    requires table_value { proper table.now ≡ true }
    requires coming_in_bounds { (length doc.now ≤ most_tokens) × (at + coming ≤ length doc.now) }
    requires comes { Comes (drop at (toks (take (at + coming) doc.now))) }
    requires parent_value { parent ≡ parent_of (toks (take at doc.now)) }
    ensures { Looked table.now doc.now at coming result }
{
    if at <= parent {
        return with_piece(table, doc, at, coming, 0);
    }
    let over = element_fault(table, doc, &[], parent)?;
    with_piece(table, doc, at, coming, over)
}

// The root and the elements that are touched (7 to 10), without IDs and references: the first fault, or how many children were looked at.
// The piece is `coming` tokens at a place.
pub fn judged_elements(table: &[u64], doc: &[u32], at: usize, coming: usize) -> Result<u32, Fault>
    requires table_value { proper table.now ≡ true }
    requires coming_in_bounds { (length doc.now ≤ most_tokens) × (at + coming ≤ length doc.now) }
    requires comes { Comes (drop at (toks (take (at + coming) doc.now))) }
    ensures { Elements table.now doc.now at coming result }
{
    root_fault(table, doc)?;
    let parent = parent_of(doc, at);
    touched_fault(table, doc, at, coming, parent)
}

// "Then the edited document is judged as above", at what is touched, IDs and references included.
pub fn judged(table: &[u64], doc: &[u32], at: usize, coming: usize) -> Result<u32, Fault>
    requires table_value { proper table.now ≡ true }
    requires coming_in_bounds { (length doc.now ≤ most_tokens) × (at + coming ≤ length doc.now) }
    requires comes { Comes (drop at (toks (take (at + coming) doc.now))) }
    ensures { Found table.now doc.now at coming result }
{
    let children = judged_elements(table, doc, at, coming)?;
    key_fault(table, doc)?;
    Ok(children)
}
