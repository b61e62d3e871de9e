// The test of shape: whether tokens are one element, at most 64 deep, its attributes in order.
//
// `shape` and `element_shape` ask nothing of their arguments. One pass goes over the tokens and leaves at the first that may not stand.
// Assumes nothing.
#![tactic(auto)]

ghost use Rattle.std.specs.Prelude.{◌≡◌, ◌&&◌};
ghost use Rattle.paper.specs.Tokens.{toks};
ghost use Rattle.paper.specs.Shape.{is_element, shallow, shape_of};

use scan::{RULES, Scan, passed, stands};
use tokens::is_start;

// Whether the tokens are one element, at most 64 deep: one pass, left at the first token that may not stand.
fn one_element(doc: &[u32]) -> bool
    ensures { result ≡ (is_element (toks doc.now) && shallow (toks doc.now)) }
{
    if doc.len() == 0 {
        return false;
    }
    if !is_start(doc[0]) {
        return false;
    }
    let table = RULES;
    let mut s = Scan {
        next: 30,
        least: 0,
        level: 1,
    };
    for i in 1..doc.len() {
        let t = doc[i];
        if !stands(&table, s, t) {
            return false;
        }
        s = passed(&table, s, t);
    }
    s.level == 0
}

// Whether the first `used` tokens of the buffer have the shape of a document.
pub fn shape(doc: &[u32], used: usize) -> bool
    ensures { result ≡ shape_of doc.now used }
{
    if used < 2 {
        return false;
    }
    if paper::MOST_TOKENS < used {
        return false;
    }
    if doc.len() < used {
        return false;
    }
    one_element(&doc[..used])
}

// Whether the piece, of any length, is one element, at most 64 deep.
pub fn element_shape(piece: &[u32]) -> bool
    ensures { result ≡ (is_element (toks piece.now) && shallow (toks piece.now)) }
{
    one_element(piece)
}
