// Depth: how many elements are open at a place of a document, how deep a piece is, and whether a piece is too deep at a place.
//
// Each holds of any tokens, with shape or without.
// Assumes nothing.
#![tactic(auto)]

ghost use Rattle.std.specs.Prelude.{◌≡◌, ◌+◌, ◌≤◌, length, take, leb};
ghost use Rattle.paper.specs.Basics.{most_tokens, most_deep};
ghost use Rattle.paper.specs.Tokens.{toks, deep};
ghost use Rattle.shape_laws.specs.Depth.{open_in};

use places::level_after;
use tokens::{is_end, is_start};

// How many elements the tokens before a place leave open: their starts less their ends. Counted apart, they need no order.
fn open_in(front: &[u32]) -> usize
    requires { length front.now ≤ most_tokens }
    ensures { result ≡ open_in (toks front.now) }
{
    let mut starts: u32 = 0;
    let mut ends: u32 = 0;
    for t in front {
        starts += is_start(*t) as u32;
        ends += is_end(*t) as u32;
    }
    starts.saturating_sub(ends) as usize
}

// How deep a piece is: its deepest level, with the outermost elements at 1.
fn depth(piece: &[u32]) -> usize
    ensures { result ≡ deep 0 (toks piece.now) }
{
    let mut k: usize = 0;
    let mut most: usize = 0;
    for t in piece {
        k = level_after(k, *t);
        most = most.max(k);
    }
    most
}

// "over 64 deep": whether a piece, at its place, is at most 64 deep. No place is deeper, so a piece that opens no element is.
pub fn shallow_at(doc: &[u32], at: usize, piece: &[u32]) -> bool
    requires { (at ≤ most_tokens) × (at ≤ length doc.now) × (open_in (toks (take at doc.now)) ≤ most_deep) }
    ensures { result ≡ leb (open_in (toks (take at doc.now)) + deep 0 (toks piece.now)) most_deep }
{
    let below = depth(piece);
    if below == 0 {
        return true;
    }
    below <= paper::MOST_DEEP - open_in(&doc[..at])
}
