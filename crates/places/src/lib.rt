// Questions about one place of a document: its token, the end of an element, the size of an item, the parent.
//
// Every call holds of any tokens, with shape or without; what it asks is that places lie in the document.
// Assumes nothing.
#![tactic(auto)]

ghost use Rattle.std.specs.Prelude.{◌≡◌, ◌+◌, ◌^◌, ◌≤◌, ◌<◌, length, get_or, take, drop};
ghost use Rattle.paper.specs.Tokens.{tok_of, toks, level_of, end_of, item_size};
ghost use Rattle.shape_laws.specs.Touch.{back_of, parent_of};

use tokens::{is_end, is_start, is_text};

// The token at a place; 0, which is none, where no token stands.
pub fn token_at(doc: &[u32], place: usize) -> u32
    ensures { result ≡ get_or doc.now place 0 }
{
    doc.get(place).copied().unwrap_or(0)
}

// The level after a token.
pub fn level_after(k: usize, t: u32) -> usize
    requires { k + 1 < 2 ^ 64 }
    ensures { result ≡ level_of k (tok_of t) }
{
    if is_start(t) {
        return k + 1;
    }
    if is_end(t) {
        return k.saturating_sub(1);
    }
    k
}

// The place of the end of the element that starts at a place; the length, where it has none.
pub fn end_of(doc: &[u32], place: usize) -> usize
    requires { place < length doc.now }
    ensures { result ≡ end_of (toks doc.now) place }
{
    let mut k: usize = 0;
    for i in place + 1..doc.len() {
        let t = doc[i];
        if is_end(t) & (k == 0) {
            return i;
        }
        k = level_after(k, t);
    }
    doc.len()
}

// The length of the text or element at a place; 0, where none begins.
pub fn item_size(doc: &[u32], place: usize) -> usize
    ensures { result ≡ item_size (drop place (toks doc.now)) }
{
    let t = token_at(doc, place);
    if is_start(t) {
        return end_of(doc, place) - place + 1;
    }
    if is_text(t) {
        return 1;
    }
    0
}

// How many ends have no start yet, with a token and those behind it, where there were k behind it.
fn back(k: usize, t: u32) -> usize
    requires { k + 1 < 2 ^ 64 }
    ensures { result ≡ back_of k (tok_of t) }
{
    if is_end(t) {
        return k + 1;
    }
    if is_start(t) {
        return k.saturating_sub(1);
    }
    k
}

// The place of the start of the innermost element that is open at a place; the place itself, where there is none.
pub fn parent_of(doc: &[u32], at: usize) -> usize
    requires { at ≤ length doc.now }
    ensures { result ≡ parent_of (toks (take at doc.now)) }
{
    let mut k: usize = 0;
    for i in (0..at).rev() {
        let t = doc[i];
        if is_start(t) & (k == 0) {
            return i;
        }
        k = back(k, t);
    }
    at
}

// A place that was written, as a number to go on from.
pub fn wide(x: u32) -> usize
    ensures { result ≡ x }
{
    x as usize
}
