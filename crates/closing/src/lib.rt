// Matching ends: for every place of a document the place of the end that closes the element that is open there.
//
// It holds of any tokens, with shape or without; what it asks is that there is room for the places.
// Assumes nothing.
#![tactic(auto)]

ghost use Rattle.std.specs.Prelude.{◌≡◌, ◌++◌, ◌≤◌, length, drop};
ghost use Rattle.paper.specs.Basics.{most_tokens};
ghost use Rattle.paper.specs.Tokens.{tok_of, toks};
ghost use Rattle.closing.specs.Closing.{closing, closing_at};

use tokens::{is_end, is_start};

// What `closes` writes at place p for a token: e is what stands at p + 1, and the places behind it are written.
fn closing_at(out: &[u32], p: usize, e: usize, t: u32) -> usize
    requires { e ≤ length out.now }
    ensures { result ≡ closing_at out.now p e (tok_of t) }
{
    if is_start(t) {
        if e + 1 < out.len() {
            return out[e + 1] as usize;
        }
        return out.len();
    }
    if is_end(t) {
        return p;
    }
    e
}

// Writes for each place the place of the end that closes the element that is open there; the length, where none does. One pass from the
// last place to the first. Places behind the document's keep their contents.
pub fn closes(doc: &[u32], out: &mut [u32])
    requires { (length doc.now ≤ most_tokens) × (length doc.now ≤ length out.old) }
    ensures { out.new ≡ closing 0 (toks doc.now) ++ drop (length doc.now) out.old }
{
    let mut e = doc.len();
    for p in (0..doc.len()).rev() {
        e = closing_at(&out[..doc.len()], p, e, doc[p]);
        out[p] = e as u32;
    }
}
