// The splice: a document with some tokens at a place replaced by a piece, written to another buffer by three copies.
//
// What it does not fill keeps its contents.
// Assumes nothing.
#![tactic(auto)]

ghost use Rattle.std.specs.Prelude.{◌≡◌, ◌++◌, ◌+◌, ◌-◌, ◌≤◌, length, drop};
ghost use Rattle.paper.specs.Edits.{splice};

use copying::copy;

// Writes the document, with `cut` tokens at a place replaced by a piece, to the front of new.
pub fn splice_into(new: &mut [u32], doc: &[u32], at: usize, cut: usize, piece: &[u32])
    requires { (at + cut ≤ length doc.now) × (length doc.now - cut + length piece.now ≤ length new.old) }
    ensures { new.new ≡ splice at cut piece.now doc.now ++ drop (length doc.now - cut + length piece.now) new.old }
{
    let n = piece.len();
    let from = at + cut;
    copy(new, 0, doc, 0, at);
    copy(new, at, piece, 0, n);
    copy(new, at + n, doc, from, doc.len() - from);
}
