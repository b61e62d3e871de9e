// What a piece adds to the children that an edit looks at.
//
// The children of its elements are its starts and texts less one: each of them but the piece itself is a child of one of its elements.
// Nothing is written. Assumes nothing.
#![tactic(auto)]

ghost use Rattle.std.specs.Prelude.{◌≡◌, ◌-◌, ◌≤◌, length};
ghost use Rattle.paper.specs.Basics.{most_tokens};
ghost use Rattle.paper.specs.Tokens.{toks};
ghost use Rattle.paper.specs.Edits.{opens};
ghost use Rattle.shape_laws.specs.Depth.{count};

use tokens::{is_start, is_text};

// The starts and texts of a piece.
fn items(piece: &[u32]) -> u32
    requires { length piece.now ≤ most_tokens }
    ensures { result ≡ count opens (toks piece.now) }
{
    let mut n: u32 = 0;
    for t in piece {
        n += (is_start(*t) | is_text(*t)) as u32;
    }
    n
}

// Item 10: "plus those of every element in the piece": the starts and texts of the piece, less the piece itself.
pub fn own(piece: &[u32]) -> u32
    requires { length piece.now ≤ most_tokens }
    ensures { result ≡ count opens (toks piece.now) - 1 }
{
    items(piece).saturating_sub(1)
}
