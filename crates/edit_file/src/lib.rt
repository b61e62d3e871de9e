// The edit file, split into its edits: "(operation, place, piece count, piece)", one after another.
//
// An edit is read at a place of the file, and its piece goes into a lent buffer. Where the file ends inside an edit, a number is broken
// or a piece is too long, the number of the stop is told. Assumes nothing.
#![tactic(auto)]

ghost use Rattle.std.specs.Prelude.{◌≡◌, ◌≤◌, length};
ghost use Rattle.paper.specs.Basics.{most_tokens};
ghost use Rattle.edit_file.specs.Piece.{PieceAt};
ghost use Rattle.edit_file.specs.Request.{EditAt};

use paper::{MOST_TOKENS, MOST_VALUE, Refusal};
use reading::number_in;

// The numbers at a place of the file go into the piece, as many as it has places; the place after them.
fn put_piece(file: &[u8], at: usize, piece: &mut [u32]) -> Result<usize, Refusal>
    requires { at ≤ length file.now }
    ensures { PieceAt (length piece.old) file.now at piece.new result }
{
    let mut from = at;
    for t in piece.iter_mut() {
        let n = number_in(file, from, 0, MOST_VALUE)?;
        *t = n.value;
        from = n.next;
    }
    Ok(from)
}

// An edit that was read: the place after it, and what it asks for, its piece being the first `count` tokens.
#[derive(Clone, Copy)]
pub struct Edit {
    pub next: usize,
    pub operation: u32,
    pub place: u32,
    pub count: usize,
}

// The edit at a place of the file. "5 for a piece count over 8,192"
pub fn edit_at(file: &[u8], at: usize, piece: &mut [u32]) -> Result<Edit, Refusal>
    requires { length piece.old ≡ most_tokens }
    ensures { EditAt file.now at piece.new result }
{
    let operation = number_in(file, at, 0, MOST_VALUE)?;
    let place = number_in(file, operation.next, 0, MOST_VALUE)?;
    let n = number_in(file, place.next, 0, MOST_VALUE)?;
    let count = n.value as usize;
    if count > MOST_TOKENS {
        return Err(Refusal::Room);
    }
    let next = put_piece(file, n.next, &mut piece[..count])?;
    Ok(Edit {
        next,
        operation: operation.value,
        place: place.value,
        count,
    })
}
