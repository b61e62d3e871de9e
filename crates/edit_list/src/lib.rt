// A list of edits as plain numbers, split into its edits: operation, place, piece count and piece, one after another.
//
// `list_fault` tells whether a list is 1 to 256 whole edits, and `edit_at` hands out the edit at a place of it: what it asks for, and where
// its piece stands. Nothing is copied. Assumes nothing.
#![tactic(auto)]

ghost use Rattle.std.specs.Prelude.{◌≡◌, ◌≤◌, length, drop};
ghost use Rattle.paper.specs.Codes.{said};
ghost use Rattle.paper.specs.Lists.{split_list, fault_of};
ghost use Rattle.edit_list.specs.Places.{whole, Within, Handed};

use paper::{BACK_PIECE, MOST_EDITS, Refusal};

// The list from a place on begins with a whole edit: operation, place, piece count and piece. "ends inside an edit is 4": a piece count over what is left included.
fn whole_at(list: &[u32], at: usize) -> bool
    requires { at ≤ length list.now }
    ensures { result ≡ whole (drop at list.now) }
{
    let left = list.len() - at;
    if left < BACK_PIECE {
        return false;
    }
    let count = list[at + 2] as usize;
    count <= left - BACK_PIECE
}

// An edit of a list: what it asks for, and its piece, which begins at a place and ends before another, where the next edit begins.
#[derive(Clone, Copy)]
pub struct Edit {
    pub operation: u32,
    pub place: u32,
    pub from: usize,
    pub to: usize,
}

// The edit at a place of the list.
pub fn edit_at(list: &[u32], at: usize) -> Edit
    requires { Within list.now at }
    ensures { Handed list.now at result }
{
    let count = list[at + 2] as usize;
    let from = at + BACK_PIECE;
    Edit {
        operation: list[at],
        place: list[at + 1],
        from,
        to: from + count,
    }
}

// The list's own fault: "a list that is empty or ends inside an edit is 4, a 257th edit begun is 5, the first met from the front".
pub fn list_fault(list: &[u32]) -> Result<(), Refusal>
    ensures { said result ≡ fault_of (split_list list.now) }
{
    if list.len() == 0 {
        return Err(Refusal::Shape);
    }
    let mut at: usize = 0;
    let mut begun: usize = 0;
    while at < list.len() {
        if begun == MOST_EDITS {
            return Err(Refusal::Room);
        }
        if !whole_at(list, at) {
            return Err(Refusal::Shape);
        }
        let e = edit_at(list, at);
        at = e.to;
        begun += 1;
    }
    Ok(())
}
