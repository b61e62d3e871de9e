// The elements of a piece that stands in a document: the first fault among them.
//
// Where one element comes, one text, or neither, the tokens behind the piece are not asked for. So the matching ends are found for the
// piece alone, and a piece of so many tokens costs as much in a long document as in a short one. Nothing is written. Assumes nothing.
#![tactic(auto)]

ghost use Rattle.std.specs.Prelude.{◌≡◌, true, ◌+◌, ◌≤◌, length};
ghost use Rattle.paper.specs.Basics.{most_tokens};
ghost use Rattle.paper.specs.Codes.{told};
ghost use Rattle.paper.specs.Table.{proper};
ghost use Rattle.piece_faults.specs.Alone.{moved_to};
ghost use Rattle.piece_faults.specs.Piece.{told_of, first_of};

use closing::closes;
use judge::first_fault;
use paper::Fault;

// A fault of the piece, its place counted from the front of the document.
fn moved(fault: Fault, at: usize) -> Fault
    requires { (fault.place ≤ most_tokens) × (at ≤ most_tokens) }
    ensures { told_of result ≡ moved_to at (told_of fault) }
{
    let from = at as u32;
    let place = fault.place + from;
    Fault {
        refusal: fault.refusal,
        place,
    }
}

// The piece by itself. Its matching ends go into an array of ROOM places.
fn within<const ROOM: usize>(table: &[u64], piece: &[u32], at: usize) -> Result<(), Fault>
    requires table_value { proper table.now ≡ true }
    requires piece_len_bound { (length piece.now + at ≤ most_tokens) × (length piece.now ≤ ROOM) × (ROOM ≤ most_tokens) }
    ensures { told result ≡ first_of table.now piece.now at }
{
    let mut ends = [0u32; ROOM];
    closes(piece, &mut ends);
    match first_fault(table, piece, &ends, 0, piece.len()) {
        Ok(()) => Ok(()),
        Err(fault) => Err(moved(fault, at)),
    }
}

// Of a piece of so many tokens or fewer the matching ends go into a short array, which is sooner made.
const SHORT: usize = 512;

// The first fault among the elements of a piece, which stands at a place.
pub fn piece_fault(table: &[u64], piece: &[u32], at: usize) -> Result<(), Fault>
    requires table_value { proper table.now ≡ true }
    requires piece_len_bound { length piece.now + at ≤ most_tokens }
    ensures { told result ≡ first_of table.now piece.now at }
{
    if piece.len() <= SHORT {
        return within::<SHORT>(table, piece, at);
    }
    within::<{ paper::MOST_TOKENS }>(table, piece, at)
}
