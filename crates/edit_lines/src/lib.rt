// The lines of the edits in an edit file: each edit is split off, made and told.
//
// The table is a proper one. The edits change the document that is lent; the lines go into a buffer with room for as many as a file can
// ask for. Each edit is lent a second buffer with room for any inverse, and the counts as the edit before it left them. Assumes nothing.
#![tactic(auto)]

ghost use Rattle.std.specs.Prelude.{◌≡◌, true, ◌≤◌, length};
ghost use Rattle.paper.specs.Basics.{most_file};
ghost use Rattle.paper.specs.Table.{proper};
ghost use Rattle.paper.specs.Rules.{of_table};
ghost use Rattle.paper.specs.Edits.{edit};
ghost use Rattle.paper.specs.Program.{edit_lines};
ghost use Rattle.edits.specs.Outcomes.{outcome_of};
ghost use Rattle.lines.specs.Put.{Put};
ghost use Rattle.lines.specs.Lines.{text, line_room};
ghost use Rattle.edit_lines.specs.Run.{output_room, asked};

use edit_file::{Edit, edit_at};
use edits::{Answer, edit};
use lines::{LINE, put_due_stop, put_line};
use paper::{MOST_BACK, MOST_ELEMENTS, MOST_TOKENS};

// Room for every line: an edit is three bytes or more, so there are at most 21,845, with the check's line before them and a stop after.
pub const OUTPUT: usize = 21847 * LINE;

// The edit that was read is made. Its piece is the first tokens of what was put.
fn make(
    table: &[u64],
    doc: &mut [u32],
    used: usize,
    e: Edit,
    piece: &[u32],
    back: &mut [u32],
    counts: &mut [i32; MOST_ELEMENTS],
) -> Answer
    requires { e.count ≤ length piece.now }
    ensures { outcome_of result doc.new back.new counts.new ≡ edit table.now doc.old used (asked e piece.now) back.old counts.old }
{
    let n = e.count;
    let place = e.place as usize;
    let part = &piece[..n];
    edit(table, doc, used, e.operation, place, part, back, counts)
}

// "one for each edit, from 1"
pub fn put_edits(
    table: &[u64],
    doc: &mut [u32],
    used: usize,
    file: &[u8],
    out: &mut [u8],
    at: usize,
    counts: &mut [i32; MOST_ELEMENTS],
) -> usize
    requires { (proper table.now ≡ true) × (length file.now ≤ most_file) × (length out.old ≡ output_room) × (at ≤ line_room) }
    ensures { Put out.old at (text (edit_lines (length file.now) (of_table table.now) 1 doc.old used counts.old file.now)) result out.new }
{
    let mut piece = [0u32; MOST_TOKENS];
    let mut back = [0u32; MOST_BACK];
    let mut held = used;
    let mut from: usize = 0;
    let mut k: usize = 1;
    let mut to = at;
    while from < file.len() {
        let e = match edit_at(file, from, &mut piece) {
            Ok(e) => e,
            Err(refusal) => return put_due_stop(out, to, refusal),
        };
        let a = make(table, doc, held, e, &piece, &mut back, counts);
        to = put_line(out, to, k, a.number, a.place, a.used);
        held = a.used;
        from = e.next;
        k += 1;
    }
    to
}
