// A group of edits of a document, as one call: worked on a second buffer, and judged at its end.
//
// `group` asks nothing of its arguments. What is refused before any edit leaves both buffers as they were. Once an edit has begun the second
// buffer holds the last document that was reached; the first one is written when that is valid, and stays as it was when it is not.
// Assumes nothing.
#![tactic(auto)]

ghost use Rattle.std.specs.Prelude.{◌≡◌, true, ◌≤◌, length};
ghost use Rattle.paper.specs.Codes.{number_of};
ghost use Rattle.paper.specs.Shape.{shape_of};
ghost use Rattle.paper.specs.Table.{proper};
ghost use Rattle.paper.specs.Rules.{of_table};
ghost use Rattle.paper.specs.Lists.{split_list, fault_of};
ghost use Rattle.paper.specs.Groups.{group_by, group};
ghost use Rattle.groups.specs.Outcomes.{outcome_of, refusal_of};

use copying::copy;
use edit_list::list_fault;
use judge::judged_whole;
use paper::Refusal;
use working::work;
use written::{change_of, write};

// A group's answer: number and place, "which edit it was, from 1 (else 0)", and the whole group's used length and change.
#[derive(Clone, Copy)]
pub struct Grouped {
    pub number: u32,
    pub place: u32,
    pub used: usize,
    pub change: i32,
    pub which: u32,
}

// A refusal: the old length, and change 0.
fn refused(refusal: Refusal, place: u32, used: usize, which: u32) -> Grouped
    ensures { result ≡ refusal_of (number_of refusal) place used which }
{
    Grouped {
        number: refusal.number(),
        place,
        used,
        change: 0,
        which,
    }
}

// A group of whole edits, by a proper table, of a document with shape, where the second buffer is long enough. "Each edit is tested [..];
// only the last document is judged, whole. Then it is copied back, with 0 up to the old length, or nothing in the first buffer changes."
fn begun(table: &[u64], doc: &mut [u32], used: usize, list: &[u32], second: &mut [u32]) -> Grouped
    requires { (proper table.now ≡ true) × (shape_of doc.old used ≡ true) × (0 ≡ fault_of (split_list list.now)) × (length doc.old ≤ length second.old) }
    ensures { outcome_of result doc.new second.new ≡ group_by (of_table table.now) doc.old used second.old (split_list list.now) }
{
    copy(second, 0, doc, 0, used);
    let end = match work(second, doc.len(), used, list) {
        Ok(end) => end,
        Err(s) => return refused(s.refusal, 0, used, s.which),
    };
    if let Err(fault) = judged_whole(table, &second[..end]) {
        return refused(fault.refusal, fault.place, used, 0);
    }
    write(doc, used, &second[..end], 0);
    Grouped {
        number: paper::DONE,
        place: 0,
        used: end,
        change: change_of(used, end),
        which: 0,
    }
}

// A group of edits. "Refusals: 13 and shape 4, then the list faults of item 6, then a second buffer shorter than the first (5), all before
// any edit; then the first refused edit's number and which edit it was, from 1 (else 0); then the last document's own fault and place."
pub fn group(
    table: &[u64],
    doc: &mut [u32],
    used: usize,
    list: &[u32],
    second: &mut [u32],
) -> Grouped
    ensures { outcome_of result doc.new second.new ≡ group table.now doc.old used list.now second.old }
{
    if !proper::proper(table) {
        return refused(Refusal::Table, 0, used, 0);
    }
    if !shape::shape(doc, used) {
        return refused(Refusal::Shape, 0, used, 0);
    }
    if let Err(refusal) = list_fault(list) {
        return refused(refusal, 0, used, 0);
    }
    if second.len() < doc.len() {
        return refused(Refusal::Room, 0, used, 0);
    }
    begun(table, doc, used, list, second)
}
