// A list of edits in one call: each is made on what the one before it left, up to the first refusal.
//
// `list` asks nothing of its arguments. The list's own fault comes first. Table and shape are tested once, as answers of the first edit: a
// done edit leaves a document with shape. After it IDs and references are kept from edit to edit. No inverse is written. Assumes nothing.
#![tactic(auto)]

ghost use Rattle.std.specs.Prelude.{◌≡◌, true, ◌≤◌, length, take, drop};
ghost use Rattle.paper.specs.Basics.{most_tokens};
ghost use Rattle.paper.specs.Tokens.{toks};
ghost use Rattle.paper.specs.Shape.{shape_of};
ghost use Rattle.paper.specs.Table.{proper};
ghost use Rattle.paper.specs.Lists.{split_list, fault_of, edit_list};
ghost use Rattle.kept_keys.specs.Follow.{Keeps};
ghost use Rattle.lists.specs.Outcomes.{listed_of, list_refusal};
ghost use Rattle.lists.specs.Kept.{Begun, Ended};
ghost use Rattle.lists.specs.First.{FirstOf};

use edit_list::{edit_at, list_fault};
use edits::{Answer, refused};
use field::WORDS;
use kept_keys::learn;
use key_moves::VALUES;
use next_edits::{kept_edit, next_edit};

// "Document, last answer and number of edits done": the answer of the last edit that was run, and how many were done, without a refused one.
#[derive(Clone, Copy)]
pub struct Listed {
    pub last: Answer,
    pub done: u32,
}

// The edits of a list without a fault, made on a document with shape that has no fault of 11 or 12, by a proper table. "It ends at the first
// refusal; what was done before stands." What is kept of the document's IDs and references goes along.
fn go_on(
    table: &[u64],
    doc: &mut [u32],
    used: usize,
    list: &[u32],
    counts: &mut [i32; paper::MOST_ELEMENTS],
    new: &mut [u32],
    field: &mut [u64],
    referred: &mut [u16],
) -> Listed
    requires begun { Begun table.now doc.old used list.now new.old }
    requires keeps { Keeps table.now field.old referred.old (toks (take used doc.old)) }
    ensures { Ended table.now doc.old used list.now counts.old doc.new counts.new result }
{
    let mut last = refused(paper::DONE, 0, used);
    let mut done: u32 = 0;
    let mut at: usize = 0;
    while at < list.len() {
        let e = edit_at(list, at);
        let from = e.from;
        let to = e.to;
        last = kept_edit(
            table,
            doc,
            last.used,
            e.operation,
            e.place as usize,
            &list[from..to],
            counts,
            new,
            field,
            referred,
        );
        if last.number != paper::DONE {
            return Listed { last, done };
        }
        done += 1;
        at = to;
    }
    Listed { last, done }
}

// .. from a place of a list on, where nothing is kept yet: IDs and references are learned first. 65,536 bits and 65,536 counts are cleared for it.
fn learn_and_go_on(
    table: &[u64],
    doc: &mut [u32],
    used: usize,
    list: &[u32],
    from: usize,
    counts: &mut [i32; paper::MOST_ELEMENTS],
    new: &mut [u32],
) -> Listed
    requires { Begun table.now doc.old used (drop from list.now) new.old × (from ≤ length list.now) }
    ensures { Ended table.now doc.old used (drop from list.now) counts.old doc.new counts.new result }
{
    let mut field = [0u64; WORDS];
    let mut referred = [0u16; VALUES];
    learn(table, &doc[..used], &mut field, &mut referred);
    go_on(
        table,
        doc,
        used,
        &list[from..],
        counts,
        new,
        &mut field,
        &mut referred,
    )
}

// The answer of a list's first edit, and the place behind it.
#[derive(Clone, Copy)]
struct First {
    answer: Answer,
    to: usize,
}

// The first edit of a list.
fn first_edit(
    table: &[u64],
    doc: &mut [u32],
    used: usize,
    list: &[u32],
    counts: &mut [i32; paper::MOST_ELEMENTS],
    new: &mut [u32],
) -> First
    requires { (proper table.now ≡ true) × (shape_of doc.old used ≡ true) × (0 ≡ fault_of (split_list list.now)) × (length new.old ≡ most_tokens) }
    ensures { FirstOf table.now doc.old used list.now counts.old doc.new counts.new result }
{
    let e = edit_at(list, 0);
    let from = e.from;
    let to = e.to;
    let answer = next_edit(
        table,
        doc,
        used,
        e.operation,
        e.place as usize,
        &list[from..to],
        counts,
        new,
    );
    First { answer, to }
}

// The edits of a list without a fault, made on a document with shape, by a proper table: the first, and if it is done, those behind it. After a
// done edit IDs and references have no fault.
fn run(
    table: &[u64],
    doc: &mut [u32],
    used: usize,
    list: &[u32],
    counts: &mut [i32; paper::MOST_ELEMENTS],
) -> Listed
    requires { (proper table.now ≡ true) × (shape_of doc.old used ≡ true) × (0 ≡ fault_of (split_list list.now)) }
    ensures { listed_of result doc.new counts.new ≡ edit_list table.now doc.old used list.now counts.old }
{
    let mut new = [0u32; paper::MOST_TOKENS];
    let first = first_edit(table, doc, used, list, counts, &mut new);
    let answer = first.answer;
    if answer.number != paper::DONE {
        return Listed {
            last: answer,
            done: 0,
        };
    }
    if list.len() <= first.to {
        return Listed {
            last: answer,
            done: 1,
        };
    }
    let rest = learn_and_go_on(table, doc, answer.used, list, first.to, counts, &mut new);
    let last = rest.last;
    let done = rest.done + 1;
    Listed { last, done }
}

// A list of which no edit is done.
fn none_done(number: u32, used: usize) -> Listed
    ensures { result ≡ list_refusal number used }
{
    Listed {
        last: refused(number, 0, used),
        done: 0,
    }
}

// A list without a fault. Table and shape are tested once, as answers of the first edit.
fn good_list(
    table: &[u64],
    doc: &mut [u32],
    used: usize,
    list: &[u32],
    counts: &mut [i32; paper::MOST_ELEMENTS],
) -> Listed
    requires { 0 ≡ fault_of (split_list list.now) }
    ensures { listed_of result doc.new counts.new ≡ edit_list table.now doc.old used list.now counts.old }
{
    if !proper::proper(table) {
        return none_done(paper::TABLE, used);
    }
    if !shape::shape(doc, used) {
        return none_done(paper::SHAPE, used);
    }
    run(table, doc, used, list, counts)
}

// "One call takes a list of 1 to 256 edits." "Document, last answer and number of edits done are those of single calls."
pub fn list(
    table: &[u64],
    doc: &mut [u32],
    used: usize,
    list: &[u32],
    counts: &mut [i32; paper::MOST_ELEMENTS],
) -> Listed
    ensures { listed_of result doc.new counts.new ≡ edit_list table.now doc.old used list.now counts.old }
{
    match list_fault(list) {
        Err(refusal) => none_done(refusal.number(), used),
        Ok(()) => good_list(table, doc, used, list, counts),
    }
}
