// The host library: the calls under the names and types of C. `include/shrikemuff.h` describes them to a host, and `shrikemuff_c` exports
// them.
//
// A slice is a pointer and a length, a struct is C's struct. No call asks anything of its arguments, allocates or keeps state; the
// contract of each fixes the whole outcome: the answer and every place of lent memory. `proofs/Contracts.antt` holds them to the
// paper's.
// Assumes nothing.
#![tactic(auto)]

pub mod version;

ghost use Rattle.paper.specs.Calls.{Reads, Writes, Translates, Checks, Performs, Tells, PerformsList, PerformsGroup, Compares, Imports, Names, Spots};
ghost use Rattle.docfile.specs.Outcome.{outcome as counted};
ghost use Rattle.compare.specs.Outcome.{outcome_of as compared};
ghost use Rattle.shrikemuff.specs.Outcomes.{edited, listed, grouped, spotted};

use compare::Compared;
use docfile::Count;

// "The check answers number and place"
#[repr(C)]
#[derive(Clone, Copy)]
pub struct Verdict {
    pub number: u32,
    pub place: u32,
}

// "The answer has number, place, used length, and the change in length, a signed count that is negative when tokens went." Item 10: "A done
// edit reports the number of children looked at".
#[repr(C)]
#[derive(Clone, Copy)]
pub struct Answer {
    pub number: u32,
    pub place: u32,
    pub used: u64,
    pub change: i32,
    pub children: u32,
}

// Item 6: "Document, last answer and number of edits done".
#[repr(C)]
#[derive(Clone, Copy)]
pub struct Listed {
    pub last: Answer,
    pub done: u32,
}

// Item 9: number and place, the whole group's used length and change, and "which edit it was, from 1 (else 0)".
#[repr(C)]
#[derive(Clone, Copy)]
pub struct Grouped {
    pub number: u32,
    pub place: u32,
    pub used: u64,
    pub change: i32,
    pub which: u32,
}

// Items 4 and 13: the byte offset in a text of what is at fault.
#[repr(C)]
#[derive(Clone, Copy)]
pub struct Spot {
    pub number: u32,
    pub offset: u64,
}

// Reads a document file into the first places of the buffer.
pub fn shrike_read(file: &[u8], tokens: &mut [u32]) -> Count
    ensures { Reads file.now tokens.old (counted result tokens.new) }
{
    docfile::read(file, tokens)
}

// Writes every token of the slice into the first bytes of the buffer.
pub fn shrike_write(tokens: &[u32], file: &mut [u8]) -> Count
    ensures { Writes tokens.now file.old (counted result file.new) }
{
    doc_writer::write(tokens, file)
}

// Translates a schema file to a table.
pub fn shrike_translate(file: &[u8], table: &mut [u64]) -> u32
    ensures { Translates file.now table.old (result, table.new) }
{
    match schema::translate(file, table) {
        Ok(()) => paper::DONE,
        Err(refusal) => refusal.number(),
    }
}

// Checks the first `used` tokens of the buffer. A check that says valid writes the counts.
pub fn shrike_check(
    table: &[u64],
    doc: &[u32],
    used: u64,
    counts: &mut [i32; paper::MOST_ELEMENTS],
) -> Verdict
    ensures { Checks table.now doc.now used counts.old ((result.number, result.place), counts.new) }
{
    match checks::check(table, doc, used as usize, counts) {
        Ok(()) => Verdict {
            number: paper::DONE,
            place: 0,
        },
        Err(fault) => Verdict {
            number: fault.refusal.number(),
            place: fault.place,
        },
    }
}

// Makes an edit of the first `used` tokens of the buffer, or refuses it. A done edit writes the edit that takes it back into the first
// places of the second buffer, and moves the counts.
pub fn shrike_edit(
    table: &[u64],
    doc: &mut [u32],
    used: u64,
    operation: u32,
    place: u64,
    piece: &[u32],
    back: &mut [u32],
    counts: &mut [i32; paper::MOST_ELEMENTS],
) -> Answer
    ensures { Performs table.now doc.old used (record { operation = operation; place = place; piece = piece.now }) back.old counts.old (edited result doc.new back.new counts.new) }
{
    let made = edits::edit(
        table,
        doc,
        used as usize,
        operation,
        place as usize,
        piece,
        back,
        counts,
    );
    Answer {
        number: made.number,
        place: made.place,
        used: made.used as u64,
        change: made.change,
        children: made.children,
    }
}

// The number of elements of a name, answered from the counts.
pub fn shrike_elements(table: &[u64], counts: &[i32; paper::MOST_ELEMENTS], name: u32) -> Count
    ensures { Tells table.now counts.now name (result.number, result.count) }
{
    checks::elements(table, counts, name)
}

// Makes the edits of a list one after another, up to the first refusal. No inverse is written; the counts are carried along.
pub fn shrike_list(
    table: &[u64],
    doc: &mut [u32],
    used: u64,
    list: &[u32],
    counts: &mut [i32; paper::MOST_ELEMENTS],
) -> Listed
    ensures { PerformsList table.now doc.old used list.now counts.old (listed result doc.new counts.new) }
{
    let came = lists::list(table, doc, used as usize, list, counts);
    let last = came.last;
    Listed {
        last: Answer {
            number: last.number,
            place: last.place,
            used: last.used as u64,
            change: last.change,
            children: last.children,
        },
        done: came.done,
    }
}

// Makes the edits of a list on the second buffer, judges the last document whole, and copies it back if it is valid. No inverse is written.
pub fn shrike_group(
    table: &[u64],
    doc: &mut [u32],
    used: u64,
    list: &[u32],
    second: &mut [u32],
) -> Grouped
    ensures { PerformsGroup table.now doc.old used list.now second.old (grouped result doc.new second.new) }
{
    let came = groups::group(table, doc, used as usize, list, second);
    Grouped {
        number: came.number,
        place: came.place,
        used: came.used as u64,
        change: came.change,
        which: came.which,
    }
}

// Compares an element's content in two tables; what is lost is written into the first places of the buffer.
pub fn shrike_compare(old: &[u64], new: &[u64], element: u32, sequence: &mut [u32]) -> Compared
    ensures { Compares old.now new.now element sequence.old (compared result sequence.new) }
{
    compare::compare(old, new, element, sequence)
}

// Turns a DTD text into a schema file, in the first bytes of the buffer.
pub fn shrike_import(text: &[u8], file: &mut [u8]) -> Count
    ensures { Imports text.now file.old (counted result file.new) }
{
    dtd::import(text, file)
}

// Writes the names of a DTD text into the first bytes of the buffer.
pub fn shrike_names(text: &[u8], names: &mut [u8]) -> Count
    ensures { Names text.now names.old (counted result names.new) }
{
    dtd::names(text, names)
}

// Tells where a DTD text is refused.
pub fn shrike_import_spot(text: &[u8]) -> Spot
    ensures { Spots text.now (spotted result) }
{
    let met = dtd::import_spot(text);
    Spot {
        number: met.number,
        offset: met.offset as u64,
    }
}
