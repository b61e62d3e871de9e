// The host library's archive: the calls of `shrikemuff`, exported under their names in `include/shrikemuff.h`.
//
// Each call hands its arguments to the function of `shrikemuff` that has its name, and promises what that one promises. It asks nothing of
// its arguments. `proofs/Contracts.antt` holds the contracts to the paper's.
// Assumes nothing.
#![tactic(auto)]

ghost use Rattle.std.specs.Prelude.{◌≡◌};
ghost use Rattle.paper.specs.Calls.{Reads, Writes, Translates, Checks, Performs, Tells, PerformsList, PerformsGroup, Compares, Imports, Names, Spots};
ghost use Rattle.docfile.specs.Outcome.{outcome as counted};
ghost use Rattle.compare.specs.Outcome.{outcome_of as compared};
ghost use Rattle.shrikemuff.specs.Outcomes.{edited, listed, grouped, spotted};
ghost use Rattle.shrikemuff.specs.Version.{version};

use compare::Compared;
use docfile::Count;
use shrikemuff::{Answer, Grouped, Listed, Spot, Verdict};

// major × 1,000,000 + minor × 1,000 + patch
#[unsafe(no_mangle)]
pub extern "C" fn shrike_version() -> u32
    ensures { result ≡ version }
{
    shrikemuff::version::shrike_version()
}

// Reads a document file into the first places of the buffer.
#[unsafe(no_mangle)]
pub extern "C" fn shrike_read(file: &[u8], tokens: &mut [u32]) -> Count
    ensures { Reads file.now tokens.old (counted result tokens.new) }
{
    shrikemuff::shrike_read(file, tokens)
}

// Writes every token of the slice into the first bytes of the buffer.
#[unsafe(no_mangle)]
pub extern "C" fn shrike_write(tokens: &[u32], file: &mut [u8]) -> Count
    ensures { Writes tokens.now file.old (counted result file.new) }
{
    shrikemuff::shrike_write(tokens, file)
}

// Translates a schema file to a table.
#[unsafe(no_mangle)]
pub extern "C" fn shrike_translate(file: &[u8], table: &mut [u64]) -> u32
    ensures { Translates file.now table.old (result, table.new) }
{
    shrikemuff::shrike_translate(file, table)
}

// Checks the first `used` tokens of the buffer. A check that says valid writes the counts.
#[unsafe(no_mangle)]
pub extern "C" fn shrike_check(
    table: &[u64],
    doc: &[u32],
    used: u64,
    counts: &mut [i32; paper::MOST_ELEMENTS],
) -> Verdict
    ensures { Checks table.now doc.now used counts.old ((result.number, result.place), counts.new) }
{
    shrikemuff::shrike_check(table, doc, used, counts)
}

// Makes an edit of the first `used` tokens of the buffer, or refuses it. A done edit writes the edit that takes it back into the first
// places of the second buffer, and moves the counts.
#[unsafe(no_mangle)]
pub extern "C" fn shrike_edit(
    table: &[u64],
    doc: &mut [u32],
    used: u64,
    operation: u32,
    place: u64,
    piece: &[u32],
    back: &mut [u32],
    counts: &mut [i32; paper::MOST_ELEMENTS],
) -> Answer
    ensures { Performs table.now doc.old used (record { operation = operation; place = place; piece = piece.now }) back.old counts.old (edited result doc.new back.new counts.new) }
{
    shrikemuff::shrike_edit(table, doc, used, operation, place, piece, back, counts)
}

// The number of elements of a name, answered from the counts.
#[unsafe(no_mangle)]
pub extern "C" fn shrike_elements(
    table: &[u64],
    counts: &[i32; paper::MOST_ELEMENTS],
    name: u32,
) -> Count
    ensures { Tells table.now counts.now name (result.number, result.count) }
{
    shrikemuff::shrike_elements(table, counts, name)
}

// Makes the edits of a list one after another, up to the first refusal. No inverse is written; the counts are carried along.
#[unsafe(no_mangle)]
pub extern "C" fn shrike_list(
    table: &[u64],
    doc: &mut [u32],
    used: u64,
    list: &[u32],
    counts: &mut [i32; paper::MOST_ELEMENTS],
) -> Listed
    ensures { PerformsList table.now doc.old used list.now counts.old (listed result doc.new counts.new) }
{
    shrikemuff::shrike_list(table, doc, used, list, counts)
}

// Makes the edits of a list on the second buffer, judges the last document whole, and copies it back if it is valid. No inverse is written.
#[unsafe(no_mangle)]
pub extern "C" fn shrike_group(
    table: &[u64],
    doc: &mut [u32],
    used: u64,
    list: &[u32],
    second: &mut [u32],
) -> Grouped
    ensures { PerformsGroup table.now doc.old used list.now second.old (grouped result doc.new second.new) }
{
    shrikemuff::shrike_group(table, doc, used, list, second)
}

// Compares an element's content in two tables; what is lost is written into the first places of the buffer.
#[unsafe(no_mangle)]
pub extern "C" fn shrike_compare(
    old: &[u64],
    new: &[u64],
    element: u32,
    sequence: &mut [u32],
) -> Compared
    ensures { Compares old.now new.now element sequence.old (compared result sequence.new) }
{
    shrikemuff::shrike_compare(old, new, element, sequence)
}

// Turns a DTD text into a schema file, in the first bytes of the buffer.
#[unsafe(no_mangle)]
pub extern "C" fn shrike_import(text: &[u8], file: &mut [u8]) -> Count
    ensures { Imports text.now file.old (counted result file.new) }
{
    shrikemuff::shrike_import(text, file)
}

// Writes the names of a DTD text into the first bytes of the buffer.
#[unsafe(no_mangle)]
pub extern "C" fn shrike_names(text: &[u8], names: &mut [u8]) -> Count
    ensures { Names text.now names.old (counted result names.new) }
{
    shrikemuff::shrike_names(text, names)
}

// Tells where a DTD text is refused.
#[unsafe(no_mangle)]
pub extern "C" fn shrike_import_spot(text: &[u8]) -> Spot
    ensures { Spots text.now (spotted result) }
{
    shrikemuff::shrike_import_spot(text)
}
