// The check that writes counts, and the question that is answered from them (item 7).
//
// Assumes nothing.
#![tactic(auto)]

ghost use Rattle.paper.specs.Calls.{Checks, Tells};
ghost use Rattle.paper.specs.Codes.{told};

use counts::{count, read};
use docfile::Count;
use paper::Fault;

// The check of a document. "written by a check that says valid": the counts are then a fresh count, else as they were.
pub fn check(
    table: &[u64],
    doc: &[u32],
    used: usize,
    counts: &mut [i32; paper::MOST_ELEMENTS],
) -> Result<(), Fault>
    ensures { Checks table.now doc.now used counts.old (told result, counts.new) }
{
    judge::check(table, doc, used)?;
    let elements = table[0] as u32;
    count(&doc[..used], elements, counts);
    Ok(())
}

// "and answer from them": the number of elements of a name. "Names of E and above [..] answer 0." 13 for a table that is not proper; 15 for a
// count "below 0 or above 8,192".
pub fn elements(table: &[u64], counts: &[i32; paper::MOST_ELEMENTS], name: u32) -> Count
    ensures { Tells table.now counts.now name (result.number, result.count) }
{
    if !proper::proper(table) {
        return Count {
            number: paper::TABLE,
            count: 0,
        };
    }
    let Some(now) = read(counts) else {
        return Count {
            number: paper::COUNTS,
            count: 0,
        };
    };
    if name as u64 >= table[0] {
        return Count {
            number: paper::DONE,
            count: 0,
        };
    }
    Count {
        number: paper::DONE,
        count: now[name as usize],
    }
}
