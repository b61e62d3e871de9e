// The judgement of a document by a table: one element, the first fault among elements, and the whole check.
//
// One element is judged in one pass over its attributes and one over its children. So a check reads each token a few times, whatever the
// depth. `check` asks nothing of its arguments, and no call writes to what it is lent. Assumes nothing.
#![tactic(auto)]

ghost use Rattle.std.specs.Prelude.{◌≡◌, true, ◌≤◌, ◌<◌, length};
ghost use Rattle.paper.specs.Basics.{most_tokens};
ghost use Rattle.paper.specs.Codes.{told};
ghost use Rattle.paper.specs.Tokens.{toks};
ghost use Rattle.paper.specs.Table.{proper};
ghost use Rattle.paper.specs.Rules.{of_table};
ghost use Rattle.paper.specs.Judgement.{root_fault, judge, whole, check};
ghost use Rattle.children.specs.Closed.{Closed};
ghost use Rattle.judge.specs.Elements.{fault_from, kids_from, fault_of, kids_of, Told, first_in};

use attributes::attributes;
use children::content;
use keys::key_fault;
use paper::{Fault, Refusal};
use tokens::{is_start, number};

// An element by its name, where its start stands at a place: how many children it has; or 7, 8 or 9. 7 and 8 give the start's place, 9
// that where its content stops.
fn fault_from(
    table: &[u64],
    e: u32,
    doc: &[u32],
    closes: &[u32],
    start: usize,
) -> Result<u32, Fault>
    requires table_value { proper table.now ≡ true }
    requires closed { Closed doc.now closes.now }
    requires start_in_bounds { (length doc.now ≤ most_tokens) × (start < length doc.now) }
    ensures { Told (fault_from table.now e doc.now start) (kids_from doc.now start) result }
{
    let here = start as u32;
    if e as u64 >= table[0] {
        return Err(Fault {
            refusal: Refusal::Name,
            place: here,
        });
    }
    let name = e as usize;
    match attributes(table, name, doc, start + 1) {
        Err(_) => Err(Fault {
            refusal: Refusal::Attributes,
            place: here,
        }),
        Ok(after) => match content(table, name, doc, closes, after) {
            Ok(children) => Ok(children),
            Err(place) => Err(Fault {
                refusal: Refusal::Content,
                place: place as u32,
            }),
        },
    }
}

// The element that starts at place i: how many children it has, or its fault; no child, where none starts.
pub fn element_fault(table: &[u64], doc: &[u32], closes: &[u32], i: usize) -> Result<u32, Fault>
    requires table_value { proper table.now ≡ true }
    requires closed { Closed doc.now closes.now }
    requires doc_len_bound { length doc.now ≤ most_tokens }
    ensures { Told (fault_of table.now doc.now i) (kids_of doc.now i) result }
{
    if doc.len() <= i {
        return Ok(0);
    }
    let t = doc[i];
    if !is_start(t) {
        return Ok(0);
    }
    fault_from(table, number(t), doc, closes, i)
}

// The first fault among the elements that start from place `low` up to `high`, that one not included.
pub fn first_fault(
    table: &[u64],
    doc: &[u32],
    closes: &[u32],
    low: usize,
    high: usize,
) -> Result<(), Fault>
    requires table_value { proper table.now ≡ true }
    requires closed { Closed doc.now closes.now }
    requires high_in_bounds { (length doc.now ≤ most_tokens) × (high ≤ length doc.now) }
    ensures { told result ≡ first_in table.now doc.now low high }
{
    for i in low..high {
        if !is_start(doc[i]) {
            continue;
        }
        element_fault(table, doc, closes, i)?;
    }
    Ok(())
}

// "the root's name (10, place 0)"
pub fn root_fault(table: &[u64], doc: &[u32]) -> Result<(), Fault>
    requires { proper table.now ≡ true }
    ensures { told result ≡ root_fault (of_table table.now) (toks doc.now) }
{
    if doc.len() == 0 {
        return Ok(());
    }
    let t = doc[0];
    if !is_start(t) {
        return Ok(());
    }
    if number(t) as u64 == table[1] {
        return Ok(());
    }
    Err(Fault {
        refusal: Refusal::Root,
        place: 0,
    })
}

// The judgement of a whole document with shape: the root, every element, IDs and references.
pub fn judged_whole(table: &[u64], doc: &[u32]) -> Result<(), Fault>
    requires { (proper table.now ≡ true) × (length doc.now ≤ most_tokens) }
    ensures { told result ≡ judge (of_table table.now) whole (toks doc.now) }
{
    root_fault(table, doc)?;
    let mut closes = [0u32; paper::MOST_TOKENS];
    closing::closes(doc, &mut closes);
    first_fault(table, doc, &closes, 0, doc.len())?;
    key_fault(table, doc)
}

// The check of a document. "Order: table proper (13); shape (4); the root's name (10, place 0); then elements by rising start place
// [..] (7, 8, 9) [..] Then an ID value met earlier as an ID (11 [..]); then a reference value that is no ID in the document (12 [..])."
pub fn check(table: &[u64], doc: &[u32], used: usize) -> Result<(), Fault>
    ensures { told result ≡ check table.now doc.now used }
{
    if !proper::proper(table) {
        return Err(Fault {
            refusal: Refusal::Table,
            place: 0,
        });
    }
    if !shape::shape(doc, used) {
        return Err(Fault {
            refusal: Refusal::Shape,
            place: 0,
        });
    }
    judged_whole(table, &doc[..used])
}
