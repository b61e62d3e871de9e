// The judgement of an edited document where IDs and references are kept from edit to edit.
//
// Root and elements are judged at what is touched. Of IDs and references only what goes and what comes is looked at; if they have a fault,
// "the place is found by the whole pass". The table is a proper one; the field and the counts are lent by the caller. Assumes nothing.
#![tactic(auto)]

ghost use Rattle.std.specs.Prelude.{◌≡◌, true};
ghost use Rattle.paper.specs.Table.{proper};
ghost use Rattle.paper.specs.Tokens.{toks};
ghost use Rattle.kept_keys.specs.Follow.{Keeps, Followed};
ghost use Rattle.kept_judged.specs.Edit.{Edit};
ghost use Rattle.kept_judged.specs.Judged.{FoundKept};

use kept_keys::follow;
use keys::key_fault;
use paper::Fault;
use places::token_at;
use tokens::number;
use touched::judged_elements;

// The edit is taken into what is kept of the document. The answer: the edited document has no fault of 11 or 12. An attribute belongs to
// the element at the edit's place.
fn keys_follow(
    table: &[u64],
    doc: &[u32],
    place: usize,
    new: &[u32],
    at: usize,
    coming: usize,
    field: &mut [u64],
    counts: &mut [u16],
) -> bool
    requires table_value { (proper table.now ≡ true) × Edit table.now doc.now place new.now at coming }
    requires keeps { Keeps table.now field.old counts.old (toks doc.now) }
    ensures { Followed table.now new.now field.new counts.new result }
{
    let t = token_at(doc, place);
    let element = number(t);
    follow(table, doc, new, at, coming, element, field, counts)
}

// "Then the edited document is judged as above", at what is touched: `coming` tokens came at a place. What is kept is then that of the edited
// document, if it has no fault.
pub fn judged_kept(
    table: &[u64],
    doc: &[u32],
    place: usize,
    new: &[u32],
    at: usize,
    coming: usize,
    field: &mut [u64],
    counts: &mut [u16],
) -> Result<u32, Fault>
    requires table_value { (proper table.now ≡ true) × Edit table.now doc.now place new.now at coming }
    requires keeps { Keeps table.now field.old counts.old (toks doc.now) }
    ensures { FoundKept table.now new.now at coming field.new counts.new result }
{
    let children = judged_elements(table, new, at, coming)?;
    if keys_follow(table, doc, place, new, at, coming, field, counts) {
        return Ok(children);
    }
    key_fault(table, new)?;
    Ok(children)
}
