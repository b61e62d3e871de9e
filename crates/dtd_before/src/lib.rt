// Item 4, "DTD files as they come": what an element's earlier ATTLISTs defined, found by going once more along the text that was read.
// That text is known to be sound, so that nothing is tested here but what stands where. Assumes nothing.
#![tactic(auto)]

ghost use Rattle.std.specs.Prelude.{◌≤◌, length, drop};
ghost use Rattle.paper.specs.Dtd.Letters.{is_white, is_more, past};
ghost use Rattle.paper.specs.Dtd.Declarations.{defined_for, attribute_names};
ghost use Rattle.paper.specs.Dtd.Readers.{kind, status};
ghost use Rattle.dtd_words.specs.Places.{At};
ghost use Rattle.dtd_kinds.specs.Kinds.{KindCame, StatusCame};
ghost use Rattle.dtd_names.specs.Named.{name_at};
ghost use Rattle.dtd_rows.specs.Rows.{RowOf};
ghost use Rattle.dtd_before.specs.Ends.{beyond};
ghost use Rattle.dtd_before.specs.Paths.{declared_to};
ghost use Rattle.dtd_before.specs.Scans.{Ready, Scan, Due};
ghost use Rattle.dtd_before.specs.Defining.{Mid};

use dtd_comments::comment_end;
use dtd_kinds::{Kinded, Stated, kind_at, status_at};
use dtd_names::{find_name, same_at};
use dtd_rows::{Row, no_row, with_definition};
use dtd_words::{Fault, byte_at, is_white, name_end, skip_white};

// Behind the next `>`, with which a declaration ends.
fn past_greater(text: &[u8], at: usize) -> usize
    requires { at ≤ length text.now }
    ensures { At text.now result (beyond (drop at text.now)) }
{
    for i in at..text.len() {
        if b'>' == text[i] {
            return i + 1;
        }
    }
    text.len()
}

// The kind of the attribute whose name stands there.
fn kind_of(text: &[u8], at: usize) -> Result<Kinded, Fault>
    requires { at ≤ length text.now }
    ensures { KindCame text.now result (kind (past is_white (past is_more (drop at text.now)))) }
{
    kind_at(text, skip_white(text, name_end(text, at)))
}

// The status behind white space.
fn status_behind(text: &[u8], at: usize) -> Result<Stated, Fault>
    requires { at ≤ length text.now }
    ensures { StatusCame text.now result (status (past is_white (drop at text.now))) }
{
    status_at(text, skip_white(text, at))
}

// The row with the definitions of an ATTLIST, from behind its name on.
fn definitions_row(
    text: &[u8],
    upto: usize,
    e: usize,
    attributes: &[usize],
    at: usize,
    before: Row,
) -> Row
    requires { Ready text.now upto attributes.now × (at ≤ length text.now) × Mid text.now upto e (drop at text.now) before }
    ensures { Scan text.now upto e (beyond (drop at text.now)) result }
{
    let mut row = before;
    let mut i = at;
    loop {
        let a = skip_white(text, i);
        if byte_at(text, a, b'>') {
            return row;
        }
        let k = kind_of(text, a).unwrap();
        let s = status_behind(text, k.at).unwrap();
        let z = find_name(text, attributes, a);
        row = with_definition(row, z, k.kind, s.status);
        i = s.at;
    }
}

// The row with those of an ATTLIST, from behind `<!ATTLIST` on: they count if its name is the element's.
fn attlist_row(
    text: &[u8],
    upto: usize,
    e: usize,
    attributes: &[usize],
    at: usize,
    before: Row,
) -> Row
    requires { Ready text.now upto attributes.now × (at ≤ length text.now) × Due text.now upto e (drop at text.now) before }
    ensures { Scan text.now upto e (beyond (drop at text.now)) result }
{
    let a = skip_white(text, at);
    if same_at(text, a, e) {
        return definitions_row(text, upto, e, attributes, name_end(text, a), before);
    }
    before
}

// What the ATTLISTs before the place `upto` define for the element whose name stands at `e`.
pub fn row_before(text: &[u8], upto: usize, e: usize, attributes: &[usize]) -> Row
    requires { Ready text.now upto attributes.now }
    ensures { RowOf (attribute_names (declared_to text.now upto)) (defined_for (name_at text.now e) (declared_to text.now upto)) result }
{
    let mut row = no_row();
    let mut i: usize = 0;
    while i < upto {
        if is_white(text[i]) {
            i = skip_white(text, i);
            continue;
        }
        if byte_at(text, i + 2, b'-') {
            i = comment_end(text, i + 4).unwrap();
            continue;
        }
        if byte_at(text, i + 2, b'A') {
            row = attlist_row(text, upto, e, attributes, i + 9, row);
            i = past_greater(text, i);
            continue;
        }
        i = past_greater(text, i);
    }
    row
}
