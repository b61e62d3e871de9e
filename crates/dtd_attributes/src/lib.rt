// Item 4, "DTD files as they come": an ATTLIST, as the reader of `paper` says. The text's attributes are told by the places of their
// names, one for each different name; what the element has from earlier ATTLISTs is found in the text again. Assumes nothing.
#![tactic(auto)]

ghost use Rattle.std.specs.Prelude.{◌≡◌, ◌≤◌, ◌<◌, option_copied, length, drop, take};
ghost use Rattle.paper.specs.Basics.{most_attributes};
ghost use Rattle.paper.specs.Dtd.Letters.{is_white, begins};
ghost use Rattle.paper.specs.Dtd.Reading.{due, attlist_decl};
ghost use Rattle.dtd_laws.specs.Unique.{any};
ghost use Rattle.dtd_words.specs.Words.{Came};
ghost use Rattle.dtd_names.specs.Named.{known_in};
ghost use Rattle.dtd_before.specs.Paths.{declared_to};
ghost use Rattle.dtd_before.specs.Scans.{Ready};
ghost use Rattle.dtd_heads.specs.Heads.{Heads};
ghost use Rattle.dtd_attributes.specs.Noting.{Noted};
ghost use Rattle.dtd_attributes.specs.Adding.{greater_after, definitions, EndCame, Opened};
ghost use Rattle.dtd_attributes.specs.Listed.{ElementCame, ListedCame};

use dtd_definitions::definition_at;
use dtd_heads::{find_row, keep_row};
use dtd_names::mention_at;
use dtd_rows::{Row, with_definition};
use dtd_words::{Fault, byte_at, is_white, skip_white, white_at, word_at};

// Whether white space stands there.
fn white_here(text: &[u8], at: usize) -> bool
    ensures { result ≡ begins is_white (drop at text.now) }
{
    text.get(at).is_some_and(|b| is_white(*b))
}

// Whether a definition is due: white space, and then something else than `>`.
fn due_at(text: &[u8], at: usize) -> bool
    requires { at ≤ length text.now }
    ensures { result ≡ due any (drop at text.now) }
{
    if white_here(text, at) {
        return !byte_at(text, skip_white(text, at), b'>');
    }
    false
}

// White space or none, and `>`: the place behind it.
fn greater_after(text: &[u8], at: usize) -> Result<usize, Fault>
    requires { at ≤ length text.now }
    ensures { Came text.now result (greater_after (drop at text.now)) }
{
    word_at(text, skip_white(text, at), b">")
}

// A new name is noted behind the others. It tells how many there are then.
fn note_name(attributes: &mut [usize], count: usize, attribute: usize, place: usize) -> usize
    requires { (attribute < most_attributes) × (most_attributes ≤ length attributes.old) }
    ensures { Noted attributes.old attributes.new count attribute place result }
{
    if attribute != count {
        return count;
    }
    attributes[count] = place;
    count + 1
}

// Definitions: the place behind them, how many names of attributes there are and the element's row.
#[derive(Clone, Copy)]
struct Ended {
    at: usize,
    count: usize,
    row: Row,
}

// Definitions, to behind `>`; `before` is the row of the element whose name stands at `e`.
fn definitions_at(
    text: &[u8],
    upto: usize,
    e: usize,
    attributes: &mut [usize],
    count: usize,
    at: usize,
    before: Row,
) -> Result<Ended, Fault>
    requires { Opened text.now upto e attributes.old count at before }
    ensures { EndCame text.now upto e attributes.new result (definitions text.now upto e (drop at text.now)) }
{
    let mut row = before;
    let mut n = count;
    let mut i = at;
    while due_at(text, i) {
        let d = definition_at(text, i, &attributes[..n], row)?;
        row = with_definition(row, d.attribute, d.kind, d.status);
        n = note_name(attributes, n, d.attribute, d.place);
        i = d.at;
    }
    let behind = greater_after(text, i)?;
    Ok(Ended {
        at: behind,
        count: n,
        row,
    })
}

// An ATTLIST: the place behind it, how many names of attributes there are and how many elements stand in the table.
#[derive(Clone, Copy)]
pub struct Listed {
    pub at: usize,
    pub count: usize,
    pub many: usize,
}

// The definitions of the element whose name stands at `e`, and its row in the table.
fn element_at(
    text: &[u8],
    upto: usize,
    e: usize,
    attributes: &mut [usize],
    count: usize,
    at: usize,
    heads: &mut [usize],
    many: usize,
    rows: &mut [u64],
) -> Result<Listed, Fault>
    requires inside { at ≤ length text.now }
    requires long { most_attributes ≤ length attributes.old }
    requires few { count ≤ most_attributes }
    requires ready { Ready text.now upto (take count attributes.old) }
    requires heads { Heads text.now (declared_to text.now upto) heads.old many rows.old }
    ensures { ElementCame text.now upto e attributes.new heads.new rows.new result (definitions text.now upto e (drop at text.now)) }
{
    let f = find_row(text, upto, e, &attributes[..count], heads, many, rows);
    let before = f.row;
    let x = definitions_at(text, upto, e, attributes, count, at, before)?;
    let row = x.row;
    let m = keep_row(heads, many, rows, f.place, e, row);
    Ok(Listed {
        at: x.at,
        count: x.count,
        many: m,
    })
}

// An ATTLIST, behind `<!`. `upto` is the place of `<!`; the first `count` of `attributes` are the places of the attributes' names up to
// there, and `heads` and `rows` are the table of `many` rows. Where it is refused, nothing is said of those.
pub fn attlist_at(
    text: &[u8],
    at: usize,
    upto: usize,
    attributes: &mut [usize],
    count: usize,
    known: Option<&[usize]>,
    heads: &mut [usize],
    many: usize,
    rows: &mut [u64],
) -> Result<Listed, Fault>
    requires inside { at ≤ length text.now }
    requires long { most_attributes ≤ length attributes.old }
    requires few { count ≤ most_attributes }
    requires ready { Ready text.now upto (take count attributes.old) }
    requires heads { Heads text.now (declared_to text.now upto) heads.old many rows.old }
    ensures { ListedCame text.now upto attributes.new heads.new rows.new result (attlist_decl (known_in text.now (option_copied known.entry)) (declared_to text.now upto) (drop at text.now)) }
{
    let word = word_at(text, at, b"ATTLIST")?;
    let e = white_at(text, word)?;
    let behind = mention_at(text, e, known)?;
    element_at(text, upto, e, attributes, count, behind, heads, many, rows)
}
