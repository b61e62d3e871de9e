// Item 4, "DTD files as they come": one definition of an ATTLIST, as the reader of `paper` says. What was defined before is told by the
// names of the text's attributes and by the row of the element. Assumes nothing.
#![tactic(auto)]

ghost use Rattle.std.specs.Prelude.{◌≡◌, ◌≤◌, length, drop};
ghost use Rattle.dtd_names.specs.Named.{names_at};
ghost use Rattle.dtd_kinds.specs.Kinds.{KindCame, StatusCame};
ghost use Rattle.dtd_definitions.specs.Asked.{definition_in};
ghost use Rattle.dtd_definitions.specs.Steps.{new_name, new_kind, name_after, kind_after, status_after, NameCame};
ghost use Rattle.dtd_definitions.specs.Whole.{DefinitionCame};

use dtd_kinds::{Kinded, Stated, kind_at, status_at};
use dtd_names::{find_name, name_at};
use dtd_rows::Row;
use dtd_words::{Fault, white_at};
use paper::{Kind, MOST_ATTRIBUTES, Refusal, Status};
use sets::has;

// The name of an attribute: its own place, its number and the place behind it.
#[derive(Clone, Copy)]
struct Named {
    place: usize,
    attribute: usize,
    at: usize,
}

// A name of which the element has no attribute, and for which there is room.
fn new_name(text: &[u8], at: usize, attributes: &[usize], row: Row) -> Result<Named, Fault>
    requires { at ≤ length text.now }
    ensures { NameCame text.now (names_at text.now attributes.now) result (new_name (names_at text.now attributes.now) row (drop at text.now)) }
{
    let behind = name_at(text, at)?;
    let attribute = find_name(text, attributes, at);
    if attribute >= MOST_ATTRIBUTES {
        return Err(Fault {
            refusal: Refusal::Schema,
            at,
        });
    }
    if has(row.allowed, attribute as u32) {
        return Err(Fault {
            refusal: Refusal::DtdText,
            at,
        });
    }
    Ok(Named {
        place: at,
        attribute,
        at: behind,
    })
}

// A kind, no second ID.
fn new_kind(text: &[u8], at: usize, row: Row) -> Result<Kinded, Fault>
    requires { at ≤ length text.now }
    ensures { KindCame text.now result (new_kind row (drop at text.now)) }
{
    let k = kind_at(text, at)?;
    if k.kind == Kind::Id && row.id != 0 {
        return Err(Fault {
            refusal: Refusal::Schema,
            at,
        });
    }
    Ok(k)
}

// White space, and then one of them.
fn name_after(text: &[u8], at: usize, attributes: &[usize], row: Row) -> Result<Named, Fault>
    requires { at ≤ length text.now }
    ensures { NameCame text.now (names_at text.now attributes.now) result (name_after (names_at text.now attributes.now) row (drop at text.now)) }
{
    let behind = white_at(text, at)?;
    new_name(text, behind, attributes, row)
}

fn kind_after(text: &[u8], at: usize, row: Row) -> Result<Kinded, Fault>
    requires { at ≤ length text.now }
    ensures { KindCame text.now result (kind_after row (drop at text.now)) }
{
    let behind = white_at(text, at)?;
    new_kind(text, behind, row)
}

fn status_after(text: &[u8], at: usize) -> Result<Stated, Fault>
    requires { at ≤ length text.now }
    ensures { StatusCame text.now result (status_after (drop at text.now)) }
{
    let behind = white_at(text, at)?;
    status_at(text, behind)
}

// A definition: where its name stands and which number it has, its kind and its status, and the place behind it.
#[derive(Clone, Copy)]
pub struct Defined {
    pub place: usize,
    pub attribute: usize,
    pub kind: Kind,
    pub status: Status,
    pub at: usize,
}

// White space, a name, a kind and a status.
pub fn definition_at(
    text: &[u8],
    at: usize,
    attributes: &[usize],
    row: Row,
) -> Result<Defined, Fault>
    requires { at ≤ length text.now }
    ensures { DefinitionCame text.now (names_at text.now attributes.now) result (definition_in (names_at text.now attributes.now) row (drop at text.now)) }
{
    let n = name_after(text, at, attributes, row)?;
    let k = kind_after(text, n.at, row)?;
    let s = status_after(text, k.at)?;
    Ok(Defined {
        place: n.place,
        attribute: n.attribute,
        kind: k.kind,
        status: s.status,
        at: s.at,
    })
}
