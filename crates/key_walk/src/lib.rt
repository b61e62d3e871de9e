// A walk over the tokens of a document, from key to key: a key is a value of an ID attribute or of a reference attribute.
//
// A walk knows its place, and the element and the attribute that began last before it. Any tokens are taken; the table is a proper one.
// Nothing is written. Assumes nothing.
#![tactic(auto)]

ghost use Rattle.std.specs.Prelude.{◌≡◌, true, ◌+◌, ◌≤◌, ◌<◌, ◌^◌, ltb, length, get_or};
ghost use Rattle.paper.specs.Sets.{bit};
ghost use Rattle.paper.specs.Table.{proper};
ghost use Rattle.paper.specs.Tokens.{tok_of};
ghost use Rattle.paper.specs.Rules.{of_table};
ghost use Rattle.paper.specs.Judgement.{is_id, is_ref};
ghost use Rattle.key_walk.specs.Walk.{element_after, attribute_after, behind, key_at, value_at, Found};

use sets::has;
use table::cell;
use tokens::{is_attribute, is_start, is_value, number};

// Where a walk stands: at a place, after a start of the element and the attribute. As in the definition, both are 0 before the first.
#[derive(Clone, Copy)]
pub struct Walk {
    pub place: usize,
    pub element: u32,
    pub attribute: u32,
}

// The attribute is in the set; one of 64 or more is in none.
fn is_in(set: u64, attribute: u32) -> bool
    ensures { result ≡ bit set attribute }
{
    if attribute as usize >= paper::MOST_ATTRIBUTES {
        return false;
    }
    has(set, attribute)
}

// The element is declared.
fn is_declared(table: &[u64], element: u32) -> bool
    requires { proper table.now ≡ true }
    ensures { result ≡ ltb element (get_or table.now 0 0) }
{
    (element as u64) < table[0]
}

// The values of the element's attribute are IDs. "Attributes not allowed at their element, or at an undeclared one, are neither IDs nor
// references." In a proper table IDs and references are allowed, so their sets are enough.
pub fn is_id(table: &[u64], element: u32, attribute: u32) -> bool
    requires { proper table.now ≡ true }
    ensures { result ≡ is_id (of_table table.now) element attribute }
{
    if !is_declared(table, element) {
        return false;
    }
    is_in(cell(table, element as usize, paper::ID_AT), attribute)
}

// They are references.
pub fn is_reference(table: &[u64], element: u32, attribute: u32) -> bool
    requires { proper table.now ≡ true }
    ensures { result ≡ is_ref (of_table table.now) element attribute }
{
    if !is_declared(table, element) {
        return false;
    }
    let name = element as usize;
    let idref = cell(table, name, paper::IDREF_AT);
    let idrefs = cell(table, name, paper::IDREFS_AT);
    is_in(idref | idrefs, attribute)
}

// The element that began last, behind a token.
fn element_after(element: u32, t: u32) -> u32
    ensures { result ≡ element_after element (tok_of t) }
{
    if is_start(t) {
        return number(t);
    }
    element
}

// The attribute that began last, behind a token.
fn attribute_after(attribute: u32, t: u32) -> u32
    ensures { result ≡ attribute_after attribute (tok_of t) }
{
    if is_attribute(t) {
        return number(t);
    }
    attribute
}

// The walk behind the token at its place.
pub fn pass(at: Walk, t: u32) -> Walk
    requires { at.place + 1 < 2 ^ 64 }
    ensures { result ≡ behind at (tok_of t) }
{
    Walk {
        place: at.place + 1,
        element: element_after(at.element, t),
        attribute: attribute_after(at.attribute, t),
    }
}

// The token at the walk's place is a key.
fn is_key(table: &[u64], at: Walk, t: u32) -> bool
    requires { proper table.now ≡ true }
    ensures { result ≡ key_at table.now at (tok_of t) }
{
    if !is_value(t) {
        return false;
    }
    is_id(table, at.element, at.attribute) | is_reference(table, at.element, at.attribute)
}

// A value stands at the place.
pub fn is_value_at(doc: &[u32], i: usize) -> bool
    ensures { result ≡ value_at doc.now i }
{
    if doc.len() <= i {
        return false;
    }
    is_value(doc[i])
}

// The walk at the next key from where it stands, or behind the last token.
pub fn next_key(table: &[u64], doc: &[u32], from: Walk) -> Walk
    requires { (proper table.now ≡ true) × (from.place ≤ length doc.now) }
    ensures { Found table.now doc.now from result }
{
    let mut at = from;
    while at.place < doc.len() {
        let i = at.place;
        let t = doc[i];
        if is_key(table, at, t) {
            return at;
        }
        at = pass(at, t);
    }
    at
}
