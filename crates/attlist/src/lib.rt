// The attribute list of an element, read from a schema file: which attributes are allowed, which are required, and of which kind they
// are, each as a set; and those that are fixed, as entries behind those of the elements before. A set is a word, bit k for attribute k.
// Assumes nothing.
#![tactic(auto)]

ghost use Rattle.std.specs.Prelude.{◌≡◌, [], ◌∷◌, ◌++◌, ◌≤◌, ◌<◌, length};
ghost use Rattle.paper.specs.Basics.{most_attributes};
ghost use Rattle.paper.specs.Codes.{kind_of};
ghost use Rattle.paper.specs.Schema.{most_status};
ghost use Rattle.paper.specs.Table.{entries, entries_of, fixed_numbers};
ghost use Rattle.entries.specs.Held.{Held};
ghost use Rattle.attlist.specs.Status.{StatusAt};
ghost use Rattle.attlist.specs.Attribute.{attribute_of, AttributeAt};
ghost use Rattle.attlist.specs.Attributes.{Room, no_sets, with_attribute, AttributesAt};

use entries::{add_entry, count_of};
use paper::{Kind, MOST_NUMBER, Refusal, Status};
use reading::number_in;
use sets::{one, when};

// The largest number of an attribute.
const HIGHEST_ATTRIBUTE: u32 = paper::MOST_ATTRIBUTES as u32 - 1;

const MOST_FIXED: u32 = paper::MOST_FIXED as u32;

// ---- a status

// The number of the largest status of an attribute of a kind, where `met` fixed ones were met: "a seventeenth fixed attribute, one not
// CDATA [..] is 2".
fn most_status(kind: Kind, met: u32) -> u32
    ensures { result ≡ most_status (kind_of kind) met }
{
    if (kind == Kind::Cdata) & (met < MOST_FIXED) {
        return Status::Fixed as u32;
    }
    Status::Implied as u32
}

// A status that was read, its value and the place after both. The value is 0 where it is not fixed.
#[derive(Clone, Copy)]
struct Stated {
    next: usize,
    status: Status,
    value: u32,
}

// The status at a place of the file, and the value behind it: "status 2, fixed, [..] followed by its value number".
fn status_at(file: &[u8], at: usize, kind: Kind, met: u32) -> Result<Stated, Refusal>
    ensures { StatusAt (kind_of kind) met file.now at result }
{
    let most = most_status(kind, met);
    let s = number_in(file, at, 0, most)?;
    let next = s.next;
    match s.value {
        0 => Ok(Stated {
            next,
            status: Status::Required,
            value: 0,
        }),
        1 => Ok(Stated {
            next,
            status: Status::Implied,
            value: 0,
        }),
        _ => {
            let v = number_in(file, next, 0, MOST_NUMBER)?;
            Ok(Stated {
                next: v.next,
                status: Status::Fixed,
                value: v.value,
            })
        }
    }
}

// ---- an attribute

// An attribute that was read, and the place after it.
#[derive(Clone, Copy)]
struct Declared {
    next: usize,
    attribute: u32,
    kind: Kind,
    status: Status,
    value: u32,
}

// The kind with that number.
fn kind_from(number: u32) -> Kind
    requires { number ≤ 3 }
    ensures { kind_of result ≡ number }
{
    match number {
        0 => Kind::Cdata,
        1 => Kind::Id,
        2 => Kind::Idref,
        _ => Kind::Idrefs,
    }
}

// The attribute at a place of the file. Its number is `low` or more; `had` says that an ID was met, and `met` how many fixed ones.
fn attribute_at(file: &[u8], at: usize, low: u32, had: bool, met: u32) -> Result<Declared, Refusal>
    ensures { AttributeAt low had met file.now at result }
{
    let a = number_in(file, at, low, HIGHEST_ATTRIBUTE)?;
    let k = number_in(file, a.next, 0, Kind::Idrefs as u32)?;
    let kind = kind_from(k.value);
    if had & (kind == Kind::Id) {
        return Err(Refusal::Schema);
    }
    let s = status_at(file, k.next, kind, met)?;
    Ok(Declared {
        next: s.next,
        attribute: a.value,
        kind,
        status: s.status,
        value: s.value,
    })
}

// ---- several

// Attributes that were read: the place after them, the least number that the next one may have, whether an ID was met, and the five
// sets.
#[derive(Clone, Copy)]
pub struct Attributes {
    pub next: usize,
    pub low: u32,
    pub had: bool,
    pub allowed: u64,
    pub required: u64,
    pub id: u64,
    pub idref: u64,
    pub idrefs: u64,
}

// No attribute yet, before a place.
fn no_attributes(next: usize) -> Attributes
    ensures { result ≡ no_sets next }
{
    Attributes {
        next,
        low: 0,
        had: false,
        allowed: 0,
        required: 0,
        id: 0,
        idref: 0,
        idrefs: 0,
    }
}

// The attributes with one more.
fn with_attribute(s: Attributes, a: Declared) -> Attributes
    requires { a.attribute < most_attributes }
    ensures { result ≡ with_attribute s a }
{
    let alone = one(a.attribute);
    Attributes {
        next: a.next,
        low: a.attribute + 1,
        had: s.had | (a.kind == Kind::Id),
        allowed: s.allowed | alone,
        required: s.required | when(a.status == Status::Required, alone),
        id: s.id | when(a.kind == Kind::Id, alone),
        idref: s.idref | when(a.kind == Kind::Idref, alone),
        idrefs: s.idrefs | when(a.kind == Kind::Idrefs, alone),
    }
}

// The entry of an attribute of an element, if it is fixed, behind the others.
fn note_fixed(fixed: &mut [u64], element: u32, a: Declared)
    requires { Room fixed.old a }
    ensures { fixed.new ≡ fixed_numbers (entries fixed.old ++ entries_of element (attribute_of a ∷ [])) }
{
    if a.status == Status::Fixed {
        add_entry(fixed, element, a.attribute, a.value);
    }
}

// The `count` attributes of an element at a place of the file. The entries of its fixed ones go behind those of the elements before.
pub fn attributes_at(
    file: &[u8],
    at: usize,
    count: u32,
    element: u32,
    fixed: &mut [u64],
) -> Result<Attributes, Refusal>
    requires { (at ≤ length file.now) × (Held fixed.old) }
    ensures { AttributesAt count element file.now at fixed.old fixed.new result }
{
    let mut s = no_attributes(at);
    for _i in 0..count {
        let met = count_of(fixed);
        let a = attribute_at(file, s.next, s.low, s.had, met)?;
        note_fixed(fixed, element, a);
        s = with_attribute(s, a);
    }
    Ok(s)
}
