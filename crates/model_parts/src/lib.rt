// The parts of a content model: what is kept of an expression that was read, and how the parts of an operator make the whole.
//
// A set is a word, bit k for occurrence k. Assumes nothing.
#![tactic(auto)]

ghost use Rattle.std.specs.Prelude.{◌≡◌, ◌+◌, ◌<◌, ◌^◌};
ghost use Rattle.paper.specs.Basics.{most_names};
ghost use Rattle.model_parts.specs.Parts.{single, sequence, choice, also};

use sets::{one, when};

// An expression that was read: the place after it, the number of the next occurrence, whether no child at all matches, and the
// sets of its first and last occurrences.
#[derive(Clone, Copy)]
pub struct Part {
    pub next: usize,
    pub places: usize,
    pub nullable: bool,
    pub first: u64,
    pub last: u64,
}

// A name, occurrence p.
pub fn one_name(at: usize, p: usize) -> Part
    requires { (p < most_names) × (at + 1 < 2 ^ 64) }
    ensures { result ≡ single at p }
{
    let alone = one(p as u32);
    Part {
        next: at + 1,
        places: p + 1,
        nullable: false,
        first: alone,
        last: alone,
    }
}

// One part after the other.
pub fn in_sequence(a: Part, b: Part) -> Part
    ensures { result ≡ sequence a b }
{
    Part {
        next: b.next,
        places: b.places,
        nullable: a.nullable & b.nullable,
        first: a.first | when(a.nullable, b.first),
        last: b.last | when(b.nullable, a.last),
    }
}

// Either part.
pub fn either(a: Part, b: Part) -> Part
    ensures { result ≡ choice a b }
{
    Part {
        next: b.next,
        places: b.places,
        nullable: a.nullable | b.nullable,
        first: a.first | b.first,
        last: a.last | b.last,
    }
}

// The part; no child at all matches too if `none` says so.
pub fn with_none(none: bool, a: Part) -> Part
    ensures { result ≡ also none a }
{
    Part {
        next: a.next,
        places: a.places,
        nullable: none | a.nullable,
        first: a.first,
        last: a.last,
    }
}
