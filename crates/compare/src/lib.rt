// "Will the new schema take our old patterns?": an element's content compared in two tables.
//
// The refusals in their order, then the search. A refused call writes nothing. Assumes nothing.
#![tactic(auto)]

ghost use Rattle.std.specs.Prelude.{◌≡◌, true, ◌<◌, get_or};
ghost use Rattle.paper.specs.Table.{proper};
ghost use Rattle.paper.specs.Rules.{of_table};
ghost use Rattle.paper.specs.Inclusion;
ghost use Rattle.paper.specs.Inclusion.{comparable};
ghost use Rattle.compare.specs.Outcome.{outcome_of, compared_of};

use breadth::search;
use paper::{DONE, EMPTY, KIND_AT, MODEL, Refusal, SEQUENCE_PLACES};
use proper::proper;
use table::{block_of, cell};

// The answer's number; 1 if the new content takes all that the old one takes, else 0; and the length of the sequence that is lost.
#[repr(C)]
#[derive(Clone, Copy)]
pub struct Compared {
    pub number: u32,
    pub takes_all: u32,
    pub length: u32,
}

// What is found, or why the call is refused.
impl From<Result<Option<u32>, Refusal>> for Compared {
    ghost from_gives = { λ found result. result ≡ compared_of found };

    fn from(found: Result<Option<u32>, Refusal>) -> Compared {
        let (number, takes_all, length) = match found {
            Ok(None) => (DONE, 1, 0),
            Ok(Some(length)) => (DONE, 0, length),
            Err(refusal) => (refusal.number(), 0, 0),
        };
        Compared {
            number,
            takes_all,
            length,
        }
    }
}

// "a kind other than 0 or 2" is not compared.
fn is_compared(table: &[u64], e: usize) -> bool
    requires { (proper table.now ≡ true) × (e < get_or table.now 0 0) }
    ensures { result ≡ comparable (of_table table.now) e }
{
    let kind = cell(table, e, KIND_AT);
    (kind == EMPTY as u64) | (kind == MODEL as u64)
}

// "The answer is yes exactly if the new one takes every child sequence the old one takes. Otherwise it writes the shortest lost sequence, of
// equals the lowest by element numbers from the left." The length of the lost sequence, or none.
fn lost(
    old: &[u64],
    new: &[u64],
    element: u32,
    sequence: &mut [u32],
) -> Result<Option<u32>, Refusal>
    ensures { outcome_of (compared_of result) sequence.new ≡ Inclusion.compare old.now new.now element sequence.old }
{
    if !proper(old) {
        return Err(Refusal::Table);
    }
    if !proper(new) {
        return Err(Refusal::Table);
    }
    if element as u64 >= old[0] {
        return Err(Refusal::Place);
    }
    if element as u64 >= new[0] {
        return Err(Refusal::Place);
    }
    let e = element as usize;
    if !is_compared(old, e) {
        return Err(Refusal::NotCompared);
    }
    if !is_compared(new, e) {
        return Err(Refusal::NotCompared);
    }
    if sequence.len() < SEQUENCE_PLACES {
        return Err(Refusal::Room);
    }
    let found = search(block_of(old, e), block_of(new, e), old[0] as u32, sequence);
    Ok(found)
}

// An element's content in two tables, compared.
pub fn compare(old: &[u64], new: &[u64], element: u32, sequence: &mut [u32]) -> Compared
    ensures { outcome_of result sequence.new ≡ Inclusion.compare old.now new.now element sequence.old }
{
    Compared::from(lost(old, new, element, sequence))
}
