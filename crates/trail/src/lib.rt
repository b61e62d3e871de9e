// The names that led to an entry of a search: each entry has the one from which it was met, always an earlier one, and the name that led
// on. Entry 0 is the start, and nothing led to it. Assumes nothing.
#![tactic(auto)]

ghost use Rattle.std.specs.Prelude.{length};
ghost use Rattle.trail.specs.Entries.{froms, names};
ghost use Rattle.trail.specs.Write.{Traced, Counted, Spelled, Wrote};

// An entry of a search: what was met, the entry from which it was met, and the name that led on.
#[derive(Clone, Copy)]
pub struct Entry {
    pub met: u32,
    pub from: u32,
    pub name: u32,
}

// How many names led to an entry.
fn names_to(entries: &[Entry], entry: usize) -> usize
    requires { Traced (froms entries.now) entry }
    ensures { Counted (froms entries.now) entry result }
{
    let mut n: usize = 0;
    let mut j = entry;
    while 0 < j {
        n += 1;
        j = entries[j].from as usize;
    }
    n
}

// The names that led to an entry, written into the buffer; the answer is how many.
pub fn spell(entries: &[Entry], entry: usize, sequence: &mut [u32]) -> usize
    requires { Spelled (froms entries.now) (names entries.now) entry (length sequence.old) }
    ensures { Wrote (froms entries.now) (names entries.now) entry sequence.old sequence.new result }
{
    let n = names_to(entries, entry);
    let mut k = n;
    let mut i = entry;
    while 0 < i {
        k -= 1;
        sequence[k] = entries[i].name;
        i = entries[i].from as usize;
    }
    n
}
