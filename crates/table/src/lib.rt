// A lent table, read: its blocks and their numbers, and the run of a block's model over the children of an element.
//
// The readers and the run ask for a table of the right length, a proper one, or a block that can be run. Nothing is written.
// Assumes nothing.
#![tactic(auto)]

ghost use Rattle.std.specs.Prelude.{◌≡◌, true, ◌<◌, length, get_or};
ghost use Rattle.std.proofs.Math.Option.{some};
ghost use Rattle.paper.specs.Basics.{most_elements};
ghost use Rattle.paper.specs.Table;
ghost use Rattle.paper.specs.Table.{table_length, block_length, block, proper};
ghost use Rattle.paper.specs.Rules.{start, ended, goes_on};
ghost use Rattle.table.specs.Run.{state_of, inside, sound, Ready, Stepped};
ghost use Rattle.table.specs.Step.{moved};

use paper::{BLOCK_WORDS, BLOCKS_AT, FIRST_AT, FOLLOW_AT, LAST_AT, NAMES_AT, NO_CHILD_AT};
use set_walks::next_named;
use sets::has;

// The block of element e.
pub fn block_of(table: &[u64], e: usize) -> &[u64]
    requires { (length table.now ≡ table_length) × (e < most_elements) }
    ensures { result.now ≡ block table.now e }
{
    let start = BLOCKS_AT + e * BLOCK_WORDS;
    let end = start + BLOCK_WORDS;
    &table[start..end]
}

// Number i of the block of element e, in a proper table.
pub fn cell(table: &[u64], e: usize, i: usize) -> u64
    requires { (proper table.now ≡ true) × (e < get_or table.now 0 0) × (i < block_length) }
    ensures { result ≡ Table.cell (block table.now e) i }
{
    table[BLOCKS_AT + e * BLOCK_WORDS + i]
}

// A run of a block's model over the children of an element, by where it stands: no child was read yet; occurrence k was read
// last; or a child had no next occurrence.
#[derive(Clone, Copy)]
pub enum Run {
    Start,
    At(u32),
    Lost,
}

// The occurrence of the set that has the child's name. A set that is sound holds one at most.
fn move_to(block: &[u64], set: u64, child: u32) -> Run
    requires ready { Ready block.now }
    requires set_value { sound block.now set ≡ true }
    ensures { result ≡ moved block.now set child }
{
    match next_named(set, &block[NAMES_AT..FOLLOW_AT], child as u64) {
        Some(k) => Run::At(k),
        None => Run::Lost,
    }
}

impl Run {
    // No child was read yet.
    pub fn begin() -> Run
        ensures { state_of result ≡ some start }
    {
        Run::Start
    }

    // One more child: "begin in first, move by follow".
    pub fn step(self, block: &[u64], child: u32) -> Run
        requires ready { Ready block.now }
        requires self_value { inside block.now (state_of self) ≡ true }
        ensures { Stepped block.now self child result }
    {
        match self {
            Run::Start => move_to(block, block[FIRST_AT], child),
            Run::At(k) => {
                let next = FOLLOW_AT + k as usize;
                move_to(block, block[next], child)
            }
            Run::Lost => Run::Lost,
        }
    }

    // The last child had a next occurrence.
    pub fn goes_on(self) -> bool
        ensures { result ≡ goes_on (state_of self) }
    {
        match self {
            Run::Start => true,
            Run::At(_) => true,
            Run::Lost => false,
        }
    }

    // No more children: "end in last, or by the no-child flag".
    pub fn may_end(self, block: &[u64]) -> bool
        requires ready { Ready block.now }
        requires self_value { inside block.now (state_of self) ≡ true }
        ensures { result ≡ ended block.now (state_of self) }
    {
        match self {
            Run::Start => block[NO_CHILD_AT] == 1,
            Run::At(k) => has(block[LAST_AT], k),
            Run::Lost => false,
        }
    }
}
