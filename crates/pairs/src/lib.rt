// A run of an old content and a run of a new one, side by side: a pair, as a number below 4,290.
//
// A sequence is lost where the old content may end and the new one may not. A child for which the new run has no next occurrence leads
// on: the new run is lost from there, and the old one goes on alone. Nothing is written. Assumes nothing.
#![tactic(auto)]

ghost use Rattle.std.specs.Prelude.{◌≡◌, true, not, ◌&&◌, ◌<◌};
ghost use Rattle.table.specs.Run.{state_of, inside, Ready};
ghost use Rattle.inclusion_laws.specs.Pairs.{run_number, stops};
ghost use Rattle.pairs.specs.Number.{run_at, old_at, new_at, leads_to, Paired};

use paper::{EMPTY, KIND_AT};
use table::Run;

// The states of a run of the new content: lost, the start, and 64 occurrences. One of the old content is never lost: there are 65 of it,
// and so 4,290 pairs.
const RUNS: u32 = 66;

// The pair of two runs that have read nothing.
pub const BEGIN: u32 = 1;

// The run of a number: 0 is lost, 1 the start, and occurrence k has k + 2.
fn run_of(n: u32) -> Run
    ensures { state_of result ≡ run_at n }
{
    if n == 0 {
        return Run::Lost;
    }
    if n == 1 {
        return Run::Start;
    }
    Run::At(n - 2)
}

// The number of a run.
fn number_of(run: Run) -> u32
    requires { run_number (state_of run) < 66 }
    ensures { result ≡ run_number (state_of run) }
{
    match run {
        Run::Lost => 0,
        Run::Start => 1,
        Run::At(k) => k + 2,
    }
}

// The children may end here. EMPTY has none.
fn stops(block: &[u64], run: Run) -> bool
    requires ready { Ready block.now }
    requires run_value { inside block.now (state_of run) ≡ true }
    ensures { result ≡ stops block.now (state_of run) }
{
    run.goes_on() & ((block[KIND_AT] == EMPTY as u64) | run.may_end(block))
}

// What led to the pair is lost: the old content may end there, the new one may not.
pub fn is_losing(old: &[u64], new: &[u64], pair: u32) -> bool
    requires { Paired old.now new.now pair }
    ensures { result ≡ stops old.now (old_at pair) && not (stops new.now (new_at pair)) }
{
    stops(old, run_of(pair / RUNS + 1)) & !stops(new, run_of(pair % RUNS))
}

// The pair to which a child leads, unless the old content does not take it.
pub fn leads(old: &[u64], new: &[u64], pair: u32, child: u32) -> Option<u32>
    requires { Paired old.now new.now pair }
    ensures { result ≡ leads_to old.now new.now pair child }
{
    let was = number_of(run_of(pair / RUNS + 1).step(old, child));
    if was == 0 {
        return None;
    }
    let is = number_of(run_of(pair % RUNS).step(new, child));
    Some((was - 1) * RUNS + is)
}
