// The content of one element: whether its children are as they must be, and else where they stop to be.
//
// One pass over the children, which jumps from a child's start behind its end, counts them, and is left at the first with which no valid
// content begins. Texts are counted, by `stops`; a model is run. The table is a proper one, and nothing is written. Assumes nothing.
#![tactic(auto)]

ghost use Rattle.std.specs.Prelude.{◌≡◌, true, ◌≤◌, ◌<◌, length, drop, get_or};
ghost use Rattle.paper.specs.Basics.{most_tokens};
ghost use Rattle.paper.specs.Tokens.{toks};
ghost use Rattle.paper.specs.Table.{proper};
ghost use Rattle.paper.specs.Rules.{start, ended, of_table};
ghost use Rattle.table.specs.Run.{state_of, inside, Ready};
ghost use Rattle.stops.specs.Stop.{model_stop, content_stop, walked};
ghost use Rattle.children.specs.Closed.{Closed, behind};
ghost use Rattle.children.specs.Model.{asked};

use places::end_of;
use stops::texts_stop;
use table::{Run, block_of, cell};
use tokens::{is_end, is_start, is_text, number};

// The place behind the element that starts at place i: by its matching end, where matching ends are given, and else looked for.
pub fn behind(doc: &[u32], closes: &[u32], i: usize) -> usize
    requires closed { Closed doc.now closes.now }
    requires place_in_bounds { i < length doc.now }
    ensures { result ≡ behind doc.now i }
{
    if closes.len() < doc.len() {
        return end_of(doc, i) + 1;
    }
    if i + 1 < doc.len() {
        return closes[i + 1] as usize + 1;
    }
    doc.len() + 1
}

// "or the element's end token if the children stop too early": so many children, where no child is left; else the place of that token.
fn asked(block: &[u64], run: Run, children: u32, place: usize) -> Result<u32, usize>
    requires ready { Ready block.now }
    requires run_value { inside block.now (state_of run) ≡ true }
    ensures { result ≡ asked (ended block.now (state_of run)) children place }
{
    if run.may_end(block) {
        return Ok(children);
    }
    Err(place)
}

// "a model has no text and a child sequence that the expression describes": the children that stand from a place on.
fn model_stop(block: &[u64], doc: &[u32], closes: &[u32], at: usize) -> Result<u32, usize>
    requires ready { Ready block.now }
    requires closed { Closed doc.now closes.now }
    requires doc_in_bounds { (length doc.now ≤ most_tokens) × (at ≤ length doc.now) }
    ensures { result ≡ walked (model_stop block.now (length doc.now) start 0 at (drop at (toks doc.now))) (drop at (toks doc.now)) }
{
    let mut run = Run::begin();
    let mut children: u32 = 0;
    let mut i = at;
    while i < doc.len() {
        let t = doc[i];
        if is_start(t) {
            run = run.step(block, number(t));
            if !run.goes_on() {
                return Err(i);
            }
            children += 1;
            i = behind(doc, closes, i);
            continue;
        }
        if is_end(t) {
            return asked(block, run, children, i);
        }
        if is_text(t) {
            return Err(i);
        }
        i += 1;
    }
    asked(block, run, children, doc.len())
}

// "content (9)": the children that stand from a place on are counted, if they are as they must be; else it is the place where they stop to
// be so, of a child, of a text or of the element's end. Below a model's, the kind is how many texts there may be.
pub fn content(
    table: &[u64],
    e: usize,
    doc: &[u32],
    closes: &[u32],
    at: usize,
) -> Result<u32, usize>
    requires table_value { (proper table.now ≡ true) × (e < get_or table.now 0 0) }
    requires closed { Closed doc.now closes.now }
    requires doc_in_bounds { (length doc.now ≤ most_tokens) × (at ≤ length doc.now) }
    ensures { result ≡ walked (content_stop (of_table table.now) e at (drop at (toks doc.now))) (drop at (toks doc.now)) }
{
    let kind = cell(table, e, paper::KIND_AT);
    if kind < paper::MODEL as u64 {
        return texts_stop(doc, at, kind);
    }
    model_stop(block_of(table, e), doc, closes, at)
}
