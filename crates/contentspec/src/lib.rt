// The content of an element, read from a schema file into the element's block of a table: EMPTY, text only, or a content model, which is
// taken if it is one expression of at most 64 names and is unambiguous. Assumes nothing.
#![tactic(auto)]

ghost use Rattle.std.specs.Prelude.{◌≡◌, ◌+◌, ◌≤◌, ◌<◌, length, replicate};
ghost use Rattle.paper.specs.Basics.{most_elements};
ghost use Rattle.paper.specs.Table.{block_length};
ghost use Rattle.contentspec.specs.Symbols.{SymbolsAt};
ghost use Rattle.contentspec.specs.Model.{InRange, model_cells, ModelIn};
ghost use Rattle.contentspec.specs.Content.{ContentIn};

use ambiguity::unambiguous;
use content::{Model, read_model};
use model_names::list_names;
use paper::{
    BLOCK_WORDS, COUNT_AT, FIRST_AT, FOLLOW_AT, LAST_AT, MODEL, NAMES_AT, NO_CHILD_AT, ONE_OR_MORE,
    Refusal,
};
use reading::number_in;

const MOST_SYMBOLS: u32 = paper::MOST_SYMBOLS as u32;

// The `n` symbols at a place, each at most `top`, so that each is one byte.
fn check_symbols(file: &[u8], at: usize, n: usize, top: u32) -> Result<(), Refusal>
    requires { (at ≤ length file.now) × (top < 128) }
    ensures { SymbolsAt file.now at n top result }
{
    for i in 0..n {
        number_in(file, at + i, 0, top)?;
    }
    Ok(())
}

// The count, the flag and the sets of first and last occurrences go into a block.
fn put_model(block: &mut [u64], m: Model)
    requires { length block.old ≡ block_length }
    ensures { block.new ≡ model_cells m block.old }
{
    block[COUNT_AT] = m.count as u64;
    block[NO_CHILD_AT] = m.nullable as u64;
    block[FIRST_AT] = m.first;
    block[LAST_AT] = m.last;
}

// The model that the symbols are goes into a block of zeros.
fn put_symbols(symbols: &[u8], block: &mut [u64]) -> Result<(), Refusal>
    requires { (InRange symbols.now) × (block.old ≡ replicate block_length 0) }
    ensures { ModelIn symbols.now block.new result }
{
    let Some(m) = read_model(symbols, &mut block[FOLLOW_AT..BLOCK_WORDS]) else {
        return Err(Refusal::Schema);
    };
    list_names(symbols, &mut block[NAMES_AT..FOLLOW_AT]);
    if !unambiguous(
        m.count,
        m.first,
        &block[NAMES_AT..FOLLOW_AT],
        &block[FOLLOW_AT..BLOCK_WORDS],
    ) {
        return Err(Refusal::Ambiguous);
    }
    put_model(block, m);
    Ok(())
}

// The content of an element, after its kind, goes into a block of zeros; the place after it.
pub fn put_content(
    file: &[u8],
    at: usize,
    kind: u32,
    elements: u32,
    block: &mut [u64],
) -> Result<usize, Refusal>
    requires { (at ≤ length file.now) × (kind ≤ 2) × (elements ≤ most_elements) × (block.old ≡ replicate block_length 0) }
    ensures { ContentIn elements kind file.now at block.new result }
{
    if kind < MODEL {
        return Ok(at);
    }
    let n = number_in(file, at, 1, MOST_SYMBOLS)?;
    let count = n.value as usize;
    let from = n.next;
    check_symbols(file, from, count, ONE_OR_MORE + elements)?;
    let to = from + count;
    put_symbols(&file[from..to], block)?;
    Ok(to)
}
