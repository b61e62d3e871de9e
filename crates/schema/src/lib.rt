// Schema files: a file is translated to a table, or refused with the number of its first fault.
//
// The file is read from the front, one number after another, and the table is made in two local arrays, its blocks and the entries of
// fixed attributes, which are copied out at the end: a refused file leaves the lent table as it was. Nothing is asked of the file or of
// the table. Assumes nothing.
#![tactic(auto)]

ghost use Rattle.std.specs.Prelude.{◌≡◌, [], ◌≤◌, length, replicate};
ghost use Rattle.paper.specs.Basics.{most_elements};
ghost use Rattle.paper.specs.Codes.{said};
ghost use Rattle.paper.specs.Table.{fixed_at, block_length, fixed_numbers};
ghost use Rattle.paper.specs.Table;
ghost use Rattle.entries.specs.Held.{Held};
ghost use Rattle.schema.specs.Element.{set_cells, ElementIn};
ghost use Rattle.schema.specs.Elements.{Head, ElementsIn};
ghost use Rattle.schema.specs.Whole.{SchemaIn};

use attlist::{Attributes, attributes_at};
use contentspec::put_content;
use copying::copy;
use paper::{
    ALLOWED_AT, BLOCK_WORDS, BLOCKS_AT, EMPTY, FIXED_AT, FIXED_WORDS, ID_AT, IDREF_AT, IDREFS_AT,
    KIND_AT, MODEL, REQUIRED_AT, Refusal, TABLE_WORDS,
};
use reading::number_in;

const MOST_ELEMENTS: u32 = paper::MOST_ELEMENTS as u32;

const MOST_ATTRIBUTES: u32 = paper::MOST_ATTRIBUTES as u32;

// ---- an element

// The kind and the sets of attributes go into a block.
fn put_sets(block: &mut [u64], kind: u32, s: Attributes)
    requires { length block.old ≡ block_length }
    ensures { block.new ≡ set_cells kind s block.old }
{
    block[KIND_AT] = kind as u64;
    block[ALLOWED_AT] = s.allowed;
    block[REQUIRED_AT] = s.required;
    block[ID_AT] = s.id;
    block[IDREF_AT] = s.idref;
    block[IDREFS_AT] = s.idrefs;
}

// Element e, at a place of the file, goes into a block of zeros, and its fixed attributes behind those of the elements before; the place
// after it.
fn put_element(
    file: &[u8],
    at: usize,
    elements: u32,
    e: u32,
    block: &mut [u64],
    fixed: &mut [u64],
) -> Result<usize, Refusal>
    requires { (elements ≤ most_elements) × (block.old ≡ replicate block_length 0) × (Held fixed.old) }
    ensures { ElementIn elements e file.now at block.new fixed.old fixed.new result }
{
    let kind = number_in(file, at, EMPTY, MODEL)?;
    let next = put_content(file, kind.next, kind.value, elements, block)?;
    let n = number_in(file, next, 0, MOST_ATTRIBUTES)?;
    let s = attributes_at(file, n.next, n.value, e, fixed)?;
    put_sets(block, kind.value, s);
    Ok(s.next)
}

// ---- the table

// The `elements` elements at a place of the file go into a table that has its first two numbers, and zeros after them; their fixed
// attributes among no entries. The place after them.
fn put_elements(
    file: &[u8],
    at: usize,
    elements: u32,
    table: &mut [u64],
    fixed: &mut [u64],
) -> Result<usize, Refusal>
    requires { (at ≤ length file.now) × (elements ≤ most_elements) × (Head table.old) × (fixed.old ≡ fixed_numbers []) }
    ensures { ElementsIn elements file.now at table.old table.new fixed.new result }
{
    let mut place = at;
    let mut start = BLOCKS_AT;
    for i in 0..elements {
        let end = start + BLOCK_WORDS;
        place = put_element(file, place, elements, i, &mut table[start..end], fixed)?;
        start = end;
    }
    Ok(place)
}

// The schema of the file goes into blocks of zeros and no entries.
fn put_schema(file: &[u8], table: &mut [u64], fixed: &mut [u64]) -> Result<(), Refusal>
    requires { (table.old ≡ replicate fixed_at 0) × (fixed.old ≡ replicate 49 0) }
    ensures { SchemaIn file.now table.new fixed.new result }
{
    let n = number_in(file, 0, 1, MOST_ELEMENTS)?;
    let root = number_in(file, n.next, 0, n.value - 1)?;
    table[0] = n.value as u64;
    table[1] = root.value as u64;
    let next = put_elements(file, root.next, n.value, table, fixed)?;
    if next < file.len() {
        return Err(Refusal::Schema);
    }
    Ok(())
}

// Translates a schema file to a table.
pub fn translate(file: &[u8], table: &mut [u64]) -> Result<(), Refusal>
    ensures { (said result, table.new) ≡ Table.translate file.now table.old }
{
    if table.len() != TABLE_WORDS {
        return Err(Refusal::Table);
    }
    let mut made = [0u64; FIXED_AT];
    let mut fixed = [0u64; FIXED_WORDS];
    put_schema(file, &mut made, &mut fixed)?;
    copy(table, 0, &made, 0, FIXED_AT);
    copy(table, FIXED_AT, &fixed, 0, FIXED_WORDS);
    Ok(())
}
