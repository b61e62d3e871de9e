// Item 4, "DTD files as they come": a table of the rows of elements that ATTLISTs named, so that the text need not be gone along again
// for them. It has room for as many as there can be elements; only for others the text is gone along again. Assumes nothing.
#![tactic(auto)]

ghost use Rattle.std.specs.Prelude.{◌≡◌, ◌≤◌, ◌<◌, length};
ghost use Rattle.paper.specs.Basics.{most_elements};
ghost use Rattle.dtd_before.specs.Paths.{declared_to};
ghost use Rattle.dtd_before.specs.Scans.{Ready};
ghost use Rattle.dtd_heads.specs.Heads.{row_at, stored, most_numbers, Heads};
ghost use Rattle.dtd_heads.specs.After.{Kept, RowFound};

use dtd_before::row_before;
use dtd_names::find_name;
use dtd_rows::{Row, no_row};
use paper::MOST_ELEMENTS;

// A row of the table.
pub fn row_at(rows: &[u64], h: usize) -> Row
    requires { (h < most_elements) × (most_numbers ≤ length rows.now) }
    ensures { result ≡ row_at rows.now h }
{
    let i = 5 * h;
    Row {
        allowed: rows[i],
        required: rows[i + 1],
        id: rows[i + 2],
        idref: rows[i + 3],
        idrefs: rows[i + 4],
    }
}

// The row goes to its place among the others.
pub fn store_row(rows: &mut [u64], h: usize, row: Row)
    requires { (h < most_elements) × (most_numbers ≤ length rows.old) }
    ensures { rows.new ≡ stored rows.old h row }
{
    let i = 5 * h;
    rows[i] = row.allowed;
    rows[i + 1] = row.required;
    rows[i + 2] = row.id;
    rows[i + 3] = row.idref;
    rows[i + 4] = row.idrefs;
}

// The number of an element's name in the table, or how many stand there; and its row.
#[derive(Clone, Copy)]
pub struct Found {
    pub place: usize,
    pub row: Row,
}

// The row of the element whose name stands at `e`, as it is before the place `upto`.
pub fn find_row(
    text: &[u8],
    upto: usize,
    e: usize,
    attributes: &[usize],
    heads: &[usize],
    many: usize,
    rows: &[u64],
) -> Found
    requires { Ready text.now upto attributes.now × Heads text.now (declared_to text.now upto) heads.now many rows.now }
    ensures { RowFound text.now upto e heads.now many result }
{
    let h = find_name(text, &heads[..many], e);
    if h < many {
        let row = row_at(rows, h);
        return Found { place: h, row };
    }
    if many < MOST_ELEMENTS {
        let row = no_row();
        return Found { place: h, row };
    }
    let row = row_before(text, upto, e, attributes);
    Found { place: h, row }
}

// The row is kept where there is room for it. It tells how many rows there are then.
pub fn keep_row(
    heads: &mut [usize],
    many: usize,
    rows: &mut [u64],
    h: usize,
    e: usize,
    row: Row,
) -> usize
    requires { (most_elements ≤ length heads.old) × (most_numbers ≤ length rows.old) }
    ensures { Kept heads.old heads.new many rows.old rows.new h e row result }
{
    if h >= MOST_ELEMENTS {
        return many;
    }
    store_row(rows, h, row);
    if h != many {
        return many;
    }
    heads[many] = e;
    many + 1
}
