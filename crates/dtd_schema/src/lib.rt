// Item 4, "DTD files as they come": the schema file of a text that is taken goes into the lent buffer, or there is no room. Assumes
// nothing.
#![tactic(auto)]

ghost use Rattle.std.specs.Prelude.{◌≡◌, length};
ghost use Rattle.docfile.specs.Outcome.{answer};
ghost use Rattle.dtd_schema.specs.Rows.{Asked, Rowed};
ghost use Rattle.dtd_schema.specs.Filing.{Holds};
ghost use Rattle.dtd_schema.specs.Schema.{Ways, SchemaPut};

use copying::copy;
use docfile::Count;
use dtd_file::put_file;
use dtd_heads::{find_row, store_row};
use paper::{DONE, MOST_SCHEMA_FILE, ROOM};

// What the ATTLISTs of the text define for each element, by its number, from the table of those that they named.
fn put_rows(
    text: &[u8],
    elements: &[usize],
    attributes: &[usize],
    heads: &[usize],
    many: usize,
    table: &[u64],
    rows: &mut [u64],
)
    requires { Asked text.now elements.now attributes.now heads.now many table.now rows.old }
    ensures { Rowed text.now elements.now rows.new (length elements.now) }
{
    for j in 0..elements.len() {
        let f = find_row(
            text,
            text.len(),
            elements[j],
            attributes,
            heads,
            many,
            table,
        );
        store_row(rows, j, f.row);
    }
}

// The answer of a call that is refused.
pub fn refusal(number: u32) -> Count
    ensures { result ≡ answer number 0 }
{
    Count { number, count: 0 }
}

// The schema file of the declarations, from where they stand in the text, by way of arrays for the rows and the bytes.
fn put_by(
    text: &[u8],
    elements: &[usize],
    contents: &[usize],
    ends: &[usize],
    count: usize,
    attributes: &[usize],
    defined: usize,
    heads: &[usize],
    many: usize,
    table: &[u64],
    rows: &mut [u64],
    bytes: &mut [u8],
    file: &mut [u8],
) -> Count
    requires holds { Holds text.now elements.now contents.now ends.now attributes.now heads.now table.now count defined many }
    requires ways { Ways rows.old bytes.old }
    ensures { SchemaPut text.now elements.now contents.now ends.now attributes.now heads.now table.now count defined many file.old result file.new }
{
    let names = &elements[..count];
    put_rows(
        text,
        names,
        &attributes[..defined],
        heads,
        many,
        table,
        rows,
    );
    let n = put_file(text, names, contents, ends, rows, bytes);
    if file.len() < n {
        return refusal(ROOM);
    }
    copy(file, 0, bytes, 0, n);
    let done = n as u32;
    Count {
        number: DONE,
        count: done,
    }
}

// The schema file of the declarations, from where they stand in the text.
pub fn put_schema(
    text: &[u8],
    elements: &[usize],
    contents: &[usize],
    ends: &[usize],
    count: usize,
    attributes: &[usize],
    defined: usize,
    heads: &[usize],
    many: usize,
    table: &[u64],
    file: &mut [u8],
) -> Count
    requires { Holds text.now elements.now contents.now ends.now attributes.now heads.now table.now count defined many }
    ensures { SchemaPut text.now elements.now contents.now ends.now attributes.now heads.now table.now count defined many file.old result file.new }
{
    let mut rows: [u64; 240] = [0; 240];
    let mut bytes: [u8; MOST_SCHEMA_FILE] = [0; MOST_SCHEMA_FILE];
    put_by(
        text, elements, contents, ends, count, attributes, defined, heads, many, table, &mut rows,
        &mut bytes, file,
    )
}
