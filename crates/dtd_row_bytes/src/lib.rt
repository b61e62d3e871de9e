// Item 4, "DTD files as they come": an element's attributes in the schema file, from its row. Assumes nothing.
//
// Each number is below 128, and so one byte.
#![tactic(auto)]

ghost use Rattle.std.specs.Prelude.{◌≡◌, ◌+◌, ◌≤◌, ◌<◌, length};
ghost use Rattle.paper.specs.Codes.{kind_of, status_of};
ghost use Rattle.paper.specs.SchemaWritten.{attribute_written};
ghost use Rattle.lines.specs.Put.{Put};
ghost use Rattle.dtd_row_bytes.specs.Rows.{kind_in, status_in, attribute_in, row_from, row_written};

use dtd_rows::Row;
use paper::{Kind, Status};
use sets::{Members, has};

// The kind of attribute k.
fn kind_of(row: Row, k: u32) -> Kind
    requires { k < 64 }
    ensures { kind_of result ≡ kind_in row k }
{
    if has(row.id, k) {
        return Kind::Id;
    }
    if has(row.idref, k) {
        return Kind::Idref;
    }
    if has(row.idrefs, k) {
        return Kind::Idrefs;
    }
    Kind::Cdata
}

// The status of attribute k.
fn status_of(row: Row, k: u32) -> Status
    requires { k < 64 }
    ensures { status_of result ≡ status_in row k }
{
    if has(row.required, k) {
        return Status::Required;
    }
    Status::Implied
}

// Their numbers in the schema file.
fn kind_byte(kind: Kind) -> u8
    ensures { result ≡ kind_of kind }
{
    kind as u8
}

fn status_byte(status: Status) -> u8
    ensures { result ≡ status_of status }
{
    status as u8
}

// Attribute k goes into the buffer from a place on; the place after it.
fn put_attribute(row: Row, k: u32, out: &mut [u8], at: usize) -> usize
    requires { (k < 64) × (at + 3 ≤ length out.old) }
    ensures { Put out.old at (attribute_written (attribute_in row k)) result out.new }
{
    let kind = kind_byte(kind_of(row, k));
    let status = status_byte(status_of(row, k));
    out[at] = k as u8;
    out[at + 1] = kind;
    out[at + 2] = status;
    at + 3
}

// The attributes by rising number.
fn put_attributes(row: Row, out: &mut [u8], at: usize) -> usize
    requires { at + length (row_from row row.allowed) ≤ length out.old }
    ensures { Put out.old at (row_from row row.allowed) result out.new }
{
    let mut next = at;
    for k in Members(row.allowed) {
        next = put_attribute(row, k, out, next);
    }
    next
}

// The count of attributes, and the attributes.
pub fn put_row(row: Row, out: &mut [u8], at: usize) -> usize
    requires { at + length (row_written row) ≤ length out.old }
    ensures { Put out.old at (row_written row) result out.new }
{
    out[at] = u64::count_ones(row.allowed) as u8;
    put_attributes(row, out, at + 1)
}
