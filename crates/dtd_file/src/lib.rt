// Item 4, "DTD files as they come": the schema file of the declarations of a text, from where they stand in it. Assumes nothing.
//
// Of element j are told: where its name, its content and the end of that stand in the text, and its row of attributes.
#![tactic(auto)]

ghost use Rattle.dtd_file.specs.Filed.{Files, FilePut};
ghost use Rattle.dtd_file.specs.Elements.{Ready, ElementPut};
ghost use Rattle.dtd_file.specs.Turns.{ElementsPut};

use dtd_content_bytes::put_content;
use dtd_heads::row_at;
use dtd_row_bytes::put_row;
use dtd_rows::Row;

// The first element is the root.
const ROOT: u8 = 0;

// An element, whose content stands from `from` to before `to`, goes into the buffer from a place on; the place after it.
fn put_element(
    text: &[u8],
    from: usize,
    to: usize,
    names: &[usize],
    row: Row,
    out: &mut [u8],
    at: usize,
) -> usize
    requires { Ready text.now names.now from to row out.old at }
    ensures { ElementPut text.now names.now from to row out.old at result out.new }
{
    let next = put_content(text, from, to, names, out, at);
    put_row(row, out, next)
}

// The elements go into the buffer from place 2 on, behind their count and the root; the place after them.
fn put_elements(
    text: &[u8],
    elements: &[usize],
    contents: &[usize],
    ends: &[usize],
    rows: &[u64],
    out: &mut [u8],
) -> usize
    requires { Files text.now elements.now contents.now ends.now rows.now out.old }
    ensures { ElementsPut text.now elements.now contents.now ends.now rows.now out.old result out.new }
{
    let mut next: usize = 2;
    for j in 0..elements.len() {
        let row = row_at(rows, j);
        next = put_element(text, contents[j], ends[j], elements, row, out, next);
    }
    next
}

// The schema file goes into the buffer from its front on; the place after it.
pub fn put_file(
    text: &[u8],
    elements: &[usize],
    contents: &[usize],
    ends: &[usize],
    rows: &[u64],
    out: &mut [u8],
) -> usize
    requires { Files text.now elements.now contents.now ends.now rows.now out.old }
    ensures { FilePut text.now elements.now contents.now ends.now rows.now out.old result out.new }
{
    out[0] = elements.len() as u8;
    out[1] = ROOT;
    put_elements(text, elements, contents, ends, rows, out)
}
