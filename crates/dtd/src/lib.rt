// Item 4, "DTD files as they come": the three calls. A text becomes a schema file, or the list of its names; or the place where it is
// refused is told.
//
// Each call knows its answer before it writes: a refused call leaves the lent buffer as it was. Nothing is asked of a text or a buffer.
// Assumes nothing.
#![tactic(auto)]

ghost use Rattle.std.specs.Prelude.{◌≡◌, ◌++◌, min};
ghost use Rattle.paper.specs.Dtd.Imported;
ghost use Rattle.paper.specs.Dtd.Numbering.{listed};
ghost use Rattle.dtd_names.specs.Named.{names_at};
ghost use Rattle.dtd_schema.specs.Roomed.{Roomed};
ghost use Rattle.dtd.specs.Outcomes.{spotted};
ghost use Rattle.docfile.specs.Outcome.{outcome};

use docfile::Count;
use dtd_declared::declared_at;
use dtd_list::{names_length, put_names};
use dtd_schema::{put_schema, refusal};
use paper::{DONE, MOST_ATTRIBUTES, MOST_ELEMENTS, ROOM};

// A text becomes a schema file.
pub fn import(text: &[u8], file: &mut [u8]) -> Count
    ensures { outcome result file.new ≡ Imported.import text.now file.old }
{
    let mut elements: [usize; MOST_ELEMENTS] = [0; MOST_ELEMENTS];
    let mut contents: [usize; MOST_ELEMENTS] = [0; MOST_ELEMENTS];
    let mut ends: [usize; MOST_ELEMENTS] = [0; MOST_ELEMENTS];
    let mut attributes: [usize; MOST_ATTRIBUTES] = [0; MOST_ATTRIBUTES];
    let mut heads: [usize; MOST_ELEMENTS] = [0; MOST_ELEMENTS];
    let mut rows: [u64; 240] = [0; 240];
    let d = declared_at(
        text,
        &mut elements,
        &mut contents,
        &mut ends,
        &mut attributes,
        &mut heads,
        &mut rows,
    );
    match d {
        Ok(d) => put_schema(
            text,
            &elements,
            &contents,
            &ends,
            d.elements,
            &attributes,
            d.attributes,
            &heads,
            d.many,
            &rows,
            file,
        ),
        Err(fault) => refusal(fault.refusal.number()),
    }
}

// The most bytes that a count holds, or the buffer has.
fn most_room(len: usize) -> usize
    ensures { result ≡ min len 4294967295 }
{
    if len < 4294967295 {
        return len;
    }
    4294967295
}

// The list of the names, from where they stand in the text.
fn put_words(text: &[u8], elements: &[usize], attributes: &[usize], names: &mut [u8]) -> Count
    ensures { Roomed (listed (names_at text.now elements.now ++ names_at text.now attributes.now)) names.old result names.new }
{
    let room = most_room(names.len());
    let n = names_length(text, elements, attributes, room);
    if room < n {
        return refusal(ROOM);
    }
    let put = put_names(text, elements, attributes, names);
    let count = put as u32;
    Count {
        number: DONE,
        count,
    }
}

// The names of a text that is taken, each ended by byte 10: its elements, and then its attributes.
pub fn names(text: &[u8], names: &mut [u8]) -> Count
    ensures { outcome result names.new ≡ Imported.names text.now names.old }
{
    let mut elements: [usize; MOST_ELEMENTS] = [0; MOST_ELEMENTS];
    let mut contents: [usize; MOST_ELEMENTS] = [0; MOST_ELEMENTS];
    let mut ends: [usize; MOST_ELEMENTS] = [0; MOST_ELEMENTS];
    let mut attributes: [usize; MOST_ATTRIBUTES] = [0; MOST_ATTRIBUTES];
    let mut heads: [usize; MOST_ELEMENTS] = [0; MOST_ELEMENTS];
    let mut rows: [u64; 240] = [0; 240];
    let d = declared_at(
        text,
        &mut elements,
        &mut contents,
        &mut ends,
        &mut attributes,
        &mut heads,
        &mut rows,
    );
    match d {
        Ok(d) => {
            let first = &elements[..d.elements];
            let second = &attributes[..d.attributes];
            put_words(text, first, second, names)
        }
        Err(fault) => refusal(fault.refusal.number()),
    }
}

// Where a text is refused.
#[derive(Clone, Copy)]
pub struct Spot {
    pub number: u32,
    pub offset: usize,
}

// The number and the place of what is at fault; 0 at 0 for a text that is taken.
pub fn import_spot(text: &[u8]) -> Spot
    ensures { spotted result ≡ Imported.spot text.now }
{
    let mut elements: [usize; MOST_ELEMENTS] = [0; MOST_ELEMENTS];
    let mut contents: [usize; MOST_ELEMENTS] = [0; MOST_ELEMENTS];
    let mut ends: [usize; MOST_ELEMENTS] = [0; MOST_ELEMENTS];
    let mut attributes: [usize; MOST_ATTRIBUTES] = [0; MOST_ATTRIBUTES];
    let mut heads: [usize; MOST_ELEMENTS] = [0; MOST_ELEMENTS];
    let mut rows: [u64; 240] = [0; 240];
    let d = declared_at(
        text,
        &mut elements,
        &mut contents,
        &mut ends,
        &mut attributes,
        &mut heads,
        &mut rows,
    );
    match d {
        Ok(_) => Spot {
            number: DONE,
            offset: 0,
        },
        Err(fault) => Spot {
            number: fault.refusal.number(),
            offset: fault.at,
        },
    }
}
