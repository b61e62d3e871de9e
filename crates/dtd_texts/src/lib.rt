// Item 4, "DTD files as they come": the declarations of a DTD text, one after another. Assumes nothing.
#![tactic(auto)]

ghost use Rattle.std.specs.Prelude.{option_copied};
ghost use Rattle.paper.specs.Dtd.Reading.{reading};
ghost use Rattle.dtd_names.specs.Named.{known_in};
ghost use Rattle.dtd_texts.specs.Turns.{Lists, Told};

use dtd_turns::turn_at;
use dtd_words::Fault;

// A text that was read: its end, how many elements and names of attributes were declared, and how many rows the table has.
#[derive(Clone, Copy)]
pub struct Reading {
    pub at: usize,
    pub elements: usize,
    pub attributes: usize,
    pub many: usize,
}

// The whole text: where its elements' names and contents and its attributes' names stand and the table of its rows, or where it is
// refused.
pub fn read_text(
    text: &[u8],
    known: Option<&[usize]>,
    elements: &mut [usize],
    contents: &mut [usize],
    ends: &mut [usize],
    attributes: &mut [usize],
    heads: &mut [usize],
    rows: &mut [u64],
) -> Result<Reading, Fault>
    requires { Lists elements.old contents.old ends.old attributes.old heads.old rows.old }
    ensures { Told (known_in text.now (option_copied known.entry)) text.now result elements.new contents.new ends.new attributes.new heads.new rows.new (reading (known_in text.now (option_copied known.entry)) text.now) }
{
    let mut at: usize = 0;
    let mut count: usize = 0;
    let mut defined: usize = 0;
    let mut many: usize = 0;
    while at < text.len() {
        let t = turn_at(
            text,
            at,
            &elements[..count],
            attributes,
            defined,
            known,
            heads,
            many,
            rows,
        )?;
        at = t.at;
        defined = t.attributes;
        many = t.many;
        let declared = t.element;
        if let Some(e) = declared {
            elements[count] = e.name;
            contents[count] = e.content;
            ends[count] = e.end;
            count += 1;
        }
    }
    Ok(Reading {
        at,
        elements: count,
        attributes: defined,
        many,
    })
}
