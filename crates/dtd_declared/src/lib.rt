// Item 4, "DTD files as they come": a text that is taken, or where it is refused. Assumes nothing.
#![tactic(auto)]

ghost use Rattle.paper.specs.Dtd.Letters.{among};
ghost use Rattle.paper.specs.Dtd.Reading.{reading};
ghost use Rattle.paper.specs.Dtd.Imported.{declared};
ghost use Rattle.dtd_laws.specs.Unique.{any};
ghost use Rattle.dtd_words.specs.Words.{Came};
ghost use Rattle.dtd_names.specs.Named.{names_at};
ghost use Rattle.dtd_texts.specs.Turns.{Lists, Told};

use dtd_texts::{Reading, read_text};
use dtd_words::Fault;
use paper::{MOST_ATTRIBUTES, MOST_ELEMENTS, Refusal};

// The text, read once more: its end, or the first name that is declared nowhere.
fn strictly(text: &[u8], elements: &[usize]) -> Result<usize, Fault>
    ensures { Came text.now result (reading (λ n. among n (names_at text.now elements.now)) text.now) }
{
    let mut names: [usize; MOST_ELEMENTS] = [0; MOST_ELEMENTS];
    let mut contents: [usize; MOST_ELEMENTS] = [0; MOST_ELEMENTS];
    let mut ends: [usize; MOST_ELEMENTS] = [0; MOST_ELEMENTS];
    let mut attributes: [usize; MOST_ATTRIBUTES] = [0; MOST_ATTRIBUTES];
    let mut heads: [usize; MOST_ELEMENTS] = [0; MOST_ELEMENTS];
    let mut rows: [u64; 240] = [0; 240];
    let r = read_text(
        text,
        Some(elements),
        &mut names,
        &mut contents,
        &mut ends,
        &mut attributes,
        &mut heads,
        &mut rows,
    )?;
    Ok(r.at)
}

// The text, read for what it declares and then for names that are declared nowhere: where its elements' names and contents and its
// attributes' names stand and the table of its rows, or where it is refused.
pub fn declared_at(
    text: &[u8],
    elements: &mut [usize],
    contents: &mut [usize],
    ends: &mut [usize],
    attributes: &mut [usize],
    heads: &mut [usize],
    rows: &mut [u64],
) -> Result<Reading, Fault>
    requires { Lists elements.old contents.old ends.old attributes.old heads.old rows.old }
    ensures { Told any text.now result elements.new contents.new ends.new attributes.new heads.new rows.new (declared text.now) }
{
    let first = read_text(
        text, None, elements, contents, ends, attributes, heads, rows,
    )?;
    if first.elements == 0 {
        return Err(Fault {
            refusal: Refusal::DtdText,
            at: first.at,
        });
    }
    strictly(text, &elements[..first.elements])?;
    Ok(first)
}
