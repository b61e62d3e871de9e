// Item 4, "DTD files as they come": what stands behind an element's name, `EMPTY`, `(#PCDATA)` or a model within the limits. Assumes
// nothing.
#![tactic(auto)]

ghost use Rattle.std.specs.Prelude.{◌≤◌, option_copied, length, drop};
ghost use Rattle.paper.specs.Dtd.Reading.{contentspec, limited};
ghost use Rattle.dtd_words.specs.Words.{Came};
ghost use Rattle.dtd_names.specs.Named.{known_in};
ghost use Rattle.dtd_contents.specs.Contents.{Specified, text_rest};

use dtd_models::model_at;
use dtd_words::{Fault, byte_at, skip_white, word_at};
use paper::{MOST_NAMES, MOST_SYMBOLS, Refusal};

// The content of an element: none, text alone, or a model of so many symbols.
#[derive(Clone, Copy)]
pub enum Content {
    Empty,
    Text,
    Model(usize),
}

// A content that was read, and the place behind it.
#[derive(Clone, Copy)]
pub struct Specification {
    pub content: Content,
    pub at: usize,
}

// From `#PCDATA` to behind the bracket that closes.
fn text_rest(text: &[u8], at: usize) -> Result<usize, Fault>
    requires { at ≤ length text.now }
    ensures { Came text.now result (text_rest (drop at text.now)) }
{
    let end = word_at(text, at, b"#PCDATA")?;
    let next = skip_white(text, end);
    word_at(text, next, b")")
}

// "a model's limits (255 symbols, 64 names)"
fn limited_at(text: &[u8], at: usize, known: Option<&[usize]>) -> Result<Specification, Fault>
    requires { at ≤ length text.now }
    ensures { Specified text.now result (limited (known_in text.now (option_copied known.entry)) (drop at text.now)) }
{
    let model = model_at(text, at, known)?;
    let fits = (model.symbols <= MOST_SYMBOLS) & (model.names <= MOST_NAMES);
    if !fits {
        return Err(Fault {
            refusal: Refusal::Schema,
            at,
        });
    }
    Ok(Specification {
        content: Content::Model(model.symbols),
        at: model.at,
    })
}

// `EMPTY`, `(#PCDATA)` or a model.
pub fn contentspec_at(
    text: &[u8],
    at: usize,
    known: Option<&[usize]>,
) -> Result<Specification, Fault>
    requires { at ≤ length text.now }
    ensures { Specified text.now result (contentspec (known_in text.now (option_copied known.entry)) (drop at text.now)) }
{
    if !byte_at(text, at, b'(') {
        let end = word_at(text, at, b"EMPTY")?;
        return Ok(Specification {
            content: Content::Empty,
            at: end,
        });
    }
    let next = skip_white(text, at + 1);
    if !byte_at(text, next, b'#') {
        return limited_at(text, at, known);
    }
    let end = text_rest(text, next)?;
    Ok(Specification {
        content: Content::Text,
        at: end,
    })
}
