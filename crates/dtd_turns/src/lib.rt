// Item 4, "DTD files as they come": one turn along a DTD text: white space, a comment or a declaration. Assumes nothing.
#![tactic(auto)]

ghost use Rattle.std.specs.Prelude.{◌≡◌, ◌≤◌, option_copied, length, drop};
ghost use Rattle.paper.specs.Dtd.Reading.{turn};
ghost use Rattle.dtd_words.specs.Words.{Came};
ghost use Rattle.dtd_names.specs.Named.{known_in};
ghost use Rattle.dtd_before.specs.Paths.{declared_to};
ghost use Rattle.dtd_turns.specs.Standing.{Standing, TurnCame};
ghost use Rattle.dtd_turns.specs.Ways.{commenting, nothing};

use dtd_attributes::attlist_at;
use dtd_comments::comment_end;
use dtd_elements::{Element, element_at};
use dtd_words::{Fault, byte_at, is_white, skip_white, word_at};

// A turn: the place behind it, the element that it declares, how many names of attributes have been met and how many rows the table has.
#[derive(Clone, Copy)]
pub struct Turn {
    pub at: usize,
    pub element: Option<Element>,
    pub attributes: usize,
    pub many: usize,
}

// A turn that adds no element.
fn nothing(at: usize, attributes: usize, many: usize) -> Turn
    ensures { result ≡ nothing at attributes many }
{
    Turn {
        at,
        element: None,
        attributes,
        many,
    }
}

// From behind `<!` to behind the comment.
fn comment_at(text: &[u8], at: usize) -> Result<usize, Fault>
    requires { at ≤ length text.now }
    ensures { Came text.now result (commenting (drop at text.now)) }
{
    let inside = word_at(text, at, b"--")?;
    comment_end(text, inside)
}

// White space, a comment or a declaration.
pub fn turn_at(
    text: &[u8],
    at: usize,
    elements: &[usize],
    attributes: &mut [usize],
    defined: usize,
    known: Option<&[usize]>,
    heads: &mut [usize],
    many: usize,
    rows: &mut [u64],
) -> Result<Turn, Fault>
    requires { Standing text.now at elements.now attributes.old defined heads.old many rows.old }
    ensures { TurnCame text.now (declared_to text.now at) attributes.new heads.new rows.new result (turn (known_in text.now (option_copied known.entry)) (declared_to text.now at) (drop at text.now)) }
{
    if is_white(text[at]) {
        return Ok(nothing(skip_white(text, at), defined, many));
    }
    let mark = word_at(text, at, b"<!")?;
    if byte_at(text, mark, b'-') {
        let behind = comment_at(text, mark)?;
        return Ok(nothing(behind, defined, many));
    }
    if byte_at(text, mark, b'A') {
        let l = attlist_at(
            text, mark, at, attributes, defined, known, heads, many, rows,
        )?;
        return Ok(nothing(l.at, l.count, l.many));
    }
    let e = element_at(text, mark, elements, known)?;
    Ok(Turn {
        at: e.at,
        element: Some(e),
        attributes: defined,
        many,
    })
}
