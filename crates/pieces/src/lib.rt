// The piece of an edit: whether it is one that the operation takes, and the attribute that it begins with.
//
// Nothing is asked of a piece.
// Assumes nothing.
#![tactic(auto)]

ghost use Rattle.std.specs.Prelude.{◌≡◌};
ghost use Rattle.paper.specs.Basics.{null};
ghost use Rattle.paper.specs.Codes.{operation_of};
ghost use Rattle.paper.specs.Tokens.{toks};
ghost use Rattle.paper.specs.Edits.{is_text, good_item, attr_with, some_values, good_piece, attr_number};

use paper::Operation;
use shape::element_shape;
use slots::values;
use tokens::{is_attribute, is_text, number};

// Whether a piece is one text.
pub fn is_one_text(piece: &[u32]) -> bool
    ensures { result ≡ is_text (toks piece.now) }
{
    match piece {
        [t] => is_text(*t),
        _ => false,
    }
}

// Whether a piece is one text, or one element of good shape.
fn good_item(piece: &[u32]) -> bool
    ensures { result ≡ good_item (toks piece.now) }
{
    if is_one_text(piece) {
        return true;
    }
    element_shape(piece)
}

// Whether a piece is one attribute, with one or more values.
fn attr_and_values(piece: &[u32]) -> bool
    ensures { result ≡ attr_with some_values (toks piece.now) }
{
    match piece {
        [t, rest @ ..] if is_attribute(*t) & !rest.is_empty() => values(rest) == rest.len(),
        _ => false,
    }
}

// Whether a piece is one attribute and nothing else.
fn attr_alone(piece: &[u32]) -> bool
    ensures { result ≡ attr_with null (toks piece.now) }
{
    match piece {
        [t] => is_attribute(*t),
        _ => false,
    }
}

// "A piece over 8,192 tokens [..] is bad (4)." Whether the piece is one that the operation takes.
pub fn good_piece(operation: Operation, piece: &[u32]) -> bool
    ensures { result ≡ good_piece (operation_of operation) (toks piece.now) }
{
    if paper::MOST_TOKENS < piece.len() {
        return false;
    }
    match operation {
        Operation::Insert => good_item(piece),
        Operation::Remove => piece.len() == 0,
        Operation::Replace => good_item(piece),
        Operation::Set => attr_and_values(piece),
        Operation::Drop => attr_alone(piece),
    }
}

// The attribute number of a piece; 0, where it begins with no attribute.
pub fn attr_number(piece: &[u32]) -> u32
    ensures { result ≡ attr_number (toks piece.now) }
{
    match piece {
        [t, ..] if is_attribute(*t) => number(*t),
        _ => 0,
    }
}
