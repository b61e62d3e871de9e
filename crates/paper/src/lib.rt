// The paper ("What is to be built") as definitions: see specs/Lib.antt for the order to read them in.
//
// Here stand the paper's numbers, each at its one home, and the types that definitions and code share.
// Assumes nothing.
#![tactic(auto)]

ghost use Rattle.std.specs.Prelude.{◌≡◌};
ghost use Rattle.paper.specs.Codes.{number_of, Operates};

// ---- The paper's numbers, for code, under the names of include/shrikemuff.h; specs/ has them for definitions.

// A document or a piece has at most so many tokens, and is at most so deep, with the root at 1.
pub const MOST_TOKENS: usize = 8192;

pub const MOST_DEEP: usize = 64;

// "the number at most 65,535": a token's
pub const MOST_NUMBER: u32 = 65535;

// The largest number of a file.
pub const MOST_VALUE: u32 = 2097151;

// "a file over 65,536 bytes": one that the edit program takes has no more.
pub const MOST_FILE: usize = 65536;

// A schema has at most so many elements, an element's model so many symbols and names, an element so many attributes.
pub const MOST_ELEMENTS: usize = 48;

pub const MOST_SYMBOLS: usize = 255;

pub const MOST_NAMES: usize = 64;

pub const MOST_ATTRIBUTES: usize = 64;

// "Up to 16 in a schema": fixed attributes.
pub const MOST_FIXED: usize = 16;

// The piece of an inverse, or of an edit in a list, stands behind its operation, its place and its count; so an inverse has at most MOST_BACK
// numbers.
pub const BACK_PIECE: usize = 3;

pub const MOST_BACK: usize = 8195;

// "a list of 1 to 256 edits"
pub const MOST_EDITS: usize = 256;

// "The sequence buffer has at least 4,290 places."
pub const SEQUENCE_PLACES: usize = 4290;

// A schema file without fixed attributes has at most so many bytes: two, and for each element its kind, a count of symbols in two bytes, the
// symbols, a count of attributes and three bytes for each.
pub const MOST_SCHEMA_FILE: usize = 21650;

// The table: its length, a block's length, where the first block begins, and where the parts of a block begin.
pub const TABLE_WORDS: usize = 6675;

pub const BLOCK_WORDS: usize = 138;

pub const BLOCKS_AT: usize = 2;

pub const KIND_AT: usize = 0;

pub const ALLOWED_AT: usize = 1;

pub const REQUIRED_AT: usize = 2;

pub const ID_AT: usize = 3;

pub const IDREF_AT: usize = 4;

pub const IDREFS_AT: usize = 5;

pub const COUNT_AT: usize = 6;

pub const NO_CHILD_AT: usize = 7;

pub const FIRST_AT: usize = 8;

pub const LAST_AT: usize = 9;

pub const NAMES_AT: usize = 10;

pub const FOLLOW_AT: usize = 74;

// Where the count and the entries of fixed attributes begin, how many numbers they have, and an entry has.
pub const FIXED_AT: usize = 6626;

pub const FIXED_WORDS: usize = 49;

pub const ENTRY_WORDS: usize = 3;

// The kinds of elements.
pub const EMPTY: u32 = 0;

pub const TEXT_ONLY: u32 = 1;

pub const MODEL: u32 = 2;

// The symbols of a model; the element e is NAMED + e.
pub const SEQUENCE: u32 = 0;

pub const CHOICE: u32 = 1;

pub const OPTIONAL: u32 = 2;

pub const ZERO_OR_MORE: u32 = 3;

pub const ONE_OR_MORE: u32 = 4;

pub const NAMED: u32 = 5;

// The kinds of attributes, and their statuses.
pub const CDATA: u32 = 0;

pub const ID: u32 = 1;

pub const IDREF: u32 = 2;

pub const IDREFS: u32 = 3;

pub const REQUIRED: u32 = 0;

pub const IMPLIED: u32 = 1;

pub const FIXED: u32 = 2;

// The sorts of tokens: a token is number × SORTS + sort.
pub const SORTS: u32 = 8;

pub const START: u32 = 1;

pub const END: u32 = 2;

pub const TEXT: u32 = 3;

pub const ATTRIBUTE: u32 = 4;

pub const VALUE: u32 = 5;

// The operations of an edit.
pub const INSERT: u32 = 1;

pub const REMOVE: u32 = 2;

pub const REPLACE: u32 = 3;

pub const SET: u32 = 4;

pub const DROP: u32 = 5;

// The answers.
pub const DONE: u32 = 0;

pub const BROKEN: u32 = 1;

pub const SCHEMA: u32 = 2;

pub const AMBIGUOUS: u32 = 3;

pub const SHAPE: u32 = 4;

pub const ROOM: u32 = 5;

pub const PLACE: u32 = 6;

pub const NAME: u32 = 7;

pub const ATTRIBUTES: u32 = 8;

pub const CONTENT: u32 = 9;

pub const ROOT: u32 = 10;

pub const ID_TWICE: u32 = 11;

pub const NO_ID: u32 = 12;

pub const TABLE: u32 = 13;

pub const DTD_TEXT: u32 = 14;

pub const COUNTS: u32 = 15;

pub const NOT_COMPARED: u32 = 16;

// ---- Why a call is refused, and what an edit does

// Each is the answer of its number.
#[derive(Clone, Copy)]
pub enum Refusal {
    Broken = 1,
    Schema = 2,
    Ambiguous = 3,
    Shape = 4,
    Room = 5,
    Place = 6,
    Name = 7,
    Attributes = 8,
    Content = 9,
    Root = 10,
    IdTwice = 11,
    NoId = 12,
    Table = 13,
    DtdText = 14,
    Counts = 15,
    NotCompared = 16,
}

impl Refusal {
    // Its number among the answers.
    pub fn number(self) -> u32
        ensures { result ≡ number_of self }
    {
        self as u32
    }
}

// A fault of a document: which rule is broken, and the place.
#[derive(Clone, Copy)]
pub struct Fault {
    pub refusal: Refusal,
    pub place: u32,
}

// The operations of an edit.
#[derive(Clone, Copy)]
pub enum Operation {
    Insert = 1,
    Remove = 2,
    Replace = 3,
    Set = 4,
    Drop = 5,
}

// A number that is no operation.
#[derive(Clone, Copy)]
pub struct NoOperation;

impl TryFrom<u32> for Operation {
    type Error = NoOperation;

    ghost try_from_gives = { Operates };

    fn try_from(number: u32) -> Result<Self, NoOperation> {
        match number {
            1 => Ok(Operation::Insert),
            2 => Ok(Operation::Remove),
            3 => Ok(Operation::Replace),
            4 => Ok(Operation::Set),
            5 => Ok(Operation::Drop),
            _ => Err(NoOperation),
        }
    }
}

// The kinds of attributes.
#[derive(Clone, Copy, PartialEq, Eq)]
pub enum Kind {
    Cdata = 0,
    Id = 1,
    Idref = 2,
    Idrefs = 3,
}

// Whether an attribute must be present, or has one value alone.
#[derive(Clone, Copy, PartialEq, Eq)]
pub enum Status {
    Required = 0,
    Implied = 1,
    Fixed = 2,
}

// ---- Tokens

// A token, read.
#[derive(Clone, Copy)]
pub enum Tok {
    Start(u32),
    End,
    Text(u32),
    Attr(u32),
    Value(u32),
    Bad,
}
