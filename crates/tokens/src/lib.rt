// Words as tokens: what sort a word is of, and its number.
//
// "A token is number × 8 + sort, the number at most 65,535." A test of a sort is one comparison, of the bits that hold the sort and those
// past the largest number. A word that is no token is of no sort. specs/Theorems.antt says what each test tells of the token.
// Assumes nothing.
#![tactic(auto)]

ghost use Rattle.std.specs.Prelude.{◌≡◌, ◌/◌};
ghost use Rattle.paper.specs.Tokens.{tok_of, starts};
ghost use Rattle.tokens.specs.Sorts.{of_sort, ends, text_tok, attr_tok, value_tok};

// Whether a word is of a sort and has a number that a token can have.
fn is_of(t: u32, sort: u32) -> bool
    ensures { result ≡ of_sort sort t }
{
    (t % paper::SORTS == sort) & (t / paper::SORTS <= paper::MOST_NUMBER)
}

// Whether a word is a start.
pub fn is_start(t: u32) -> bool
    ensures { result ≡ starts (tok_of t) }
{
    is_of(t, paper::START)
}

// Whether a word is an end. An end has number 0.
pub fn is_end(t: u32) -> bool
    ensures { result ≡ ends (tok_of t) }
{
    t == paper::END
}

// Whether a word is a text.
pub fn is_text(t: u32) -> bool
    ensures { result ≡ text_tok (tok_of t) }
{
    is_of(t, paper::TEXT)
}

// Whether a word is an attribute.
pub fn is_attribute(t: u32) -> bool
    ensures { result ≡ attr_tok (tok_of t) }
{
    is_of(t, paper::ATTRIBUTE)
}

// Whether a word is a value.
pub fn is_value(t: u32) -> bool
    ensures { result ≡ value_tok (tok_of t) }
{
    is_of(t, paper::VALUE)
}

// The number of a token.
pub fn number(t: u32) -> u32
    ensures { result ≡ t / 8 }
{
    t / paper::SORTS
}
