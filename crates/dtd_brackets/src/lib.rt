// Item 4, "DTD files as they come": the brackets that are open at a place of a model.
//
// Brackets nest without a bound, so there is no stack. The innermost are kept as one number, a digit to base 4 for each: 1 no separator
// yet, 2 commas, 3 bars. Those outside them are found again by looking back along the text. Assumes nothing.
#![tactic(auto)]

ghost use Rattle.std.specs.Prelude.{◌≡◌, cond, ◌&&◌, ◌||◌, ◌%◌, ◌≤◌, eqb, Some, length};
ghost use Rattle.dtd_model_laws.specs.Walks.{joint_of};
ghost use Rattle.dtd_brackets.specs.Stacks.{open_at};
ghost use Rattle.dtd_brackets.specs.Windows.{digit, Known, Pushed};
ghost use Rattle.dtd_brackets.specs.Separators.{joint};
ghost use Rattle.dtd_brackets.specs.Back.{Recovered};

// Below it there is room for one more digit.
const ROOM: u64 = 1 << 60;
// Fifteen digits: so many are looked for at a time.
const ENOUGH: u64 = 1 << 30;

// The separators of a bracket.
#[derive(Clone, Copy, PartialEq, Eq)]
pub enum Separator {
    Comma,
    Bar,
}

// The separator that a byte is.
pub fn separator_of(b: u8) -> Option<Separator>
    ensures { joint result ≡ joint_of b }
{
    match b {
        b',' => Some(Separator::Comma),
        b'|' => Some(Separator::Bar),
        _ => None,
    }
}

// The digit of a bracket, by its separator.
pub fn digit_of(separator: Option<Separator>) -> u64
    ensures value { result ≡ digit (joint separator) }
    ensures upper_bound { result ≤ 3 }
{
    match separator {
        None => 1,
        Some(Separator::Comma) => 2,
        Some(Separator::Bar) => 3,
    }
}

// The digit of a separator; 1 for any other byte.
fn digit_of_byte(b: u8) -> u64
    ensures { result ≡ digit (joint_of b) }
{
    if b == b',' {
        return 2;
    }
    if b == b'|' {
        return 3;
    }
    1
}

// The digit of a bracket, looked at from behind: its last separator decides.
fn looked_at(b: u8, level: usize, now: u64) -> u64
    ensures { result ≡ cond (eqb level 0 && eqb now 1) (digit (joint_of b)) now }
{
    if level != 0 {
        return now;
    }
    if now != 1 {
        return now;
    }
    digit_of_byte(b)
}

// The innermost brackets that are open at a place, looked for from behind.
fn look_back(text: &[u8], from: usize, at: usize) -> u64
    requires { (from ≤ at) × (at ≤ length text.now) }
    ensures { Recovered text.now from at result }
{
    let mut i = at;
    let mut level: usize = 0;
    let mut now: u64 = 1;
    let mut window: u64 = 0;
    let mut power: u64 = 1;
    while from < i {
        if ENOUGH <= power {
            return window;
        }
        i -= 1;
        let b = text[i];
        if b == b')' {
            level += 1;
            continue;
        }
        if b != b'(' {
            now = looked_at(b, level, now);
            continue;
        }
        if level != 0 {
            level -= 1;
            continue;
        }
        window += now * power;
        power *= 4;
        now = 1;
    }
    window
}

// One more bracket, without a separator.
pub fn pushed(window: u64) -> u64
    ensures { Pushed window result }
{
    if window < ROOM { window * 4 + 1 } else { 1 }
}

// A window that is not empty.
pub fn window_at(text: &[u8], from: usize, at: usize, window: u64) -> u64
    requires { (from ≤ at) × (at ≤ length text.now) × Known window (open_at text.now from at) }
    ensures { Recovered text.now from at result }
{
    if window == 0 {
        return look_back(text, from, at);
    }
    window
}

// Whether a separator may stand in the innermost bracket of a window.
pub fn fits(window: u64, separator: Separator) -> bool
    ensures { result ≡ eqb (window % 4) 1 || eqb (window % 4) (digit (joint (Some separator))) }
{
    let bracket = window % 4;
    (bracket == 1) | (bracket == digit_of(Some(separator)))
}
