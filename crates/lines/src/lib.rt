// The lines that the edit program prints, put into a buffer one after another.
//
// A call puts the bytes of a line from a place on and answers the place after them. Assumes nothing.
#![tactic(auto)]

ghost use Rattle.std.specs.Prelude.{◌+◌, ◌≤◌, ◌<◌, length};
ghost use Rattle.paper.specs.Codes.{number_of};
ghost use Rattle.paper.specs.Program.{halt, line};
ghost use Rattle.lines.specs.Put.{Put};
ghost use Rattle.lines.specs.Lines.{shown, line_of, field, Stop, line_room};

use copying::copy;
use paper::Refusal;

// The most bytes of a line: numbers of 5, 10, 10 and 20 digits, three spaces and the line's end.
pub const LINE: usize = 49;

// The bytes of the text go into the buffer from a place on; the place after them.
fn put_text(out: &mut [u8], at: usize, text: &[u8]) -> usize
    requires { at + length text.now ≤ length out.old }
    ensures { Put out.old at text.now result out.new }
{
    let n = text.len();
    copy(out, at, text, 0, n);
    at + n
}

// A number in decimal digits.
fn put_decimal(out: &mut [u8], at: usize, n: u64) -> usize
    requires { at + length (shown n) ≤ length out.old }
    ensures { Put out.old at (shown n) result out.new }
{
    let mut digits = [0u8; 20];
    let k = io::decimal(n, &mut digits);
    put_text(out, at, &digits[..k])
}

// A number, and a byte after it.
fn put_field(out: &mut [u8], at: usize, n: u64, end: u8) -> usize
    requires { at + length (shown n) < length out.old }
    ensures { Put out.old at (field n end) result out.new }
{
    let next = put_decimal(out, at, n);
    out[next] = end;
    next + 1
}

// "line number, answer, place, used length"
pub fn put_line(out: &mut [u8], at: usize, k: usize, number: u32, place: u32, used: usize) -> usize
    requires { (k < 100000) × (at + line_room ≤ length out.old) }
    ensures put { Put out.old at (line_of (line k number place used)) result out.new }
    ensures upper_bound { result ≤ at + line_room }
{
    let a = put_field(out, at, k as u64, b' ');
    let b = put_field(out, a, number as u64, b' ');
    let c = put_field(out, b, place as u64, b' ');
    put_field(out, c, used as u64, b'\n')
}

// "prints `stop` and the number", one with which the program stops: fixed byte strings.
pub fn put_due_stop(out: &mut [u8], at: usize, refusal: Refusal) -> usize
    requires { (Stop (number_of refusal)) × (at + line_room ≤ length out.old) }
    ensures { Put out.old at (line_of (halt (number_of refusal))) result out.new }
{
    match refusal {
        Refusal::Broken => put_text(out, at, b"stop 1\n"),
        Refusal::Schema => put_text(out, at, b"stop 2\n"),
        Refusal::Ambiguous => put_text(out, at, b"stop 3\n"),
        _ => put_text(out, at, b"stop 5\n"),
    }
}

// The same of any refusal.
#[tactic(auto, unfolding(crate::specs::Lines::line_of, crate::specs::Lines::shown))]
pub fn put_stop(out: &mut [u8], at: usize, refusal: Refusal) -> usize
    requires { at + line_room ≤ length out.old }
    ensures { Put out.old at (line_of (halt (number_of refusal))) result out.new }
{
    match refusal {
        Refusal::Broken => put_due_stop(out, at, refusal),
        Refusal::Schema => put_due_stop(out, at, refusal),
        Refusal::Ambiguous => put_due_stop(out, at, refusal),
        Refusal::Shape => put_text(out, at, b"stop 4\n"),
        Refusal::Room => put_due_stop(out, at, refusal),
        Refusal::Place => put_text(out, at, b"stop 6\n"),
        Refusal::Name => put_text(out, at, b"stop 7\n"),
        Refusal::Attributes => put_text(out, at, b"stop 8\n"),
        Refusal::Content => put_text(out, at, b"stop 9\n"),
        Refusal::Root => put_text(out, at, b"stop 10\n"),
        Refusal::IdTwice => put_text(out, at, b"stop 11\n"),
        Refusal::NoId => put_text(out, at, b"stop 12\n"),
        Refusal::Table => put_text(out, at, b"stop 13\n"),
        Refusal::DtdText => put_text(out, at, b"stop 14\n"),
        Refusal::Counts => put_text(out, at, b"stop 15\n"),
        Refusal::NotCompared => put_text(out, at, b"stop 16\n"),
    }
}

#[cfg(test)]
mod tests {
    use super::*;

    // Each refusal's stop, behind a byte that stays as it was.
    #[test]
    fn stops_of_all_refusals(rt: HostRuntime) {
        let texts: [(Refusal, &[u8]); 16] = [
            (Refusal::Broken, b"stop 1\n"),
            (Refusal::Schema, b"stop 2\n"),
            (Refusal::Ambiguous, b"stop 3\n"),
            (Refusal::Shape, b"stop 4\n"),
            (Refusal::Room, b"stop 5\n"),
            (Refusal::Place, b"stop 6\n"),
            (Refusal::Name, b"stop 7\n"),
            (Refusal::Attributes, b"stop 8\n"),
            (Refusal::Content, b"stop 9\n"),
            (Refusal::Root, b"stop 10\n"),
            (Refusal::IdTwice, b"stop 11\n"),
            (Refusal::NoId, b"stop 12\n"),
            (Refusal::Table, b"stop 13\n"),
            (Refusal::DtdText, b"stop 14\n"),
            (Refusal::Counts, b"stop 15\n"),
            (Refusal::NotCompared, b"stop 16\n"),
        ];
        for (refusal, text) in texts {
            let mut out = [b'.'; LINE + 1];
            let next = put_stop(&mut out, 1, refusal);
            assert_eq!(rt; out[0], b'.');
            assert_eq!(rt; &out[1..next], text);
            assert!(rt; out[next..].iter().all(|b| *b == b'.'));
        }
    }
}
