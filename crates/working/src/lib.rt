// The edits of a group, worked one after another on a second buffer.
//
// `worked` goes along a list of edits, up to the first that is refused. Each edit is tested for form, place and size, and in form made in the
// buffer; nothing is judged here. Assumes nothing.
#![tactic(auto)]

ghost use Rattle.std.specs.Prelude.{◌≡◌, true, ◌≤◌, length};
ghost use Rattle.paper.specs.Basics.{most_tokens};
ghost use Rattle.paper.specs.Shape.{shape_of};
ghost use Rattle.paper.specs.Lists.{split_list, fault_of};
ghost use Rattle.working.specs.Working.{Turned, Came};

use edit_list::edit_at;
use form::form_of;
use paper::Refusal;
use written::write;

// "Each edit is tested for form, place and size (the first buffer's)": an edit of the document in the second buffer, where the first one has
// `room` places. In form it is made there, by way of new, and its length is the answer.
fn turn(
    second: &mut [u32],
    room: usize,
    used: usize,
    operation: u32,
    place: usize,
    piece: &[u32],
    new: &mut [u32],
) -> Result<usize, Refusal>
    requires { (room ≤ length second.old) × (used ≤ room) × (shape_of second.old used ≡ true) × (length new.old ≡ most_tokens) }
    ensures { Turned room (record { operation = operation; place = place; piece = piece.now }) second.old used second.new result }
{
    let f = form_of(&second[..used], room, operation, place, piece, new)?;
    let end = f.used;
    write(second, used, &new[..end], 0);
    Ok(end)
}

// "the first refused edit's number and which edit it was, from 1": why the edits of a list end early, and the length of the last document
// reached.
#[derive(Clone, Copy)]
pub struct Stopped {
    pub refusal: Refusal,
    pub which: u32,
    pub used: usize,
}

// The edits of a list in turn, by way of new.
fn turns(
    second: &mut [u32],
    room: usize,
    used: usize,
    list: &[u32],
    new: &mut [u32],
) -> Result<usize, Stopped>
    requires { (room ≤ length second.old) × (used ≤ room) × (shape_of second.old used ≡ true) × (0 ≡ fault_of (split_list list.now)) × (length new.old ≡ most_tokens) }
    ensures { Came second.old room used list.now second.new result }
{
    let mut at: usize = 0;
    let mut begun: u32 = 0;
    let mut end = used;
    while at < list.len() {
        let e = edit_at(list, at);
        let from = e.from;
        let to = e.to;
        begun += 1;
        match turn(
            second,
            room,
            end,
            e.operation,
            e.place as usize,
            &list[from..to],
            new,
        ) {
            Ok(next) => {
                end = next;
                at = to;
            }
            Err(refusal) => {
                return Err(Stopped {
                    refusal,
                    which: begun,
                    used: end,
                });
            }
        }
    }
    Ok(end)
}

// The edits of a list in turn, from the document that the second buffer holds: it then holds "the last document reached, 0 up to the longest
// reached (the starting one included), then its old contents". The answer is the last document's length.
pub fn work(second: &mut [u32], room: usize, used: usize, list: &[u32]) -> Result<usize, Stopped>
    requires { (room ≤ length second.old) × (used ≤ room) × (shape_of second.old used ≡ true) × (0 ≡ fault_of (split_list list.now)) }
    ensures { Came second.old room used list.now second.new result }
{
    let mut new = [0u32; paper::MOST_TOKENS];
    turns(second, room, used, list, &mut new)
}
