// What the program `why` replies to its input: a day and a page in, a line out, put at the front of a lent buffer.
#![tactic(auto)]

ghost use Rattle.std.specs.Prelude.{◌≡◌, ◌<◌, ◌≤◌, length, IfErr};
ghost use Rattle.remarks.specs.Remarks.{remarks_room};
ghost use Rattle.text.specs.Sheets.{put_at};
ghost use Rattle.reply.specs.Replies.{printed_of, said_of, printed_for, said_for, Replied, remarks_for};

use days::refusal::Refusal;
use page::Fault;
use question::Question;
use text::{Line, TOO_LONG};

// How many bytes for standard output stand at the front of the buffer, and the line for standard error, which is empty
// where nothing is at fault.
#[derive(Clone, Copy)]
pub struct Reply {
    pub printed: usize,
    pub said: Line,
}

fn to_question(read: Result<Question, Fault>, buffer: &mut [u8; explanation::ROOM]) -> Reply
    requires { IfErr read (λ f. f.line < 4294967296) }
    ensures { Replied (printed_of read) (said_of read) buffer.old result buffer.new }
{
    match read {
        Ok(asked) => {
            let printed = explanation::put_line(asked.print, asked.query, asked.day, buffer);
            let said = Line::empty();
            Reply { printed, said }
        }
        Err(fault) => {
            let number = fault.refusal.number();
            let refused = text::refusal_line(number);
            let printed = explanation::put_front(refused, buffer);
            let said = messages::page_fault(fault.line as u32, number, fault.reason_number());
            Reply { printed, said }
        }
    }
}

// The reply to an input.
pub fn to_input(input: &[u8], buffer: &mut [u8; explanation::ROOM]) -> Reply
    ensures { Replied (printed_for input.now) (said_for input.now) buffer.old result buffer.new }
{
    if TOO_LONG <= input.len() {
        let refused = text::refusal_line(Refusal::BadInput.number());
        let printed = explanation::put_front(refused, buffer);
        let said = messages::unreadable_page();
        return Reply { printed, said };
    }
    to_question(question::read(input), buffer)
}

// Puts what is said of how an accepted page was understood at the front of the buffer, and hands back how many bytes it
// is; the page's first line is the input's second.
pub fn put_remarks(input: &[u8], buffer: &mut [u8; remarks::ROOM]) -> usize
    ensures value { result ≡ length (remarks_for input.now) }
    ensures buffer_after { buffer.new ≡ put_at buffer.old 0 (remarks_for input.now) }
    ensures upper_bound { result ≤ remarks_room }
{
    if TOO_LONG <= input.len() {
        return 0;
    }
    let read = question::read(input);
    if read.is_err() {
        return 0;
    }
    remarks::of_page(words::after(input, b'\n'), 2, buffer)
}
