// The printed statement, as bytes in a lent buffer: an event's lines, the last line, a refusal.

#![tactic(auto)]

ghost use Rattle.std.specs.Prelude.{◌≡◌, ◌+◌, ◌≤◌, length};
ghost use Rattle.statement_text.specs.Buffer.{end_after, text_after};
ghost use Rattle.statement_text.specs.InnerContracts.{Put, numbers_text};
ghost use Rattle.statement_text.specs.Text.{event_lines, event_room, fund_line, line_room, line_text, owner_line, owner_lines, refusal_line, text_of};

mod lent;
mod sentence;

use lent::Text;
pub use lent::has_room;
pub use sentence::{SENTENCE_ROOM, write_sentence};

// The room that one line asks for, and that an event of 64 lines asks for.
pub const LINE_ROOM: usize = 65;

pub const EVENT_ROOM: usize = 4160;

// An event's lines, behind a place of the buffer. Gives the place behind them. Letter, number and, below, a refusal are numbers, since
// a text is promised for any: a narrower type would ask more of callers. So with a buffer and a place, which may be any of both, in the calls that
// write; those of a C host come here as they are.
pub fn write_event(tag: u8, number: u64, lines: &[i64], text: &mut [u8], at: usize) -> usize
    ensures value { result ≡ end_after (event_room (length lines.now)) (text_of (event_lines tag number lines.now)) text.old at }
    ensures text_after { text.new ≡ text_after (event_room (length lines.now)) (text_of (event_lines tag number lines.now)) text.old at }
    ensures upper_bound { result ≤ at + event_room (length lines.now) }
{
    if !has_room(text.len(), at, lines.len().saturating_mul(LINE_ROOM)) {
        return at;
    }
    let mut out = Text {
        bytes: text,
        end: at,
    };
    Named { tag, number }.write_lines(lines, &mut out);
    out.end
}

// The last line: both balances, with their sign.
#[tactic(auto, using(crate::proofs::Lines::fund_numbers))]
pub fn write_fund(month: i64, year: i64, text: &mut [u8], at: usize) -> usize
    ensures value { result ≡ end_after line_room (line_text (fund_line month year)) text.old at }
    ensures text_after { text.new ≡ text_after line_room (line_text (fund_line month year)) text.old at }
{
    write_numbers(b'F', &[month, year], text, at)
}

// A refusal's line.
#[tactic(auto, using(crate::proofs::Lines::refusal_numbers))]
pub fn write_refusal(number: u8, text: &mut [u8], at: usize) -> usize
    ensures value { result ≡ end_after line_room (line_text (refusal_line number)) text.old at }
    ensures text_after { text.new ≡ text_after line_room (line_text (refusal_line number)) text.old at }
{
    write_numbers(b'R', &[i64::from(number)], text, at)
}

// A line of a letter and of three numbers at most, behind a place of the buffer.
fn write_numbers(letter: u8, numbers: &[i64], text: &mut [u8], at: usize) -> usize
    requires { length numbers.now ≤ 3 }
    ensures value { result ≡ end_after line_room (numbers_text letter numbers.now) text.old at }
    ensures text_after { text.new ≡ text_after line_room (numbers_text letter numbers.now) text.old at }
{
    if !has_room(text.len(), at, LINE_ROOM) {
        return at;
    }
    let mut line = Text {
        bytes: text,
        end: at,
    };
    line.put(&[letter]);
    for number in numbers {
        line.signed_field(*number);
    }
    line.put(b"\n");
    line.end
}

// An event as its lines name it: its letter, and its hour or month; any of both, as in the public call.
#[derive(Clone, Copy)]
struct Named {
    tag: u8,
    number: u64,
}

impl Named {
    // Each owner's line.
    fn write_lines(self, lines: &[i64], out: &mut Text)
        requires { out.old.end + event_room (length lines.now) ≤ length out.old.bytes.now }
        ensures put { Put (text_of (event_lines self.tag self.number lines.now)) out.old out.new }
        ensures short { out.new.end ≤ out.old.end + event_room (length lines.now) }
    {
        for (owner, cents) in lines.iter().enumerate() {
            self.write_owner(owner, *cents, out);
        }
    }

    // One owner's line, unless it is zero.
    fn write_owner(self, owner: usize, cents: i64, out: &mut Text)
        requires { out.old.end + line_room ≤ length out.old.bytes.now }
        ensures put { Put (text_of (owner_lines self.tag self.number owner cents)) out.old out.new }
        ensures short { out.new.end ≤ out.old.end + line_room }
    {
        if cents != 0 {
            self.write_line(owner, cents, out);
        }
    }

    // By `as`: there is no `From` from an index to 64 bits.
    fn write_line(self, owner: usize, cents: i64, out: &mut Text)
        requires { out.old.end + line_room ≤ length out.old.bytes.now }
        ensures put { Put (line_text (owner_line self.tag self.number owner cents)) out.old out.new }
        ensures short { out.new.end ≤ out.old.end + line_room }
    {
        out.put(&[self.tag]);
        out.field(self.number);
        out.field(owner as u64);
        out.signed_field(cents);
        out.put(b"\n");
    }
}
