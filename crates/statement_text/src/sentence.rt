// One plain sentence that tells a refusal, as bytes in a lent buffer.
ghost use Rattle.std.specs.Prelude.{◌≡◌, ◌+◌, ◌≤◌, ◌++◌, length};
ghost use Rattle.statement_text.specs.Buffer.{end_after, text_after};
ghost use Rattle.statement_text.specs.InnerContracts.{Put, event_phrase_room, record_phrase_room, refusal_phrase_room, word_room};
ghost use Rattle.statement_text.specs.Sentence.{event_phrase, is_of_record, record_phrase, refusal_phrase, sentence, sentence_room, word_of};
ghost use Rattle.statement_text.specs.Text.{field, field_room};

use crate::lent::{Text, has_room};

// The room that one sentence asks for.
pub const SENTENCE_ROOM: usize = 112;

// What stands for the word of a number that no refusal has.
const NO_WORD: &str = "not in the table";

// The refusals' words, each at its number.
const WORDS: [&str; 18] = [
    NO_WORD,
    "spoiled book",
    "year over",
    "out of turn",
    "wrong length",
    "wild price",
    "wild amount",
    "bad right",
    "unpriced node",
    "hour too large",
    "carry full",
    "want too large",
    NO_WORD,
    NO_WORD,
    NO_WORD,
    "no such year",
    "too many wants",
    "total too large",
];

// One sentence on a refusal, behind a place of the buffer: the event and its number, the refusal's number and word, and in 7 and 8
// the record. Nothing for refusal 0. The C library exports it with these parameters, and promises a sentence for any; its parts below
// take two of them at most, as the numbers that they are.
pub fn write_sentence(
    tag: u8,
    number: u64,
    refusal: u8,
    faulty: u64,
    text: &mut [u8],
    at: usize,
) -> usize
    ensures value { result ≡ end_after sentence_room (sentence tag number refusal faulty) text.old at }
    ensures text_after { text.new ≡ text_after sentence_room (sentence tag number refusal faulty) text.old at }
{
    if !has_room(text.len(), at, SENTENCE_ROOM) {
        return at;
    }
    if refusal == 0 {
        return at;
    }
    let mut out = Text {
        bytes: text,
        end: at,
    };
    write_named(tag, number, &mut out);
    write_told(refusal, &mut out);
    write_record(refusal, faulty, &mut out);
    out.put(b".\n");
    out.end
}

// The event and its number. A match on the letter: what is written are words, so that a table of functions would be no plainer.
fn write_named(tag: u8, number: u64, out: &mut Text)
    requires { out.old.end + event_phrase_room ≤ length out.old.bytes.now }
    ensures put { Put (event_phrase tag number) out.old out.new }
    ensures short { out.new.end ≤ out.old.end + event_phrase_room }
{
    match tag {
        b'H' => write_numbered(b"Hour", number, out),
        b'M' => write_numbered(b"Month end", number, out),
        b'Y' => write_numbered(b"Year end", number, out),
        _ => out.put(b"Rights file"),
    }
}

// Words, and a number behind them. Inline, so that each phrase is copied in pieces of a length that the compiler knows.
#[inline(always)]
fn write_numbered(words: &[u8], number: u64, out: &mut Text)
    requires { out.old.end + length words.now + field_room ≤ length out.old.bytes.now }
    ensures put { Put (words.now ++ field number) out.old out.new }
    ensures short { out.new.end ≤ out.old.end + length words.now + field_room }
{
    out.put(words);
    out.field(number);
}

// The refusal's number and its word.
fn write_told(refusal: u8, out: &mut Text)
    requires { out.old.end + refusal_phrase_room ≤ length out.old.bytes.now }
    ensures put { Put (refusal_phrase refusal) out.old out.new }
    ensures short { out.new.end ≤ out.old.end + refusal_phrase_room }
{
    write_numbered(b" is refused:", u64::from(refusal), out);
    out.put(b", ");
    out.put(word_of(refusal).as_bytes());
}

// The refusal's word from the table. Tried by `get`: a proof cannot name the table that its result comes from.
fn word_of(refusal: u8) -> &'static str
    ensures value { result.now ≡ word_of refusal }
    ensures short { length result.now ≤ word_room }
{
    let place = usize::from(refusal);
    if place < WORDS.len() {
        return WORDS[place];
    }
    NO_WORD
}

// The record, for the refusals that one record calls for.
fn write_record(refusal: u8, faulty: u64, out: &mut Text)
    requires { out.old.end + record_phrase_room ≤ length out.old.bytes.now }
    ensures put { Put (record_phrase refusal faulty) out.old out.new }
    ensures short { out.new.end ≤ out.old.end + record_phrase_room }
{
    if is_of_record(refusal) {
        write_numbered(b", record", faulty, out);
    }
}

fn is_of_record(refusal: u8) -> bool
    ensures { result ≡ is_of_record refusal }
{
    matches!(refusal, 7 | 8)
}
