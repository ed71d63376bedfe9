// A run of the program: a block of input to the text that it prints, and what comes before the first block and after the last.

#![tactic(auto)]

ghost use Rattle.std.specs.Prelude.{◌≡◌, is_some, option_map, unwrap_or};
ghost use Rattle.numbers.specs.Refusals.{number_in};
ghost use Rattle.statement_text.specs.Buffer.{end_after, text_after};
ghost use Rattle.statement_text.specs.Sentence.{sentence_room};
ghost use Rattle.statement_text.specs.Text.{line_room};
ghost use Rattle.settlement_run.specs.Calls.{begun_over, closed, last_text, standing, stepped_run, stepped_text};
ghost use Rattle.settlement_run.specs.Run.{explanation, opening_refusal};

use numbers::Refusal;
use settlement::{Book, End};
use statement_text::{LINE_ROOM, has_room};

mod events;

// The year that the program settles, by the one in which its June stands.
pub const PROGRAM_YEAR: u64 = 2025;

// The room that a step asks for behind the end of the text: an hour's lines, a month end's and a year end's.
pub const STEP_ROOM: usize = 3 * statement_text::EVENT_ROOM;

// Where a run stands: whether the last call found too little room in the lent buffer, and the end of the text there; the refusal that
// stopped the run or 0, with the refused event's letter and number and the record of 7 and 8; the book.
// Numbers and a flag, for the C interface: its fields are public, a host's run has any refusal number, and `step`, `closing` and `explain`
// promise a result for each. The text is lent from call to call, so that the run holds the place in it alone. Rights and block, or text, go with it
// through a step's parts, once each: a struct made for that is no plainer.
#[derive(Clone, Copy)]
pub struct Run {
    pub full: bool,
    pub end: usize,
    pub refusal: u8,
    pub tag: u8,
    pub number: u64,
    pub faulty: u64,
    pub book: Book,
}

// The run before the first block, over a rights file of so many bytes, if it can be read. All fields by hand, as in the run of a host's book, which
// takes any refusal number: a function for both is no plainer.
#[tactic(auto, using(crate::proofs::Begun::program_book), unfolding(crate::specs::Run::opening))]
pub fn opening(file: Option<usize>) -> Run
    ensures { result ≡ begun_over file }
{
    Run {
        full: false,
        end: 0,
        refusal: opening_refusal(file).map_or(0, Refusal::number),
        tag: 0,
        number: 0,
        faulty: 0,
        book: Book::open(PROGRAM_YEAR).book,
    }
}

// Why the run stops before it begins, if it does.
#[tactic(auto, unfolding(crate::specs::Run::opening_refusal, numbers::specs::Refusals::first_refusal))]
fn opening_refusal(file: Option<usize>) -> Option<Refusal>
    ensures { unwrap_or (option_map number_in result) 0 ≡ opening_refusal (is_some file) (unwrap_or file 0) }
{
    match file {
        Some(bytes) if bytes <= rights::FILE_BYTES => None,
        _ => Some(Refusal::WrongLength),
    }
}

// One block: the hour, and the month end and the year end where they are due. Appends their lines; a run that has stopped stays as it is.
pub fn step(mut run: Run, rights: &[u8], block: &[u8], text: &mut [u8]) -> Run
    ensures value { result ≡ stepped_run rights.now block.now run text.old }
    ensures text_after { text.new ≡ stepped_text rights.now block.now run text.old }
{
    run.full = !has_room(text.len(), run.end, STEP_ROOM);
    if run.full {
        return run;
    }
    if run.refusal != 0 {
        return run;
    }
    run.settle_hour(rights, block, text);
    run.close_if_due(End::Month, text);
    run.close_if_due(End::Year, text);
    run
}

// The last line: both balances, with their sign, or the refusal that stopped the run.
#[tactic(auto, using(crate::proofs::Stepping::lacks_said, numbers::proofs::Refusals::answer_refused, settlement::proofs::ByOwner::laid_back), unfolding(crate::specs::Run::last_line))]
pub fn closing(mut run: Run, text: &mut [u8]) -> Run
    ensures value { result ≡ closed run text.old }
    ensures text_after { text.new ≡ text_after line_room (last_text run) text.old run.end }
{
    run.full = !has_room(text.len(), run.end, LINE_ROOM);
    let at = run.end;
    let refusal = run.refusal;
    if refusal != 0 {
        run.end = statement_text::write_refusal(refusal, text, at);
        return run;
    }
    let book = run.book;
    run.end = statement_text::write_fund(book.monthbalance, book.yearbalance, text, at);
    run
}

// One sentence on the refusal that stopped the run, from the buffer's start; nothing for a run that goes on. Gives the place behind it.
pub fn explain(run: Run, text: &mut [u8]) -> usize
    ensures value { result ≡ end_after sentence_room (explanation (standing run)) text.old 0 }
    ensures text_after { text.new ≡ text_after sentence_room (explanation (standing run)) text.old 0 }
{
    statement_text::write_sentence(run.tag, run.number, run.refusal, run.faulty, text, 0)
}
