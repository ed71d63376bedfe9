// The book as three lent slices: its counts and mark, its shortfalls by owner, its balances.
ghost use Rattle.std.specs.Prelude.{◌^◌, ◌<◌, ◌≡◌, false, cond, List, ℤ, length};
ghost use Rattle.numbers.specs.Refusals.{answer_by, answered};
ghost use Rattle.settlement.specs.ByOwner.{in_numbers, AnsweredByOwner};
ghost use Rattle.settlement.specs.Events.{Call};
ghost use Rattle.std.specs.Borrow.{MutBor};
ghost use Rattle.pupcopper.specs.BookWords.{words_of, kept_from, is_wrong_count};
ghost use Rattle.pupcopper.specs.Calls.{is_wrong_report, settled_report, settled_words, words_refusal, Settles};
ghost use Rattle.pupcopper.specs.InnerContracts.{bytes_lent, words_read, words_lent, SameSlices, ResultFits};

use crate::reports;
use numbers::Refusal;
use settlement::{Book, CELLS, Settled};

// The words of counts and of balances: hours, months, mark and year; the month's and the year's. The shortfalls are the book's cells.
const COUNT_WORDS: usize = 4;

const BALANCE_WORDS: usize = 2;

// A book's words, to read.
#[derive(Clone, Copy)]
pub(crate) struct BookWords<'a> {
    pub(crate) counts: &'a [u64],
    pub(crate) shortfalls: &'a [u64],
    pub(crate) balances: &'a [i64],
}

impl BookWords<'_> {
    // Whether so many words can be no book.
    pub(crate) fn is_no_book(&self) -> bool
        ensures { result ≡ is_wrong_count (words_read self.now) }
    {
        !((self.counts.len() == COUNT_WORDS)
            & (self.shortfalls.len() == CELLS)
            & (self.balances.len() == BALANCE_WORDS))
    }

    // The book that the words stand for, or what they and a report that should have so many places call for before there is one: 4, 15 or
    // 1. `dated` is whether the call knows the calendar, so that it looks at the year.
    #[tactic(auto, using(crate::proofs::WordRows::rows), unfolding(crate::specs::BookWords::kept_from))]
    pub(crate) fn book(&self, dated: bool, report: usize, places: usize) -> Result<Book, Refusal>
        ensures { result ≡ answered (words_refusal dated places (words_read self.now) report) 0 (kept_from (words_read self.now)) }
    {
        if self.counts.len() != COUNT_WORDS {
            return Err(Refusal::WrongLength);
        }
        if dated & calendar::is_outside(self.counts[3]) {
            return Err(Refusal::NoSuchYear);
        }
        if self.is_no_book() {
            return Err(Refusal::WrongLength);
        }
        if report != places {
            return Err(Refusal::WrongLength);
        }
        if self.counts[2] > 1 {
            return Err(Refusal::SpoiledBook);
        }
        let mut shortfalls = [0; CELLS];
        shortfalls.copy_from_slice(self.shortfalls);
        Ok(Book {
            year: self.counts[3],
            hours: self.counts[0],
            months: self.counts[1],
            ended: self.counts[2] == 1,
            shortfalls,
            monthbalance: self.balances[0],
            yearbalance: self.balances[1],
        })
    }
}

// A book's words as a host lends them, to read and to write. Beside `BookWords`: the language has no one type for both, and `words` leads from
// the one to the other. Three methods promise `same_slices`: it is about the value before and the value after, so that no field can hold it.
#[derive(Drop)]
pub(crate) struct LentBook<'a> {
    pub(crate) counts: &'a mut [u64],
    pub(crate) shortfalls: &'a mut [u64],
    pub(crate) balances: &'a mut [i64],
}

impl LentBook<'_> {
    // The words as they stand.
    pub(crate) fn words(&self) -> BookWords<'_>
        ensures { words_read result ≡ words_lent self.now }
    {
        BookWords {
            counts: self.counts,
            shortfalls: self.shortfalls,
            balances: self.balances,
        }
    }

    // Writes a book's words.
    #[tactic(auto, unfolding(crate::specs::BookWords::counts_of, crate::specs::BookWords::balances_of))]
    pub(crate) fn write(&mut self, book: Book)
        requires { is_wrong_count (words_lent self.old) ≡ false }
        ensures words_after { words_lent self.new ≡ words_of book }
        ensures same_slices { SameSlices self.old self.new }
    {
        self.counts.copy_from_slice(&[book.hours, book.months, u64::from(book.ended), book.year]);
        self.shortfalls.copy_from_slice(&book.shortfalls);
        self.balances
            .copy_from_slice(&[book.monthbalance, book.yearbalance]);
    }

    // Settles an event of the book that the words stand for, or refuses the words. A refusal is a number here: the C interface.
    #[tactic(auto, using(crate::proofs::WordRows::given_book, crate::proofs::WordRows::words_clear))]
    pub(crate) fn settle<F: FnOnce(Book, &mut [i64]) -> Settled>(
        &mut self,
        event: F,
        lines: &mut [i64],
        report: &mut [i64],
    ) -> u8
        ghost call: { Call }
        requires callable { F.IsAlwaysCallable event }
        requires performs { (before after : MutBor (List ℤ)) (settled : Settled) → before.now ≡ lines.old → F.post event (kept_from (words_lent self.old)) before settled after → AnsweredByOwner call (kept_from (words_lent self.old)) lines.old settled.outcome settled.book after.now }
        requires few { bytes_lent call < 2 ^ 63 }
        ensures settles { Settles call (words_lent self.old) report.old lines.old result (words_lent self.new) report.new lines.new }
        ensures same_slices { SameSlices self.old self.new }
    {
        match self
            .words()
            .book(true, report.len(), reports::SETTLED_WORDS)
        {
            Ok(book) => {
                let settled = event(book, lines);
                self.give_back(settled, report)
            }
            Err(refusal) => {
                reports::write([0; reports::SETTLED_WORDS], report);
                refusal.number()
            }
        }
    }

    // Gives an event's result to the host: its number, its report, and, where it is accepted, the words of the book after it.
    // The number and not the refusal, since C has no Result: the C interface.
    pub(crate) fn give_back(&mut self, settled: Settled, report: &mut [i64]) -> u8
        requires right_count { is_wrong_count (words_lent self.old) ≡ false }
        requires amounts_fit { ResultFits (in_numbers settled) }
        ensures value { result ≡ (in_numbers settled).refusal }
        ensures report_after { report.new ≡ cond (is_wrong_report settled_words (length report.old)) report.old (settled_report (in_numbers settled).faulty (in_numbers settled).fund (in_numbers settled).demand) }
        ensures words_after { words_lent self.new ≡ answer_by result (words_of settled.book) (words_lent self.old) }
        ensures same_slices { SameSlices self.old self.new }
    {
        match settled.outcome {
            Ok(funding) => {
                let words = reports::of_event(0, funding.fund, funding.demand);
                reports::write(words, report);
                self.write(settled.book);
                0
            }
            Err(refusal) => {
                reports::write(reports::of_event(refusal.record(), 0, 0), report);
                refusal.number()
            }
        }
    }
}
