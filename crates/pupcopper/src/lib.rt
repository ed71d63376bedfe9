// The library for hosts in C and Rust: its calls on numbers and lent slices. Every argument is allowed.
// C has no Result and knows none of our structs: a refusal is a number here, a book is three slices, and a text is a buffer and its end.
// Two calls of one shape are two names of the C interface: they share what they call. What stays in each is the report's length, the call and the
// two words given back; a function that is given the call and its words would take as many lines as it saves.

#![tactic(auto)]

ghost use Rattle.std.specs.Prelude.{◌≡◌, false, [], ◌∷◌, length};
ghost use Rattle.numbers.specs.Refusals.{answer_by};
ghost use Rattle.calendar.specs.Almanac.{days_in_year};
ghost use Rattle.calendar.specs.Year.{calendar_refusal, operating_hour, table_after, table_refusal};
ghost use Rattle.rights.specs.Layout.{reading, record_refusal};
ghost use Rattle.rights.specs.Writing.{file_after};
ghost use Rattle.rights.specs.Faults.{faulty_record};
ghost use Rattle.split.specs.Split.{left, limits_of, payments_after, split_refusal};
ghost use Rattle.target.specs.Rounding.{round_tenths};
ghost use Rattle.target.specs.Rows.{row_lines, rows_refusal};
ghost use Rattle.target.specs.Target.{target_lines, target_refusal};
ghost use Rattle.settlement.specs.Events.{hour_call, month_end_call, year_end_call};
ghost use Rattle.statement_text.specs.Buffer.{end_after, text_after};
ghost use Rattle.statement_text.specs.Sentence.{sentence, sentence_room};
ghost use Rattle.pupcopper.specs.Billing.{billing_class};
ghost use Rattle.pupcopper.specs.BookWords.{words_in};
ghost use Rattle.pupcopper.specs.Calls.{number_of, report_refusal, dated_refusal, hour_words, hour_report, table_words, right_in, right_words, right_report, step_words, step_report, step_refusal, outcome_words, allocation_words, open_refusal, words_opened, words_refusal, Settles};
ghost use Rattle.pupcopper.specs.RunCalls.{HostSteps, closed_words, closed_report, closing_run, closing_text, reported};

use book_words::{BookWords, LentBook};
use numbers::Refusal;
use rights::Reader;
use settlement::Book;
use split::Limits;

mod book_words;
mod reports;
mod runs;

// ---- numbers only, for the billing host

// An hour number of a year to twice its month, plus 1 in a peak hour; 255 for an hour that the year has not, and for no such year.
#[unsafe(no_mangle)]
#[tactic(auto, using(crate::proofs::Class::class_laws))]
pub extern "C" fn pupcopper_class(year: u64, hour: u64) -> u8
    ensures { result ≡ billing_class year hour }
{
    match calendar::operating_hour(year, hour) {
        Ok(found) => 2 * found.month + u8::from(found.peak),
        Err(_) => 255,
    }
}

// Tenths of a cent to cents, halves away from zero.
#[unsafe(no_mangle)]
pub extern "C" fn pupcopper_cents(tenths: i64) -> i64
    ensures { result ≡ round_tenths tenths }
{
    target::round_tenths(tenths)
}

// ---- calls without a book: a report, or a right, of another number of words is 4 before all else but 15, and then nothing is written

// The calendar call. The report gets the day, the month, and 1 in a peak hour.
#[unsafe(no_mangle)]
#[tactic(auto, using(crate::proofs::ReportWords::handed_on))]
pub extern "C" fn pupcopper_calendar(year: u64, hour: u64, report: &mut [u64]) -> u8
    ensures value { result ≡ number_of (dated_refusal year hour_words (length report.old)) (calendar_refusal year hour) }
    ensures report_after { report.new ≡ answer_by (report_refusal hour_words (length report.old)) (hour_report (operating_hour year hour)) report.old }
{
    if report.len() != reports::HOUR_WORDS {
        return reports::wrong_length(year);
    }
    let outcome = calendar::operating_hour(year, hour);
    report.copy_from_slice(&outcome.map_or([0; reports::HOUR_WORDS], reports::of_hour));
    reports::number_of(outcome)
}

// The day table of a year. The report gets the number of its days.
#[unsafe(no_mangle)]
#[tactic(auto, using(crate::proofs::ReportWords::handed_on))]
pub extern "C" fn pupcopper_days(year: u64, table: &mut [u8], report: &mut [u64]) -> u8
    ensures value { result ≡ number_of (dated_refusal year table_words (length report.old)) (table_refusal year (length table.old)) }
    ensures table_after { table.new ≡ answer_by (report_refusal table_words (length report.old)) (table_after year table.old) table.old }
    ensures report_after { report.new ≡ answer_by (report_refusal table_words (length report.old)) (answer_by (table_refusal year (length table.old)) (days_in_year year) 0 ∷ []) report.old }
{
    if report.len() != reports::TABLE_WORDS {
        return reports::wrong_length(year);
    }
    let outcome = calendar::day_table(year, table);
    report[0] = outcome.unwrap_or(0);
    reports::number_of(outcome)
}

// The read by record number. The report gets the eight fields.
#[unsafe(no_mangle)]
#[tactic(auto, using(crate::proofs::ReportWords::handed_on))]
pub extern "C" fn pupcopper_read(year: u64, rights: &[u8], number: u64, report: &mut [u64]) -> u8
    ensures value { result ≡ number_of (dated_refusal year right_words (length report.old)) (reading year rights.now number).refusal }
    ensures report_after { report.new ≡ answer_by (report_refusal right_words (length report.old)) (right_report (reading year rights.now number).right) report.old }
{
    if report.len() != reports::RIGHT_WORDS {
        return reports::wrong_length(year);
    }
    let outcome = rights::read(year, rights, number);
    report.copy_from_slice(&outcome.map_or([0; reports::RIGHT_WORDS], reports::of_right));
    reports::number_of(outcome)
}

// The write by record number. It is lent the right as the words of a read's report.
#[unsafe(no_mangle)]
#[tactic(auto, using(crate::proofs::ReportWords::handed_on))]
pub extern "C" fn pupcopper_write(year: u64, rights: &mut [u8], number: u64, right: &[u64]) -> u8
    ensures value { result ≡ number_of (dated_refusal year right_words (length right.now)) (record_refusal year rights.old number (right_in right.now)) }
    ensures rights_after { rights.new ≡ answer_by (report_refusal right_words (length right.now)) (file_after year rights.old number (right_in right.now)) rights.old }
{
    if right.len() != reports::RIGHT_WORDS {
        return reports::wrong_length(year);
    }
    let outcome = rights::write(year, rights, number, reports::right_of(right));
    reports::number_of(outcome)
}

// A reader's step from a record number. The report gets the eight fields, the number to go on with, and 1 if no record is left.
#[unsafe(no_mangle)]
#[tactic(auto, using(crate::proofs::ReportWords::handed_on))]
pub extern "C" fn pupcopper_next(year: u64, rights: &[u8], next: u64, report: &mut [u64]) -> u8
    ensures value { result ≡ number_of (dated_refusal year step_words (length report.old)) (step_refusal year rights.now next) }
    ensures report_after { report.new ≡ answer_by (report_refusal step_words (length report.old)) (step_report year rights.now next) report.old }
{
    if report.len() != reports::STEP_WORDS {
        return reports::wrong_length(year);
    }
    let mut reader = Reader {
        year,
        file: rights,
        next,
    };
    let given = reader.next();
    report.copy_from_slice(&reports::of_step(given, reader.next));
    given.map_or(0, reports::number_of)
}

// The target call. The report gets the record number of 7 and 8.
#[unsafe(no_mangle)]
#[tactic(auto, using(crate::proofs::ReportWords::handed_on))]
pub extern "C" fn pupcopper_targets(
    year: u64,
    rights: &[u8],
    prices: &[i32],
    hour: u64,
    lines: &mut [i64],
    report: &mut [u64],
) -> u8
    ensures value { result ≡ number_of (dated_refusal year outcome_words (length report.old)) (target_refusal year rights.now prices.now hour (length lines.old)) }
    ensures lines_after { lines.new ≡ answer_by (report_refusal outcome_words (length report.old)) (target_lines year rights.now prices.now hour lines.old) lines.old }
    ensures report_after { report.new ≡ answer_by (report_refusal outcome_words (length report.old)) (faulty_record year (length prices.now) rights.now (target_refusal year rights.now prices.now hour (length lines.old)) ∷ []) report.old }
{
    if report.len() != reports::OUTCOME_WORDS {
        return reports::wrong_length(year);
    }
    let outcome = target::targets(year, rights, prices, hour, lines);
    report[0] = reports::record_of(outcome);
    reports::number_of(outcome)
}

// The row call. The report is that of the target call.
#[unsafe(no_mangle)]
#[tactic(auto, using(crate::proofs::ReportWords::handed_on))]
pub extern "C" fn pupcopper_rows(
    year: u64,
    rights: &[u8],
    prices: &[i32],
    hour: u64,
    lines: &mut [i64],
    report: &mut [u64],
) -> u8
    ensures value { result ≡ number_of (dated_refusal year outcome_words (length report.old)) (rows_refusal year rights.now prices.now hour (length lines.old)) }
    ensures lines_after { lines.new ≡ answer_by (report_refusal outcome_words (length report.old)) (row_lines year rights.now prices.now hour lines.old) lines.old }
    ensures report_after { report.new ≡ answer_by (report_refusal outcome_words (length report.old)) (faulty_record year (length prices.now) rights.now (rows_refusal year rights.now prices.now hour (length lines.old)) ∷ []) report.old }
{
    if report.len() != reports::OUTCOME_WORDS {
        return reports::wrong_length(year);
    }
    let outcome = target::rows(year, rights, prices, hour, lines);
    report[0] = reports::record_of(outcome);
    reports::number_of(outcome)
}

// The split call, with its caller's limits. The report gets what is left of the fund.
#[unsafe(no_mangle)]
#[tactic(auto, using(crate::proofs::ReportWords::handed_on))]
pub extern "C" fn pupcopper_split(
    owners: usize,
    total: u64,
    fund: u64,
    wants: &[u64],
    payments: &mut [u64],
    report: &mut [u64],
) -> u8
    ensures value { result ≡ number_of (report_refusal allocation_words (length report.old)) (split_refusal (limits_of owners total) wants.now (length payments.old)) }
    ensures payments_after { payments.new ≡ answer_by (report_refusal allocation_words (length report.old)) (payments_after (limits_of owners total) fund wants.now payments.old) payments.old }
    ensures report_after { report.new ≡ answer_by (report_refusal allocation_words (length report.old)) (answer_by (split_refusal (limits_of owners total) wants.now (length payments.old)) (left fund wants.now) 0 ∷ []) report.old }
{
    if report.len() != reports::ALLOCATION_WORDS {
        return Refusal::WrongLength.number();
    }
    let outcome = split::split(Limits { owners, total }, fund, wants, payments);
    report[0] = outcome.unwrap_or(0);
    reports::number_of(outcome)
}

// ---- the book, as three lent slices: its counts, mark and year, its shortfalls, its balances

// Writes the fresh book of a year, or a book all 0 where there is no such year.
#[unsafe(no_mangle)]
#[tactic(auto, using(crate::proofs::WordRows::open_laws))]
pub extern "C" fn pupcopper_open(
    year: u64,
    counts: &mut [u64],
    shortfalls: &mut [u64],
    balances: &mut [i64],
) -> u8
    ensures value { result ≡ open_refusal year (words_in counts.old shortfalls.old balances.old) }
    ensures words_after { words_in counts.new shortfalls.new balances.new ≡ words_opened year (words_in counts.old shortfalls.old balances.old) }
{
    let mut lent = LentBook {
        counts,
        shortfalls,
        balances,
    };
    if lent.words().is_no_book() {
        return reports::wrong_length(year);
    }
    let opened = Book::open(year);
    lent.write(opened.book);
    reports::number_of(opened.outcome)
}

// Settles the next hour. The report gets the record number of 7 and 8, F and D.
#[unsafe(no_mangle)]
pub extern "C" fn pupcopper_hour(
    counts: &mut [u64],
    shortfalls: &mut [u64],
    balances: &mut [i64],
    rights: &[u8],
    prices: &[i32],
    collected: i64,
    lines: &mut [i64],
    report: &mut [i64],
) -> u8
    ensures { Settles (hour_call rights.now prices.now collected) (words_in counts.old shortfalls.old balances.old) report.old lines.old result (words_in counts.new shortfalls.new balances.new) report.new lines.new }
{
    let mut lent = LentBook {
        counts,
        shortfalls,
        balances,
    };
    lent.settle(
        |book, lines| book.hour(rights, prices, collected, lines),
        lines,
        report,
    )
}

// Closes the month.
#[unsafe(no_mangle)]
pub extern "C" fn pupcopper_month_end(
    counts: &mut [u64],
    shortfalls: &mut [u64],
    balances: &mut [i64],
    lines: &mut [i64],
    report: &mut [i64],
) -> u8
    ensures { Settles month_end_call (words_in counts.old shortfalls.old balances.old) report.old lines.old result (words_in counts.new shortfalls.new balances.new) report.new lines.new }
{
    let mut lent = LentBook {
        counts,
        shortfalls,
        balances,
    };
    lent.settle(Book::month_end, lines, report)
}

// Ends the year.
#[unsafe(no_mangle)]
pub extern "C" fn pupcopper_year_end(
    counts: &mut [u64],
    shortfalls: &mut [u64],
    balances: &mut [i64],
    lines: &mut [i64],
    report: &mut [i64],
) -> u8
    ensures { Settles year_end_call (words_in counts.old shortfalls.old balances.old) report.old lines.old result (words_in counts.new shortfalls.new balances.new) report.new lines.new }
{
    let mut lent = LentBook {
        counts,
        shortfalls,
        balances,
    };
    lent.settle(Book::year_end, lines, report)
}

// ---- a run as the program makes it: a step for each block, then the closing

// One block of the program's input: the hour, and the month end and the year end where they are due. Their lines are appended to the
// text behind its end.
#[unsafe(no_mangle)]
#[tactic(auto, using(crate::proofs::RunWords::step_laws))]
pub extern "C" fn pupcopper_step(
    counts: &mut [u64],
    shortfalls: &mut [u64],
    balances: &mut [i64],
    rights: &[u8],
    block: &[u8],
    text: &mut [u8],
    end: usize,
    report: &mut [u64],
) -> u8
    ensures { HostSteps rights.now block.now (words_in counts.old shortfalls.old balances.old) text.old end report.old result (words_in counts.new shortfalls.new balances.new) text.new report.new }
{
    let mut lent = LentBook {
        counts,
        shortfalls,
        balances,
    };
    // This match stands in `pupcopper_closing` and in `LentBook::settle` too: each has other words to write, so that a shared function is no plainer.
    match lent.words().book(true, report.len(), runs::STEPPED_WORDS) {
        Ok(book) => {
            let run = runs::run_from(book, 0, end);
            let next = settlement_run::step(run, rights, block, text);
            lent.write(next.book);
            reports::write(runs::of_step(next), report);
            next.refusal
        }
        Err(refusal) => {
            reports::write(runs::of_step(runs::unmoved(end)), report);
            refusal.number()
        }
    }
}

// What comes after the last block: both balances, or the refusal that stopped the run.
#[unsafe(no_mangle)]
#[tactic(auto, using(crate::proofs::WordRows::refused_number))]
pub extern "C" fn pupcopper_closing(
    counts: &[u64],
    shortfalls: &[u64],
    balances: &[i64],
    refusal: u8,
    text: &mut [u8],
    end: usize,
    report: &mut [u64],
) -> u8
    ensures value { result ≡ words_refusal false closed_words (words_in counts.now shortfalls.now balances.now) (length report.old) }
    ensures text_after { text.new ≡ closing_text (words_in counts.now shortfalls.now balances.now) refusal text.old end (length report.old) }
    ensures report_after { report.new ≡ reported closed_words report.old (closed_report (closing_run (words_in counts.now shortfalls.now balances.now) refusal text.old end (length report.old))) }
{
    let words = BookWords {
        counts,
        shortfalls,
        balances,
    };
    match words.book(false, report.len(), runs::CLOSED_WORDS) {
        Ok(book) => {
            let closed = settlement_run::closing(runs::run_from(book, refusal, end), text);
            reports::write(runs::of_closing(closed), report);
            0
        }
        Err(refused) => {
            reports::write(runs::of_closing(runs::unmoved(end)), report);
            refused.number()
        }
    }
}

// The sentence on a refusal, behind a place of the text. Gives the place behind it.
#[unsafe(no_mangle)]
pub extern "C" fn pupcopper_sentence(
    letter: u8,
    number: u64,
    refusal: u8,
    faulty: u64,
    text: &mut [u8],
    at: usize,
) -> usize
    ensures value { result ≡ end_after sentence_room (sentence letter number refusal faulty) text.old at }
    ensures text_after { text.new ≡ text_after sentence_room (sentence letter number refusal faulty) text.old at }
{
    statement_text::write_sentence(letter, number, refusal, faulty, text, at)
}
