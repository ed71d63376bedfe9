// A run from a host's book, and the words that say where it then stands.
ghost use Rattle.std.specs.Prelude.{◌≡◌};
ghost use Rattle.settlement.specs.Book.{opened};
ghost use Rattle.settlement.specs.ByOwner.{read_off};
ghost use Rattle.pupcopper.specs.RunCalls.{run_of, stepped_report, closed_report};

use settlement::Book;
use settlement_run::Run;

// The words of each report: whether there was too little room, the end of the text, the refused event's letter and number, and the
// record number; the first two of those.
pub(crate) const STEPPED_WORDS: usize = 5;

pub(crate) const CLOSED_WORDS: usize = 2;

// The run that stands at a book, stopped by a refusal or by none; its own fields by hand, as in `opening`, since a run of any refusal is a
// host's alone. The refusal is a number, and may be any: the C interface.
#[tactic(auto, using(settlement::proofs::ByOwner::laid_back))]
pub(crate) fn run_from(book: Book, refusal: u8, end: usize) -> Run
    ensures { result ≡ run_of (read_off book) refusal end }
{
    Run {
        full: false,
        end,
        refusal,
        tag: 0,
        number: 0,
        faulty: 0,
        book,
    }
}

// A run that did not move, for a report, which does not show the book.
#[tactic(auto, using(settlement::proofs::ByOwner::opened_back))]
pub(crate) fn unmoved(end: usize) -> Run
    ensures { result ≡ run_of (opened 0) 0 end }
{
    run_from(Book::open(0).book, 0, end)
}

// Where a step left the run.
pub(crate) fn of_step(run: Run) -> [u64; STEPPED_WORDS]
    ensures { result ≡ stepped_report run }
{
    [
        u64::from(run.full),
        // There is no From between usize and 64 bits.
        run.end as u64,
        u64::from(run.tag),
        run.number,
        run.faulty,
    ]
}

// Where the closing left it.
pub(crate) fn of_closing(run: Run) -> [u64; CLOSED_WORDS]
    ensures { result ≡ closed_report run }
{
    // There is no From between usize and 64 bits.
    [u64::from(run.full), run.end as u64]
}
