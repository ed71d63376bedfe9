// The book after an event, from what the event leaves unpaid and what it leaves of its fund.
ghost use Rattle.std.specs.Prelude.{ℕ, ◌+◌, ◌^◌, ◌<◌, ◌≡◌, ◌+ℤ◌, FitsSigned, get_or};
ghost use Rattle.std.specs.Int.{w64};
ghost use Rattle.settlement.specs.ByOwner.{cells_from, laid_out, read_off};
ghost use Rattle.settlement.specs.Events.{added_to, book_after_hour, book_after_month, book_after_year};

use crate::{Book, cells};
use numbers::OWNERS;

impl Book {
    // One hour more: its unpaid wants on the month cells, and what it leaves.
    pub(crate) fn after_hour(&mut self, unpaid: &[u64; OWNERS], left: i64)
        requires counted { (self.old.hours + 1 < 2 ^ 64) × FitsSigned w64 (self.old.monthbalance +ℤ left) }
        requires room { (i : ℕ) → get_or (cells_from self.old.shortfalls 0) i 0 + get_or unpaid.now i 0 < 2 ^ 64 }
        ensures { self.new ≡ laid_out (book_after_hour (read_off self.old) (added_to (cells_from self.old.shortfalls 0) unpaid.now) left) }
    {
        self.hours += 1;
        cells::add(&mut self.shortfalls, 0, unpaid);
        self.monthbalance += left;
    }

    // One month more: its unpaid wants in the year cells, what it leaves in the year balance, and no month cells.
    pub(crate) fn after_month(&mut self, unpaid: &[u64; OWNERS], left: i64)
        requires counted { (self.old.months + 1 < 2 ^ 64) × FitsSigned w64 (self.old.yearbalance +ℤ left) }
        requires room { (i : ℕ) → get_or (cells_from self.old.shortfalls 1) i 0 + get_or unpaid.now i 0 < 2 ^ 64 }
        ensures { self.new ≡ laid_out (book_after_month (read_off self.old) (added_to (cells_from self.old.shortfalls 1) unpaid.now) left) }
    {
        self.months += 1;
        cells::add(&mut self.shortfalls, 1, unpaid);
        self.shortfalls = cells::by_owner(&[0; OWNERS], &cells::cells_from(&self.shortfalls, 1));
        self.yearbalance += left;
        self.monthbalance = 0;
    }

    // The year is ended: its unpaid wants and what it leaves stay.
    pub(crate) fn after_year(&mut self, unpaid: &[u64; OWNERS], left: i64)
        ensures { self.new ≡ laid_out (book_after_year (read_off self.old) unpaid.now left) }
    {
        self.ended = true;
        self.shortfalls = cells::by_owner(&cells::cells_from(&self.shortfalls, 0), unpaid);
        self.yearbalance = left;
    }
}
