// The cells of all owners: read off, laid out by owner, what stays unpaid and what is added.
ghost use Rattle.std.specs.Prelude.{ℕ, ◌+◌, ◌-◌, ◌^◌, ◌<◌, ◌≤◌, ◌≡◌, get_or};
ghost use Rattle.settlement.specs.ByOwner.{by_owner, cell_at, cell_count, cells_from};
ghost use Rattle.settlement.specs.Events.{added_to, unpaid_of};

use crate::CELLS;
use numbers::OWNERS;
use std::array;

// Every second cell from a place on: the month's from 0, the year's from 1.
pub(crate) fn cells_from(shortfalls: &[u64; CELLS], start: usize) -> [u64; OWNERS]
    requires { start < 2 }
    ensures { result ≡ cells_from shortfalls.now start }
{
    array::from_fn(|owner| shortfalls[2 * owner + start])
}

// Each owner's month cell and, in the next place, its year cell.
pub(crate) fn by_owner(month: &[u64; OWNERS], year: &[u64; OWNERS]) -> [u64; CELLS]
    ensures { result ≡ by_owner month.now year.now }
{
    array::from_fn(|place| cell_at(month, year, place))
}

// An even place is a month cell's, the next one the year cell's of the same owner.
fn cell_at(month: &[u64; OWNERS], year: &[u64; OWNERS], place: usize) -> u64
    requires { place < cell_count }
    ensures { result ≡ cell_at month.now year.now place }
{
    if place % 2 == 0 {
        return month[place / 2];
    }
    year[place / 2]
}

// What is unpaid of each want.
pub(crate) fn unpaid_of(wants: &[u64; OWNERS], payments: &[u64; OWNERS]) -> [u64; OWNERS]
    requires { (i : ℕ) → get_or payments.now i 0 ≤ get_or wants.now i 0 }
    ensures { result ≡ unpaid_of wants.now payments.now }
{
    array::from_fn(|owner| wants[owner] - payments[owner])
}

// Adds what is unpaid to every second cell from a place on, in place: tried by way of the cells read off and laid out again, an hour with no
// rights took 15 in 100 more instructions than with two arrays.
pub(crate) fn add(shortfalls: &mut [u64; CELLS], start: usize, unpaid: &[u64; OWNERS])
    requires one_of_two { start < 2 }
    requires room { (i : ℕ) → get_or (cells_from shortfalls.old start) i 0 + get_or unpaid.now i 0 < 2 ^ 64 }
    ensures added { cells_from shortfalls.new start ≡ added_to (cells_from shortfalls.old start) unpaid.now }
    ensures others_stay { cells_from shortfalls.new (1 - start) ≡ cells_from shortfalls.old (1 - start) }
{
    for owner in 0..OWNERS {
        shortfalls[2 * owner + start] += unpaid[owner];
    }
}
