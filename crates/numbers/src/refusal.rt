// The refusals of all calls, by the words of the table.
ghost use Rattle.std.specs.Prelude.{◌≡◌};

// Why a call is refused, in the order of the numbers, which the derived comparison follows. A bad right and an unpriced node name the record
// that has the fault.
#[derive(Clone, Copy, Debug, PartialEq, Eq, PartialOrd, Ord)]
pub enum Refusal {
    SpoiledBook,
    YearOver,
    OutOfTurn,
    WrongLength,
    WildPrice,
    WildAmount,
    BadRight(u64),
    UnpricedNode(u64),
    HourTooLarge,
    CarryFull,
    WantTooLarge,
    NoSuchYear,
    TooManyWants,
    TotalTooLarge,
}

impl Refusal {
    ghost use Rattle.numbers.specs.Refusals.{number_in, record_in};

    // The refusal's number in the table. By hand, since the language gives no number of a variant that holds a record.
    pub fn number(self) -> u8
        ensures { result ≡ number_in self }
    {
        match self {
            Refusal::SpoiledBook => 1,
            Refusal::YearOver => 2,
            Refusal::OutOfTurn => 3,
            Refusal::WrongLength => 4,
            Refusal::WildPrice => 5,
            Refusal::WildAmount => 6,
            Refusal::BadRight(_) => 7,
            Refusal::UnpricedNode(_) => 8,
            Refusal::HourTooLarge => 9,
            Refusal::CarryFull => 10,
            Refusal::WantTooLarge => 11,
            Refusal::NoSuchYear => 15,
            Refusal::TooManyWants => 16,
            Refusal::TotalTooLarge => 17,
        }
    }

    // The record that it names, or 0, which the papers write where none is named.
    pub fn record(self) -> u64
        ensures { result ≡ record_in self }
    {
        match self {
            Refusal::BadRight(record) | Refusal::UnpricedNode(record) => record,
            _ => 0,
        }
    }
}
