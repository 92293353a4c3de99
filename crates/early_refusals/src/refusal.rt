// Why a call is turned down, each by its number in the reference; 19 is the listing program's alone.
ghost use Rattle.std.specs.Prelude.{◌≡◌};
ghost use Rattle.early_refusals.specs.Refusal.{number_of};

// The reasons, by their numbers: sizes, tables, a batch, room, a question, limits, a window.
#[derive(Clone, Copy, Debug, PartialEq, Eq)]
pub enum Refusal {
    // m, n, F or C is outside its range.
    Rows = 1,
    Ids = 2,
    Records = 3,
    Booked = 4,
    // A table or list that is needed is too short.
    Short = 5,
    // The tables are not sound, or the limits of the grades are not.
    Unsound = 6,
    // Too few or too many columns or rows named, or lists out of step.
    Shape = 7,
    IdOutside = 8,
    IdRepeated = 9,
    IdBooked = 10,
    IdNotBooked = 11,
    // A count is outside its range, or there are fewer or more rows than the counts say.
    Count = 12,
    RowOutside = 13,
    // A row is not above the row before.
    RowOrder = 14,
    BookFull = 15,
    FactorFull = 16,
    // A row or column asked about is outside 1 to m.
    AskedOutside = 17,
    // The list ends before the answer does.
    ListEnds = 18,
    // A limit of an opening's grades is below 2 or not above the limit before.
    Limits = 20,
    // A window ends no later than it begins, and is not 0 and 0.
    Window = 21,
}

impl Refusal {
    // Its number.
    pub fn number(self) -> u32
        ensures { result ≡ number_of self }
    {
        self as u32
    }
}
