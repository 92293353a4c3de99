// The numbers that a question is refused by: 7 and 17 for the rows it names, 18 for its list.
#![tactic(auto)]

ghost use Rattle.std.specs.Prelude.{◌≡◌, not};
ghost use Rattle.std.specs.List.{list_any};
ghost use Rattle.lists.specs.Lists.{is_in};
ghost use Rattle.calls.specs.Refusals.{is_accepted, row_refusal, named_refusal};
ghost use Rattle.early_refusals.specs.Refusal.{number_in};
ghost use Rattle.question_refusals.specs.Room.{NoRoom};

use early_refusals::Refusal;

// Whether a row or column is outside 1 to m.
pub fn row_outside(m: u32, row: u32) -> bool
    ensures { result ≡ not (is_accepted (row_refusal m row)) }
{
    early_refusals::outside(1, m, row)
}

// Whether a list of len places ends before an answer of so many places, from a given one on, does.
pub fn room_outside(len: usize, place: usize, places: usize) -> bool
    ensures { NoRoom len place places result }
{
    len < place || len - place < places
}

// Whether one of the rows is outside 1 to m.
fn some_outside(m: u32, row_list: &[u32]) -> bool
    ensures { result ≡ list_any (λ row. not (is_in 1 m row)) row_list.now }
{
    row_list.iter().any(|row| row_outside(m, *row))
}

// Refuses no row or more than 64 by 7, a row outside 1 to m by 17.
pub fn named(m: u32, row_list: &[u32]) -> Result<(), Refusal>
    ensures { number_in result ≡ (named_refusal m row_list.now).number }
{
    if early_refusals::shape_outside(row_list.len()) {
        return Err(Refusal::Shape);
    }
    if some_outside(m, row_list) {
        return Err(Refusal::AskedOutside);
    }
    Ok(())
}
