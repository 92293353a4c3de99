// Numbers 1 to 6 and 20, of every call: sizes, limits, tables and lists by their lengths, then limits and tables read through within their sizes for number 6. The
// first number in document 01's order is given, and from number 6 on the first W work places are zero.
#![tactic(auto)]

ghost use Rattle.std.specs.Prelude.{◌≡◌};
ghost use Rattle.workspace.specs.Regions.{zero_first};
ghost use Rattle.tables.specs.Tables.{is_sound};
ghost use Rattle.tables.specs.Lent.{tables_viewed};
ghost use Rattle.calls.specs.Refusals.{work_for, early_refusal};
ghost use Rattle.early_refusals.specs.Refusal.{number_in};
ghost use Rattle.state.specs.Record.{state_of};
ghost use Rattle.admission.specs.Admission.{Admitted, HasPlaces};

use early_refusals::Refusal;
use state::State;
use tables::TablesView;

// Refuses a call by 1 to 5 or 20; keeps_rule: an opening's limits do; lists: a change's lists are long enough.
pub fn early(
    state: State,
    tables: TablesView,
    work: &[u32],
    keeps_rule: bool,
    lists: bool,
) -> Result<(), Refusal>
    ensures { number_in result ≡ (early_refusal (state_of state).sizes keeps_rule (tables_viewed tables.entry) work.now lists).number }
{
    early_refusals::sizes(
        state.m,
        state.n,
        state.f,
        state.c,
        State::MOST_ROWS,
        State::MOST_IDS,
        State::MOST_RECORDS,
        State::MOST_BOOKED,
    )?;
    if !keeps_rule {
        return Err(Refusal::Limits);
    }
    if early_refusals::short(tables, work, state.m, state.n, state.f, state.c) || !lists {
        return Err(Refusal::Short);
    }
    Ok(())
}

// Whether the tables are sound at the clock and the limits keep the rule. The first W work places are zero afterwards.
fn read_through(state: State, tables: TablesView, work: &mut [u32]) -> bool
    requires { HasPlaces (state_of state).sizes (tables_viewed tables) work.old }
    ensures answer { result ≡ is_sound (state_of state) (tables_viewed tables.entry) }
    ensures work { work.new ≡ zero_first (work_for (state_of state).sizes) work.old }
{
    soundness::make_ready(work, state.m as usize);
    let within = tables.within(state.m, state.n, state.f, state.c);
    let sound = soundness::read_through(within, work, state.free, state.book_free, state.clock);
    workspace::clear(
        work,
        0,
        workspace::work_need(state.m, state.n, state.f, state.c),
    );
    sound && early_refusals::limits::are_limits(state.grade2, state.grade3, state.grade4)
}

// Refuses a call by 1 to 6. Where 1 to 5 are passed the first W work places are zero afterwards.
pub fn admit(state: State, tables: TablesView, work: &mut [u32], lists: bool) -> Result<(), Refusal>
    ensures { Admitted (state_of state) (tables_viewed tables.entry) work.old lists (number_in result) work.new }
{
    early(state, tables, work, true, lists)?;
    if read_through(state, tables, work) {
        return Ok(());
    }
    Err(Refusal::Unsound)
}
