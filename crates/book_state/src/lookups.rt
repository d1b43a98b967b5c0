ghost use Rattle.std.specs.Prelude.{◌≡◌, ◌≤ℤ◌, true, IfSome, option_map};
ghost use Rattle.annex_tables.specs.declared.TheConstants.{MIN_NOMINAL, MAX_NOMINAL};
ghost use Rattle.book_words.specs.declared.act.BatchState.TheVariants as state;
ghost use Rattle.book_words.specs.Acts as acts;
ghost use Rattle.book_words.specs.Desks.{newest_row, is_desk};
ghost use Rattle.book_words.specs.Refusals as rules;
ghost use Rattle.book_words.specs.Views.{batches_in};
ghost use Rattle.book_words.specs.Answers.{IsLegal};

use crate::state::State;
use book_index::States;
use book_words::{BatchState, Name, Refusal, Unit};
use hall_limits::MAX_LANE;

/// The lane isn't 1 to 16.
pub fn lane_number(lane: u8) -> Option<Refusal>
    ensures { result ≡ rules.lane_number lane }
{
    if 1 <= lane && lane <= MAX_LANE {
        None
    } else {
        Some(Refusal::LaneNumber)
    }
}

impl State {
    /// The newest day, since 1970-01-01.
    pub fn day(&self) -> Option<i32>
        ensures { result ≡ acts.newest_day self.now.entries }
    {
        self.index.day()
    }

    /// The nominal quantity of a product, in mg or microlitres by its unit.
    pub fn nominal(&self, product: &Name) -> Option<i64>
        ensures value { result ≡ acts.nominal_of self.now.entries product.now }
        ensures range { IfSome result (λ nominal.
            (MIN_NOMINAL ≤ℤ nominal) × (nominal ≤ℤ MAX_NOMINAL)) }
    {
        self.index.product(product).map(|terms| terms.nominal)
    }

    /// The unit of a product.
    pub fn unit(&self, product: &Name) -> Option<Unit>
        ensures { result ≡ acts.unit_of self.now.entries product.now }
    {
        self.index.product(product).map(|terms| terms.unit)
    }

    /// The product of a batch.
    pub fn product(&self, batch: &Name) -> Option<Name>
        ensures value { result ≡ acts.product_of self.now.entries batch.now }
        ensures legal { IsLegal self.now.entries }
    {
        let terms = self.index.batch(batch)?;
        self.index.product_name(terms.product)
    }

    /// The density that was recorded for a batch, in mg a litre; 0 for goods by mass.
    pub fn density(&self, batch: &Name) -> Option<u32>
        ensures { result ≡ acts.density_of self.now.entries batch.now }
    {
        self.index.batch(batch).map(|terms| terms.density)
    }

    /// The state of a batch.
    pub fn state(&self, batch: &Name) -> Option<BatchState>
        ensures { result ≡ acts.state_of self.now.entries batch.now }
    {
        self.index.batch(batch).map(|terms| terms.state)
    }

    /// The batch that a lane has.
    pub fn lane(&self, lane: u8) -> Option<Name>
        ensures value { result ≡ acts.lane_batch self.now.entries lane }
        ensures legal { IsLegal self.now.entries }
    {
        self.index.lane(lane)
    }

    /// The least lane that has a batch.
    pub fn lane_running(&self, batch: &Name) -> Option<u8>
        ensures { result ≡ rules.lane_running self.now.entries batch.now }
    {
        self.index.lane_running(batch)
    }

    /// The number of the newest row of a desk, 101 to 164.
    pub fn newest_row(&self, desk: u16) -> Option<u32>
        requires desk { is_desk desk ≡ true }
        ensures { result ≡ option_map (λ row. row.number) (newest_row self.now.entries desk) }
    {
        self.index.desk_row(desk)
    }

    /// How many batches are in each state.
    pub fn states(&self) -> States
        ensures running { result.running ≡ batches_in self.now.entries state.Running }
        ensures ended { result.ended ≡ batches_in self.now.entries state.Ended }
        ensures drawn { result.drawn ≡ batches_in self.now.entries state.Drawn }
        ensures closed { result.closed ≡ batches_in self.now.entries state.Closed }
    {
        self.index.states()
    }
}
