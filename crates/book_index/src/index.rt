ghost use Rattle.std.specs.Prelude.{◌≡◌, ◌+◌, ◌<◌, ◌≤◌, [], ◌∷◌, ◌++◌, List, length, true, false, None, Some, map, option_map, slice_get, OnOk, OnErr, IsOk, count_by, if◌then◌else◌};
ghost use Rattle.std.specs.Option.{option_and_then};
ghost use Rattle.book_words.specs.declared.act.Entry.{Entry};
ghost use Rattle.book_words.specs.declared.act.BatchState.TheVariants as state;
ghost use Rattle.book_words.specs.Acts.{said, batch_opened, newest_day, nominal_of, unit_of, density_of, state_of, lane_batch, same_state};
ghost use Rattle.book_words.specs.Answers.{IsLegal, IsLawful};
ghost use Rattle.book_words.specs.Desks as desks;
ghost use Rattle.book_words.specs.Order as order;
ghost use Rattle.book_words.specs.Refusals as rules;
ghost use Rattle.book_words.specs.Views.{batches_in};
ghost use Rattle.book_index.specs.Lanes.{has_number, lane_of_number};
ghost use Rattle.book_index.specs.Known.{names_of};
ghost use Rattle.book_index.specs.Changes.{with_product, with_batch, with_batch_state, with_lane, with_row, begun_terms, after_act, needs_room};
ghost use Rattle.book_index.specs.Listed.{IsIndexOf, batch_product_number, lane_batch_number, newest_row_number, flags_listed};
ghost use Rattle.book_index.specs.Listed as listed;

use crate::types::{BatchTerms, NoMemory, ProductTerms, States};
use book_words::{Act, BatchState, Entry, Name};
use hall_limits::{MAX_DESK, MAX_LANE, MIN_DESK};
use name_table::NameTable;
use std::alloc::Global;
use std::marker::Model;

// How many lanes there are.
const LANES: usize = MAX_LANE as usize;

// How many desks there are.
const DESKS: usize = (MAX_DESK - MIN_DESK + 1) as usize;

/// What the book knows by name, lane, day or desk.
pub struct Index {
    products: NameTable,
    batches: NameTable,
    // The terms of the products and of the batches, in the same order.
    product_terms: Vec<ProductTerms>,
    batch_terms: Vec<BatchTerms>,
    // Whether each batch is closed, in the order of the batches.
    closed: Vec<bool>,
    // The number of the batch of each lane, from lane 1 on.
    lanes: [Option<u32>; LANES],
    day: Option<i32>,
    // The number of the newest row of each desk, from the least desk on.
    desks: [Option<u32>; DESKS],
    // How many products and batches more are sure to find room.
    spare: u32,
}

// By hand, so that letting one go is one call, where a derived drop is spelled at each exit.
impl Drop for Index {
    fn drop(self) {
        let Self {
            products: _,
            batches: _,
            product_terms: _,
            batch_terms: _,
            closed: _,
            lanes: _,
            day: _,
            desks: _,
            spare: _,
        } = self;
    }
}

impl Model for Index {
    ghost use Rattle.book_index.specs.Known.{Known};
    ghost use Rattle.book_index.specs.Invariant.{known_of, IsKept};

    ghost Value = { Known };

    ghost view = { known_of };

    ghost invariant = { IsKept };
}

impl Index {
    /// The index of a list without entries. It takes no memory.
    pub fn new(alloc: Global) -> Index
        ensures { IsIndexOf [] result }
    {
        Index {
            products: NameTable::new(alloc),
            batches: NameTable::new(alloc),
            product_terms: Vec::new(alloc),
            batch_terms: Vec::new(alloc),
            closed: Vec::new(alloc),
            lanes: [None; LANES],
            day: None,
            desks: [None; DESKS],
            spare: 0,
        }
    }

    /// The newest day, counted from 1970-01-01.
    pub fn day(&self) -> Option<i32>
        ensures { (entries : List Entry) → IsIndexOf entries self.now
            → result ≡ newest_day entries }
    {
        self.day
    }

    /// The terms of a product.
    pub fn product(&self, product: &Name) -> Option<ProductTerms>
        ensures nominal { (entries : List Entry) → IsIndexOf entries self.now
            → option_map (λ terms. terms.nominal) result ≡ nominal_of entries product.now }
        ensures unit { (entries : List Entry) → IsIndexOf entries self.now
            → option_map (λ terms. terms.unit) result ≡ unit_of entries product.now }
    {
        terms_at(&self.product_terms, self.product_number(product))
    }

    /// The number of a product: its place in the order in which they were put, from 0.
    pub fn product_number(&self, product: &Name) -> Option<u32>
        ensures place { result ≡ order.place_of (names_of self.now.products) product.now }
        ensures number { (entries : List Entry) → IsIndexOf entries self.now
            → result ≡ order.product_number entries product.now }
    {
        self.products.number(product)
    }

    /// The name of the product of a number.
    pub fn product_name(&self, number: u32) -> Option<Name>
        ensures { (entries : List Entry) → IsIndexOf entries self.now
            → result ≡ slice_get (said order.product_named entries) number }
    {
        self.products.name(number)
    }

    /// The terms of a batch.
    pub fn batch(&self, batch: &Name) -> Option<BatchTerms>
        ensures product { (entries : List Entry) → IsIndexOf entries self.now → IsLegal entries
            → option_map (λ terms. terms.product) result
            ≡ batch_product_number entries batch.now }
        ensures density { (entries : List Entry) → IsIndexOf entries self.now
            → option_map (λ terms. terms.density) result ≡ density_of entries batch.now }
        ensures state { (entries : List Entry) → IsIndexOf entries self.now → IsLegal entries
            → option_map (λ terms. terms.state) result ≡ state_of entries batch.now }
    {
        terms_at(&self.batch_terms, self.batch_number(batch))
    }

    /// The number of a batch: its place in the order in which they were opened, from 0.
    pub fn batch_number(&self, batch: &Name) -> Option<u32>
        ensures place { result ≡ order.place_of (names_of self.now.batches) batch.now }
        ensures number { (entries : List Entry) → IsIndexOf entries self.now
            → result ≡ order.batch_number entries batch.now }
    {
        self.batches.number(batch)
    }

    /// The name of the batch of a number.
    pub fn batch_name(&self, number: u32) -> Option<Name>
        ensures { (entries : List Entry) → IsIndexOf entries self.now
            → result ≡ slice_get (said batch_opened entries) number }
    {
        self.batches.name(number)
    }

    /// The batch that a lane has.
    pub fn lane(&self, lane: u8) -> Option<Name>
        ensures { (entries : List Entry) → IsIndexOf entries self.now → IsLegal entries
            → result ≡ lane_batch entries lane }
    {
        match self.held_number(lane) {
            Some(number) => self.batch_name(number),
            None => None,
        }
    }

    /// The number of the batch that a lane has. No name is looked for.
    pub fn lane_batch_number(&self, lane: u8) -> Option<u32>
        ensures { (entries : List Entry) → IsIndexOf entries self.now → IsLegal entries
            → result ≡ lane_batch_number entries lane }
    {
        self.held_number(lane)
    }

    /// The terms of the batch that a lane has. No name is looked for.
    pub fn lane_terms(&self, lane: u8) -> Option<BatchTerms>
        ensures product { (entries : List Entry) → IsIndexOf entries self.now → IsLegal entries
            → option_map (λ terms. terms.product) result
            ≡ option_and_then (batch_product_number entries) (lane_batch entries lane) }
    {
        terms_at(&self.batch_terms, self.lane_batch_number(lane))
    }

    // The number of the batch that a lane has.
    fn held_number(&self, lane: u8) -> Option<u32>
        ensures on { (entries : List Entry) → IsIndexOf entries self.now
            → listed.is_lane lane ≡ true → result ≡ lane_batch_number entries lane }
        ensures off { listed.is_lane lane ≡ false → result ≡ None }
    {
        if !is_lane(lane) {
            return None;
        }
        self.lanes[lane as usize - 1]
    }

    /// The least lane that has a batch.
    pub fn lane_running(&self, batch: &Name) -> Option<u8>
        ensures { (entries : List Entry) → IsIndexOf entries self.now → IsLegal entries
            → result ≡ rules.lane_running entries batch.now }
    {
        match self.batch_number(batch) {
            Some(number) => first_lane(&self.lanes, number),
            None => None,
        }
    }

    /// The number of the newest row of a desk, from 101 to 164.
    pub fn desk_row(&self, desk: u16) -> Option<u32>
        ensures row { (entries : List Entry) → IsIndexOf entries self.now
            → desks.is_desk desk ≡ true → result ≡ newest_row_number entries desk }
        ensures other { desks.is_desk desk ≡ false → result ≡ None }
    {
        if !is_desk(desk) {
            return None;
        }
        self.desks[(desk - MIN_DESK) as usize]
    }

    /// Whether each batch is closed, in the order of their numbers.
    pub fn closed(&self) -> &[bool]
        ensures { (entries : List Entry) → IsIndexOf entries self.now
            → result.now ≡ flags_listed entries }
    {
        self.closed.as_slice()
    }

    /// How many batches are in each state. It walks over all batches.
    pub fn states(&self) -> States
        ensures running { (entries : List Entry) → IsIndexOf entries self.now → IsLegal entries
            → result.running ≡ batches_in entries state.Running }
        ensures ended { (entries : List Entry) → IsIndexOf entries self.now → IsLegal entries
            → result.ended ≡ batches_in entries state.Ended }
        ensures drawn { (entries : List Entry) → IsIndexOf entries self.now → IsLegal entries
            → result.drawn ≡ batches_in entries state.Drawn }
        ensures closed { (entries : List Entry) → IsIndexOf entries self.now → IsLegal entries
            → result.closed ≡ batches_in entries state.Closed }
    {
        States {
            running: self.count_in(BatchState::Running),
            ended: self.count_in(BatchState::Ended),
            drawn: self.count_in(BatchState::Drawn),
            closed: self.count_in(BatchState::Closed),
        }
    }

    // How many batches are in a state.
    fn count_in(&self, state: BatchState) -> u32
        ensures { result ≡ count_by (λ batch. same_state batch.1.state state) self.now.batches }
    {
        let mut count = 0;
        for place in 0..self.batch_terms.len() {
            let terms = self.batch_terms[place];
            count += one_if_same(terms.state, state);
        }
        count
    }

    /// Reserves places for `more` further products and batches.
    pub fn reserve(&mut self, more: u32) -> Result<(), NoMemory>
        ensures ok { OnOk result (more ≤ self.new.spare) }
        ensures known { self.new ≡ record self.old { spare = self.new.spare } }
        ensures kept { (entries : List Entry) → IsIndexOf entries self.old
            → IsIndexOf entries self.new }
        ensures spare { self.old.spare ≤ self.new.spare }
        ensures room { more ≤ self.old.spare → IsOk result }
    {
        if more <= self.spare {
            return Ok(());
        }
        self.products.reserve(more)?;
        self.batches.reserve(more)?;
        self.product_terms.reserve(more as usize)?;
        self.batch_terms.reserve(more as usize)?;
        self.closed.reserve(more as usize)?;
        self.spare = more;
        Ok(())
    }

    /// Enters the next entry of the list, which stands in this row. It takes no memory, and can't
    /// fail where a place is reserved.
    pub fn enter(&mut self, row: u32, entry: &Entry)
        requires room { needs_room entry.now.act ≡ true → 0 < self.old.spare }
        ensures entered { (entries : List Entry) → IsIndexOf entries self.old → IsLegal entries
            → IsLawful entries entry.now → row ≡ length entries + 1
            → IsIndexOf (entries ++ entry.now ∷ []) self.new }
        ensures spare { self.old.spare ≤ self.new.spare + 1 }
    {
        self.enter_act(&entry.act);
        self.set_row(entry.desk, row);
    }

    // Enters an act.
    fn enter_act(&mut self, act: &Act)
        requires { needs_room act.now ≡ true → 0 < self.old.spare }
        ensures { self.new ≡ after_act act.now self.old }
    {
        match act {
            Act::NewDay { day } => self.day = Some(*day),
            Act::PutProduct {
                name,
                nominal,
                unit,
            } => {
                let terms = ProductTerms {
                    nominal: *nominal,
                    unit: *unit,
                };
                self.put_product(name, &terms)
            }
            Act::OpenBatch {
                batch,
                product,
                density,
            } => {
                let terms = self.begun_terms(product, *density);
                self.open_batch(batch, &terms)
            }
            Act::StartLane { lane, batch } => self.set_lane(*lane, self.batch_number(batch)),
            Act::StopLane { lane, .. } => self.set_lane(*lane, None),
            Act::EndRun { batch } => self.set_state(batch, BatchState::Ended),
            Act::Draw { batch, .. } => self.set_state(batch, BatchState::Drawn),
            Act::Close { batch } => self.set_state(batch, BatchState::Closed),
            Act::PutTare { .. }
            | Act::Weigh { .. }
            | Act::Void { .. }
            | Act::Measure { .. }
            | Act::DrawSecond { .. } => {}
        }
    }

    // The terms with which a batch of a product begins.
    fn begun_terms(&self, product: &Name, density: u32) -> BatchTerms
        ensures { result ≡ begun_terms product.now density self.now }
    {
        BatchTerms {
            product: self.product_number(product).unwrap_or(0),
            density,
            state: BatchState::Running,
        }
    }

    // Puts a product, unless there is one of its name.
    fn put_product(&mut self, name: &Name, terms: &ProductTerms)
        requires { 0 < self.old.spare }
        ensures { self.new ≡ with_product name.now terms.now self.old }
    {
        self.spare -= 1;
        if self.products.number(name).is_some() {
            return;
        }
        self.products.push(name);
        let Ok(()) = self.product_terms.push(*terms) else {
            unreachable!()
        };
    }

    // Opens a batch, unless there is one of its name.
    fn open_batch(&mut self, name: &Name, terms: &BatchTerms)
        requires { 0 < self.old.spare }
        ensures { self.new ≡ with_batch name.now terms.now self.old }
    {
        self.spare -= 1;
        if self.batches.number(name).is_some() {
            return;
        }
        self.batches.push(name);
        let Ok(()) = self.batch_terms.push(*terms) else {
            unreachable!()
        };
        let Ok(()) = self.closed.push(is_closed(terms.state)) else {
            unreachable!()
        };
    }

    // Notes the state of a batch.
    fn set_state(&mut self, batch: &Name, state: BatchState)
        ensures { self.new ≡ with_batch_state batch.now state self.old }
    {
        let Some(number) = self.batches.number(batch) else {
            return;
        };
        let place = number as usize;
        let terms = self.batch_terms[place];
        self.batch_terms[place] = BatchTerms { state, ..terms };
        self.closed[place] = is_closed(state);
    }

    // Notes the number of the batch of a lane.
    fn set_lane(&mut self, lane: u8, batch: Option<u32>)
        ensures { self.new ≡ with_lane lane batch self.old }
    {
        let lanes = &mut self.lanes;
        if is_lane(lane) {
            lanes[lane as usize - 1] = batch;
        }
    }

    // Notes the newest row of a desk.
    fn set_row(&mut self, desk: u16, row: u32)
        ensures { self.new ≡ with_row desk row self.old }
    {
        let desks = &mut self.desks;
        if is_desk(desk) {
            desks[(desk - MIN_DESK) as usize] = Some(row);
        }
    }
}

// The terms of a number, where there is one.
fn terms_at<T: Copy>(terms: &[T], number: Option<u32>) -> Option<T>
    ensures { result ≡ option_and_then (slice_get terms.now) number }
{
    match number {
        Some(number) => terms.get(number as usize).copied(),
        None => None,
    }
}

// The first lane that has the batch of a number.
fn first_lane(lanes: &[Option<u32>; LANES], number: u32) -> Option<u8>
    ensures { result ≡ lane_of_number number 1 lanes.now }
{
    for place in 0..MAX_LANE {
        if is_number(lanes[place as usize], number) {
            return Some(place + 1);
        }
    }
    None
}

// Whether the batch of a lane has this number.
fn is_number(batch: Option<u32>, number: u32) -> bool
    ensures { result ≡ has_number number batch }
{
    match batch {
        Some(other) => other == number,
        None => false,
    }
}

// Whether a state is the last one.
fn is_closed(state: BatchState) -> bool
    ensures { result ≡ rules.is_closed (Some state) }
{
    matches!(state, BatchState::Closed)
}

// One where two states are the same, and else nothing.
fn one_if_same(one: BatchState, other: BatchState) -> u32
    ensures { result ≡ (if same_state one other then 1 else 0) }
{
    match (one, other) {
        (BatchState::Running, BatchState::Running)
        | (BatchState::Ended, BatchState::Ended)
        | (BatchState::Drawn, BatchState::Drawn)
        | (BatchState::Closed, BatchState::Closed) => 1,
        _ => 0,
    }
}

// Whether a number is that of a lane.
fn is_lane(lane: u8) -> bool
    ensures { result ≡ listed.is_lane lane }
{
    lane >= 1 && lane <= MAX_LANE
}

// Whether a number is that of a desk.
fn is_desk(desk: u16) -> bool
    ensures { result ≡ desks.is_desk desk }
{
    desk >= MIN_DESK && desk <= MAX_DESK
}
