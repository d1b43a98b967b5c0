//! A second and plainer reading of the rules of the batch book, which shares with it the words
//! alone and has no contracts: a list of entries that is walked anew for every answer. It is for
//! tests, which give the same asks to it and to a book and compare every answer.
#![tactic(auto)]

mod book;
mod entries;
mod measures;
mod packs;
mod rules;
mod samples;
mod signals;
mod tables;
mod taken;
mod verdicts;
mod views;

pub use book::PlainBook;
pub use entries::{
    Opening, Product, Row, lane_batch, newest_day, newest_of_desk, opening_of, product_named,
    state_of, tare_of_product, unsettled_of,
};
pub use measures::{first_unmeasured, measured_count};
pub use packs::{Bounds, Pack, bounds_of, pack_of, population, tare_of_pack};
pub use rules::is_lane_act;
pub use samples::{Sample, sample_of};
pub use taken::{NoMemory, Taken};
pub use verdicts::{defectives, is_open};
