//! The words of the batch book: its acts, questions and answers as data, and what each of them
//! means over the list of accepted commands. Masses are whole milligrams, days are counted from
//! 1970-01-01, volumes are microlitres, densities mg a litre.
#![tactic(auto)]

mod act;
mod caller;
mod name;
mod page;
mod refusal;
mod reply;
mod views;

pub use act::{Act, Ask, BatchState, Entry, Prior, Question, Reading, Unit, Want};
pub use caller::{AskError, Caller};
pub use name::Name;
pub use page::{ActList, PackList};
pub use refusal::{MAX_REFUSAL_NAME, Refusal};
pub use reply::{Answered, Refused, Reply};
pub use views::{
    ActView, Fails, LaneView, MAX_DRAWN, MAX_PAGE, PackView, PacksView, RowsView, SampleView,
    Sheet, SummaryView, TestView, Verdict,
};
