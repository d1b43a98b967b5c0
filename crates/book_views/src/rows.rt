ghost use Rattle.std.specs.Prelude.{◌≡◌, ◌≤◌, ◌-◌, ◌++◌, [], length, take, true, IfOk, IfSome, OnOk, Some};
ghost use Rattle.std.specs.List.{cons_option};
ghost use Rattle.book_words.specs.Ranges.{is_act_in_range};
ghost use Rattle.book_words.specs.Pages as told;
ghost use Rattle.book_verdicts.specs.Known.{entry_numbered};
ghost use Rattle.book_views.specs.RowViews.{row_view};

use book_verdicts::{NoMemory, State, verdict_of};
use book_words::{Act, ActList, ActView, Entry, MAX_PAGE, RowsView, Verdict};
use std::alloc::Global;

// The verdict that the row of a number was told: that of a closing.
fn verdict_at(state: &State, number: u32, entry: &Entry) -> Option<Verdict>
    requires { entry_numbered state.now.entries number ≡ Some entry.now }
    ensures { result ≡ told.verdict_behind (take (number - 1) state.now.entries) entry.now.act }
{
    let _rows = state.len();
    match &entry.act {
        Act::Close { batch } => Some(verdict_of(state, batch)),
        _ => None,
    }
}

/// The row of a number as it was told, where there is one. The verdict of a closing is computed:
/// it is the one that was told.
pub fn view_row(state: &State, number: u32) -> Option<ActView>
    ensures view { result ≡ row_view state.now.entries number }
    ensures range { IfSome result (λ view. is_act_in_range view.entry.act ≡ true) }
{
    let entry = state.entry(number)?;
    Some(ActView {
        row: number,
        entry,
        verdict: verdict_at(state, number, &entry),
    })
}

// Adds the row of a number, where there is one.
fn add_row(state: &State, number: u32, acts: &mut Vec<ActView>) -> Result<(), NoMemory>
    ensures { OnOk result (acts.new.items
        ≡ acts.old.items ++ cons_option (row_view state.now.entries number) []) }
{
    if let Some(view) = view_row(state, number) {
        acts.push(view)?;
    }
    Ok(())
}

// The rows behind so many, up to the one of a number.
fn copy_rows(alloc: Global, state: &State, before: u32, last: u32) -> Result<Vec<ActView>, NoMemory>
    requires order { before ≤ last }
    requires inside { last ≤ length state.now.entries }
    ensures { IfOk result (λ acts. acts.items ++ told.views_after last state.now.entries
        ≡ told.views_after before state.now.entries) }
{
    let mut acts = Vec::with_capacity(alloc, (last - before) as usize)?;
    for place in before..last {
        add_row(state, place + 1, &mut acts)?;
    }
    Ok(acts)
}

/// The page behind so many rows. It takes memory for its rows.
pub fn view_rows(alloc: Global, state: &State, after: u32) -> Result<RowsView, NoMemory>
    ensures { IfOk result (λ view. view ≡ told.page_after after state.now.entries) }
{
    let all = state.len();
    let before = after.min(all);
    let acts = copy_rows(alloc, state, before, all.min(before + MAX_PAGE))?;
    Ok(RowsView {
        before,
        acts: ActList::from(acts),
    })
}
