ghost use Rattle.std.specs.Prelude.{◌≡◌, ◌≤◌, ◌+◌, ◌-ℤ◌, ◌++◌, [], true, pos, length, option_and_then, IfSome, OnOk, IfOk};
ghost use Rattle.std.specs.List.{cons_option, list_all};
ghost use Rattle.hall_limits.specs.declared.TheConstants.{MAX_GROSS, MAX_TARE};
ghost use Rattle.book_words.specs.Refusals.{is_within};
ghost use Rattle.paper_form.specs.Papers.{is_pick_in_range, is_pack_in_range};
ghost use Rattle.paper_form.specs.Drafts.{data_of};
ghost use Rattle.paper_form.specs.Ranges.{IsListed, ArePicksInRange};
ghost use Rattle.paper_check.specs.Keyed.{AreKeysOf, is_mass};
ghost use Rattle.paper_check.specs.Judging.{net_on, nets_of, pack_with, contents_of_pick, contents_of_picks};

use crate::finding::{find_pack, find_tare};
use crate::tares::Keys;
use annex_tables::Mode;
use paper_form::{Pack, Paper, Pick};
use std::alloc::{AllocError, Global};

// A mass in mg less another, both within their limits.
fn difference(gross: i64, less: i64) -> i64
    requires gross { is_within (pos 0) MAX_GROSS gross ≡ true }
    requires less { is_within (pos 0) MAX_TARE less ≡ true }
    ensures value { result ≡ gross -ℤ less }
    ensures range { is_mass result ≡ true }
{
    gross - less
}

// The net of a pack that weighs so much, where its day has a tare.
fn net_of(paper: &Paper, keys: &Keys, pack: &Pack, gross: &i64) -> Option<i64>
    requires listed { IsListed (data_of paper.now) }
    requires keys { AreKeysOf (data_of paper.now) keys.now }
    requires range { is_pack_in_range pack.now ≡ true }
    requires gross { is_within (pos 0) MAX_GROSS gross.now ≡ true }
    ensures value { result ≡ net_on (data_of paper.now).tares pack.now.day gross.now }
    ensures range { IfSome result (λ mass. is_mass mass ≡ true) }
{
    match find_tare(paper, keys, pack) {
        Some(dated) => Some(difference(*gross, dated.tare)),
        None => None,
    }
}

// The contents of a pack of a sample that is kept.
fn kept_contents(paper: &Paper, keys: &Keys, pick: &Pick, gross: &i64) -> Option<i64>
    requires listed { IsListed (data_of paper.now) }
    requires keys { AreKeysOf (data_of paper.now) keys.now }
    requires gross { is_within (pos 0) MAX_GROSS gross.now ≡ true }
    ensures value { result ≡ option_and_then
        (λ pack. net_on (data_of paper.now).tares pack.day gross.now)
        (pack_with (data_of paper.now).packs pick.now.pack) }
    ensures range { IfSome result (λ mass. is_mass mass ≡ true) }
{
    match find_pack(paper, keys, pick) {
        Some(pack) => net_of(paper, keys, &pack, gross),
        None => None,
    }
}

// The actual contents of a pack of a sample in mg, where it was measured: by the tare of the pack's
// own day, or by the empty pack.
fn contents_of_pick(paper: &Paper, keys: &Keys, mode: Mode, pick: &Pick) -> Option<i64>
    requires listed { IsListed (data_of paper.now) }
    requires keys { AreKeysOf (data_of paper.now) keys.now }
    requires range { is_pick_in_range pick.now ≡ true }
    ensures value { result ≡ contents_of_pick (data_of paper.now) mode pick.now }
    ensures range { IfSome result (λ mass. is_mass mass ≡ true) }
{
    let weighed = pick.weighed?;
    match mode {
        Mode::Keep => kept_contents(paper, keys, pick, &weighed.gross),
        Mode::Destroy => Some(difference(weighed.gross, weighed.empty)),
    }
}

// Adds a mass, where there is one.
fn push_mass(masses: &mut Vec<i64>, mass: Option<i64>) -> Result<(), AllocError>
    requires range { IfSome mass (λ m. is_mass m ≡ true) }
    requires before { list_all is_mass masses.old.items ≡ true }
    ensures added { OnOk result (masses.new.items ≡ masses.old.items ++ cons_option mass []) }
    ensures range { OnOk result (list_all is_mass masses.new.items ≡ true) }
    ensures few { OnOk result (length masses.new.items ≤ length masses.old.items + 1) }
{
    if let Some(mass) = mass {
        masses.push(mass)?;
    }
    Ok(())
}

/// The actual contents of those of some packs that were measured, in mg.
pub fn contents_of_picks(
    alloc: Global,
    paper: &Paper,
    keys: &Keys,
    mode: Mode,
    picks: &[Pick],
) -> Result<Vec<i64>, AllocError>
    requires listed { IsListed (data_of paper.now) }
    requires keys { AreKeysOf (data_of paper.now) keys.now }
    requires range { ArePicksInRange picks.now }
    ensures value { IfOk result (λ masses.
        masses.items ≡ contents_of_picks (data_of paper.now) mode picks.now) }
    ensures range { IfOk result (λ masses. list_all is_mass masses.items ≡ true) }
    ensures few { IfOk result (λ masses. length masses.items ≤ length picks.now) }
{
    let mut masses = Vec::new(alloc);
    for pick in picks {
        push_mass(&mut masses, contents_of_pick(paper, keys, mode, pick))?;
    }
    Ok(masses)
}

/// The nets of some packs of a paper whose days have a tare, in mg.
pub fn nets_of(
    alloc: Global,
    paper: &Paper,
    keys: &Keys,
    packs: &[Pack],
) -> Result<Vec<i64>, AllocError>
    requires listed { IsListed (data_of paper.now) }
    requires keys { AreKeysOf (data_of paper.now) keys.now }
    requires range { list_all is_pack_in_range packs.now ≡ true }
    ensures value { IfOk result (λ nets. nets.items ≡ nets_of (data_of paper.now).tares packs.now) }
    ensures range { IfOk result (λ nets. list_all is_mass nets.items ≡ true) }
    ensures few { IfOk result (λ nets. length nets.items ≤ length packs.now) }
{
    let mut nets = Vec::new(alloc);
    for pack in packs {
        push_mass(&mut nets, net_of(paper, keys, pack, &pack.gross))?;
    }
    Ok(nets)
}
