ghost use Rattle.std.specs.Prelude.{◌≡◌, ◌≤◌, ◌<◌, ◌^◌, length, take, true, IfOk};
ghost use Rattle.std.specs.List.{list_all};
ghost use Rattle.annex_tables.specs.Errors.{limits_of};
ghost use Rattle.annex_tables.specs.Plans.{plan_of};
ghost use Rattle.annex_tables.specs.declared.TheConstants.{MAX_POPULATION};
ghost use Rattle.reference_test.specs.Means.{total};
ghost use Rattle.book_words.specs.Samples.{plan_or_empty};
ghost use Rattle.book_words.specs.Verdicts.{average_by, allowance_by, none_inadequate, fails_by, any_fails, verdict_by_fails};
ghost use Rattle.paper_form.specs.Drafts.{data_of};
ghost use Rattle.paper_form.specs.Ranges.{IsListed, IsShort, ArePicksInRange};
ghost use Rattle.paper_check.specs.Keyed.{AreKeysOf, is_mass};
ghost use Rattle.paper_check.specs.Judging.{sample_in, defective_picks, below_count, contents_check_in, mean_check_in, fails_in_nets, nets_of, judged};
ghost use Rattle.paper_check.specs.Faults.{needs_second};

use crate::contents::{contents_of_picks, nets_of};
use crate::sums::{count_below, is_reached, mean_accepts, total_of};
use crate::tares::Keys;
use annex_tables::{Limits, Mode, Plan, limits, plan};
use book_words::{Fails, Verdict};
use paper_form::{Draw, Paper, Pick};
use reference_test::{Contents, contents_check};
use std::alloc::{AllocError, Global};

// The plan of a population of which there is no reference test.
const NO_PLAN: Plan = Plan {
    first: 0,
    c1: 0,
    r1: 0,
    second: 0,
    c2: 0,
    r2: 0,
    mean_n: 0,
    k1000: 0,
};

// The plan of the reference test of `n` packs; where there is none, one of no packs.
fn plan_or_none(n: u32, mode: Mode) -> Plan
    ensures value { result ≡ plan_or_empty (plan_of n mode) }
    ensures few { result.mean_n ≤ 99 }
    ensures part { result.k1000 ≤ 1000 }
{
    match plan(n, mode) {
        Ok(plan) => plan,
        Err(_) => NO_PLAN,
    }
}

// The plan of the samples of a paper.
fn plan_in(paper: &Paper, draw: &Draw) -> Plan
    requires short { IsShort (data_of paper.now) }
    ensures value { result ≡ (sample_in (data_of paper.now) draw.now).plan }
    ensures few { result.mean_n ≤ 99 }
    ensures part { result.k1000 ≤ 1000 }
{
    plan_or_none(paper.packs.len() as u32, draw.mode)
}

// The limits of the goods of a paper.
#[tactic(auto, using(crate::proofs::GoodsRange::nominal_known))]
fn limits_in(paper: &Paper) -> Limits
    requires listed { IsListed (data_of paper.now) }
    ensures { result ≡ limits_of paper.now.goods.nominal }
{
    let Ok(limits) = limits(paper.goods.nominal) else {
        unreachable!()
    };
    limits
}

// How many packs of a sample are defective.
fn count_defective(
    alloc: Global,
    paper: &Paper,
    keys: &Keys,
    mode: Mode,
    picks: &[Pick],
) -> Result<u32, AllocError>
    requires listed { IsListed (data_of paper.now) }
    requires keys { AreKeysOf (data_of paper.now) keys.now }
    requires range { ArePicksInRange picks.now }
    requires few { length picks.now < 2 ^ 32 }
    ensures { IfOk result (λ count. count ≡ defective_picks (data_of paper.now) mode picks.now) }
{
    let masses = contents_of_picks(alloc, paper, keys, mode, picks)?;
    Ok(count_below(&masses, paper.goods.density, &limits_in(paper).t1))
}

/// Whether the first sample needs a second one.
pub fn needs_second(
    alloc: Global,
    paper: &Paper,
    keys: &Keys,
    draw: &Draw,
) -> Result<bool, AllocError>
    requires listed { IsListed (data_of paper.now) }
    requires short { IsShort (data_of paper.now) }
    requires keys { AreKeysOf (data_of paper.now) keys.now }
    ensures { IfOk result (λ needed. needed ≡ needs_second (data_of paper.now) draw.now) }
{
    let plan = plan_in(paper, draw);
    let d1 = count_defective(alloc, paper, keys, draw.mode, &paper.first)?;
    Ok(plan.c1 < d1 && d1 < plan.r1)
}

// The contents check of Annex II.
fn accept_contents(
    alloc: Global,
    paper: &Paper,
    keys: &Keys,
    draw: &Draw,
) -> Result<bool, AllocError>
    requires listed { IsListed (data_of paper.now) }
    requires short { IsShort (data_of paper.now) }
    requires keys { AreKeysOf (data_of paper.now) keys.now }
    ensures { IfOk result (λ accepts. accepts ≡ contents_check_in (data_of paper.now) draw.now) }
{
    let plan = plan_in(paper, draw);
    let d1 = count_defective(alloc, paper, keys, draw.mode, &paper.first)?;
    let d2 = count_defective(alloc, paper, keys, draw.mode, &paper.second)?;
    Ok(contents_check(&plan, d1, Some(d2)) == Contents::Accept)
}

// The first packs of a sample, so many or as many as there are.
#[tactic(auto, using(crate::proofs::GoodsRange::take_min, crate::proofs::GoodsRange::picks_front))]
fn front(picks: &[Pick], most: u32) -> &[Pick]
    requires range { ArePicksInRange picks.now }
    ensures value { result.now ≡ take most picks.now }
    ensures range { ArePicksInRange result.now }
    ensures few { length result.now ≤ most }
{
    &picks[..picks.len().min(most as usize)]
}

// The mean check of Annex II.
#[tactic(auto, using(crate::proofs::GoodsRange::nominal_known, crate::proofs::GoodsRange::density_known))]
fn accept_mean(alloc: Global, paper: &Paper, keys: &Keys, draw: &Draw) -> Result<bool, AllocError>
    requires listed { IsListed (data_of paper.now) }
    requires short { IsShort (data_of paper.now) }
    requires keys { AreKeysOf (data_of paper.now) keys.now }
    ensures { IfOk result (λ accepts. accepts ≡ mean_check_in (data_of paper.now) draw.now) }
{
    let plan = plan_in(paper, draw);
    let picks = front(&paper.first, plan.mean_n);
    let masses = contents_of_picks(alloc, paper, keys, draw.mode, picks)?;
    Ok(mean_accepts(
        &masses,
        paper.goods.nominal,
        paper.goods.density,
        plan.k1000,
    ))
}

// How many of some nets are below a limit at the density of the goods.
fn count_light(paper: &Paper, limit: &i64, nets: &[i64]) -> u32
    requires few { length nets.now ≤ MAX_POPULATION }
    ensures { result ≡ below_count (data_of paper.now) limit.now nets.now }
{
    count_below(nets, paper.goods.density, limit)
}

// The average of the packers' part.
fn is_average_right(paper: &Paper, nets: &[i64]) -> bool
    requires listed { IsListed (data_of paper.now) }
    requires range { list_all is_mass nets.now ≡ true }
    requires few { length nets.now ≤ MAX_POPULATION }
    ensures { result ≡ average_by (length paper.now.packs.items) paper.now.goods.density
        paper.now.goods.nominal (total nets.now) }
{
    let number = paper.packs.len() as u32;
    is_reached(
        number,
        paper.goods.density,
        paper.goods.nominal,
        total_of(nets),
    )
}

// The allowance of the packers' part.
fn is_allowed(paper: &Paper, nonstandard: u32) -> bool
    ensures { result ≡ allowance_by (length paper.now.packs.items) nonstandard }
{
    40 * u64::from(nonstandard) <= paper.packs.len() as u64
}

// Whether a count is 0.
fn is_none(inadequate: u32) -> bool
    ensures { result ≡ none_inadequate inadequate }
{
    inadequate == 0
}

// The parts that fail, by the two checks and the nets of the packs.
fn fails_of(paper: &Paper, contents: bool, mean: bool, nets: &[i64]) -> Fails
    requires listed { IsListed (data_of paper.now) }
    requires range { list_all is_mass nets.now ≡ true }
    requires few { length nets.now ≤ MAX_POPULATION }
    ensures { result ≡ fails_by contents mean
        (average_by (length paper.now.packs.items) paper.now.goods.density
        paper.now.goods.nominal (total nets.now))
        (allowance_by (length paper.now.packs.items) (below_count (data_of paper.now)
        (limits_of paper.now.goods.nominal).t1 nets.now))
        (none_inadequate (below_count (data_of paper.now)
        (limits_of paper.now.goods.nominal).t2 nets.now)) }
{
    let limits = limits_in(paper);
    let nonstandard = count_light(paper, &limits.t1, nets);
    let inadequate = count_light(paper, &limits.t2, nets);
    Fails {
        contents: !contents,
        mean: !mean,
        average: !is_average_right(paper, nets),
        allowance: !is_allowed(paper, nonstandard),
        inadequate: !is_none(inadequate),
    }
}

// Whether a part fails.
fn any_fails(fails: &Fails) -> bool
    ensures { result ≡ any_fails fails.now }
{
    fails.contents || fails.mean || fails.average || fails.allowance || fails.inadequate
}

// The verdict by the parts that fail.
fn verdict_by(fails: Fails) -> Verdict
    ensures { result ≡ verdict_by_fails fails }
{
    if any_fails(&fails) {
        Verdict::Withheld(fails)
    } else {
        Verdict::Released
    }
}

// The verdict of packs of which samples were drawn.
fn judge_drawn(
    alloc: Global,
    paper: &Paper,
    keys: &Keys,
    draw: &Draw,
) -> Result<Verdict, AllocError>
    requires listed { IsListed (data_of paper.now) }
    requires short { IsShort (data_of paper.now) }
    requires keys { AreKeysOf (data_of paper.now) keys.now }
    ensures { IfOk result (λ verdict. verdict ≡ verdict_by_fails (fails_in_nets (data_of paper.now)
        draw.now (nets_of (data_of paper.now).tares (data_of paper.now).packs))) }
{
    let contents = accept_contents(alloc, paper, keys, draw)?;
    let mean = accept_mean(alloc, paper, keys, draw)?;
    let nets = nets_of(alloc, paper, keys, &paper.packs)?;
    Ok(verdict_by(fails_of(paper, contents, mean, &nets)))
}

/// The verdict that the lines of a paper give, but for the one that says it.
pub fn judge(alloc: Global, paper: &Paper, keys: &Keys) -> Result<Verdict, AllocError>
    requires listed { IsListed (data_of paper.now) }
    requires short { IsShort (data_of paper.now) }
    requires keys { AreKeysOf (data_of paper.now) keys.now }
    ensures { IfOk result (λ verdict. verdict ≡ judged (data_of paper.now)) }
{
    let Some(draw) = paper.draw else {
        return Ok(Verdict::Empty);
    };
    let verdict = judge_drawn(alloc, paper, keys, &draw)?;
    Ok(verdict)
}
