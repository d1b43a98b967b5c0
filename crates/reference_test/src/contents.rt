ghost use Rattle.std.specs.Prelude.{◌≡◌, ◌↔◌, ◌<◌, IsNone};
ghost use Rattle.reference_test.specs.Contents.{contents_of};

use crate::types::Contents;
use annex_tables::Plan;

/// The contents check of Annex II, with `d1` defective packs in the first sample and, where a
/// second was drawn and measured, `d2` in it. A pack is defective where its contents are below
/// `t1`. The second sample counts only where the first doesn't decide.
pub fn contents_check(plan: &Plan, d1: u32, d2: Option<u32>) -> Contents
    ensures value { result ≡ contents_of plan.now d1 d2 }
    ensures second { (result ≡ Contents.Second)
        ↔ ((plan.now.c1 < d1) × (d1 < plan.now.r1) × IsNone d2) }
{
    if d1 <= plan.c1 {
        return Contents::Accept;
    }
    if d1 >= plan.r1 {
        return Contents::Reject;
    }
    match d2 {
        None => Contents::Second,
        Some(d2) if u64::from(d1) + u64::from(d2) <= u64::from(plan.c2) => Contents::Accept,
        Some(_) => Contents::Reject,
    }
}
