ghost use Rattle.std.specs.Prelude.{◌≡◌, ◌+◌, ◌<◌, ◌≤◌, ◌≤ℤ◌, ◌^◌, ◌++◌, ℤ, List, [], true, false, All, IfSome, length, is_some, neg_ℤ};
ghost use Rattle.std.specs.List.{cons_option};
ghost use Rattle.hall_limits.specs.declared.TheConstants.{MAX_GROSS, MAX_TARE};
ghost use Rattle.reference_test.specs.Means.{sums_of};
ghost use Rattle.book_words.specs.declared.name.Name as names;
ghost use Rattle.book_words.specs.Acts.{product_of};
ghost use Rattle.book_words.specs.Classes.{density_of_batch, limits_of_batch};
ghost use Rattle.book_words.specs.Measures.{contents_of_pack, contents_among, defective_count};
ghost use Rattle.book_state.specs.Densities.{limit_at};
ghost use Rattle.book_verdicts.specs.Testing.{is_pack_defective};

use annex_tables::Mode;
use book_state::State;
use book_words::Name;
use reference_test::Sums;

/// The actual contents of a pack in mg, where it was measured: in a test that keeps its packs by
/// the tare of the pack's product and day, in one that destroys them by the empty pack.
pub fn contents_of(state: &State, mode: Mode, pack: u64) -> Option<i64>
    requires pack { pack < 2 ^ 32 }
    ensures value { result ≡ contents_of_pack state.now.entries mode pack }
    ensures least { IfSome result (λ mass. neg_ℤ MAX_TARE ≤ℤ mass) }
    ensures greatest { IfSome result (λ mass. mass ≤ℤ MAX_GROSS) }
{
    let known = state.pack(pack as u32)?;
    let measured = state.measured(pack as u32)?;
    match mode {
        Mode::Keep => Some(measured.gross() - known.tare),
        Mode::Destroy => Some(measured.gross() - measured.empty()),
    }
}

// Whether a pack was measured, and its contents in mg are below a limit.
fn is_defective(state: &State, limit: i64, mode: Mode, pack: u64) -> bool
    requires pack { pack < 2 ^ 32 }
    ensures { (batch : names.Name) → limit ≡ limit_at (density_of_batch state.now.entries batch)
        (limits_of_batch state.now.entries batch).t1
        → result ≡ is_pack_defective state.now.entries batch mode pack }
{
    match contents_of(state, mode, pack) {
        Some(mass) => mass < limit,
        None => false,
    }
}

/// How many of some packs of a batch are defective: measured, with contents below one error under
/// the nominal quantity (Annex II).
pub fn count_defective(state: &State, batch: &Name, mode: Mode, packs: &[u64]) -> u32
    requires known { is_some (product_of state.now.entries batch.now) ≡ true }
    requires packs { All (λ pack. pack < 2 ^ 32) packs.now }
    requires few { length packs.now < 2 ^ 32 }
    ensures value { result ≡ defective_count state.now.entries batch.now mode packs.now }
    ensures most { result ≤ length packs.now }
{
    let Some(limits) = state.limits(batch) else {
        unreachable!()
    };
    let mut count = 0;
    for pack in packs {
        count += u32::from(is_defective(state, limits.t1, mode, *pack));
    }
    count
}

// Adds the contents of a pack to some sums, where it was measured.
fn add_contents(sums: &mut Sums, mass: Option<i64>)
    requires room { sums.old.number < 100 }
    requires least { IfSome mass (λ m. neg_ℤ MAX_TARE ≤ℤ m) }
    requires greatest { IfSome mass (λ m. m ≤ℤ MAX_GROSS) }
    ensures added { (values : List ℤ) → sums.old ≡ sums_of values
        → sums.new ≡ sums_of (values ++ cons_option mass []) }
    ensures counted { sums.new.number ≤ sums.old.number + 1 }
{
    if let Some(mass) = mass {
        sums.add(mass);
    }
}

/// The sums of the contents of those of some packs that were measured.
pub fn sum_contents(state: &State, mode: Mode, packs: &[u64]) -> Sums
    requires packs { All (λ pack. pack < 2 ^ 32) packs.now }
    requires few { length packs.now ≤ 99 }
    ensures { result ≡ sums_of (contents_among state.now.entries mode packs.now) }
{
    let mut sums = Sums::new();
    for pack in packs {
        add_contents(&mut sums, contents_of(state, mode, *pack));
    }
    sums
}
