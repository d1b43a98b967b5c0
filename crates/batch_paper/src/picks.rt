ghost use Rattle.std.specs.Prelude.{◌≡◌, ◌<◌, ◌^◌, ◌++◌, All, OnOk, IsTrue, map};
ghost use Rattle.std.specs.List.{AllPass, flat_map};
ghost use Rattle.paper_form.specs.declared.types.Line.TheVariants as line;
ghost use Rattle.paper_form.specs.Papers.{line_text};
ghost use Rattle.batch_paper.specs.Ranges.{is_line_right, is_pick_weighed};
ghost use Rattle.batch_paper.specs.Written.{weighed_of, pick_of, pick_line};

use crate::lines::write_line;
use annex_tables::Mode;
use book_samples::Measured;
use book_state::State;
use paper_form::{Line, Pick, Weighed};
use std::alloc::AllocError;

/// Which sample a pack was drawn into.
#[derive(Clone, Copy, PartialEq, Eq)]
pub enum Part {
    First,
    Second,
}

// What was measured, as a paper says it: where packs are kept, no pack is weighed empty.
fn weighed_of(mode: Mode, measured: &Measured) -> Weighed
    ensures { result ≡ weighed_of mode measured.now }
{
    match mode {
        Mode::Keep => Weighed {
            gross: measured.gross(),
            empty: 0,
        },
        Mode::Destroy => Weighed {
            gross: measured.gross(),
            empty: measured.empty(),
        },
    }
}

// A drawn pack, with what was measured of it.
fn pick_of(state: &State, mode: Mode, pack: u64) -> Pick
    requires pack { pack < 2 ^ 32 }
    ensures value { result ≡ pick_of state.now.entries mode pack }
{
    let weighed = match state.measured(pack as u32) {
        Some(measured) => Some(weighed_of(mode, &measured)),
        None => None,
    };
    Pick {
        pack: pack as u32,
        weighed,
    }
}

// The line of a pack of a sample.
fn pick_line(part: Part, pick: Pick) -> Line
    ensures value { result ≡ pick_line part pick }
    ensures right { is_line_right result ≡ is_pick_weighed pick }
{
    match part {
        Part::First => Line::First(pick),
        Part::Second => Line::Second(pick),
    }
}

/// Writes the lines of the packs of a sample behind the text so far.
pub fn write_picks(
    to: &mut Vec<u8>,
    state: &State,
    part: Part,
    mode: Mode,
    packs: &[u64],
) -> Result<(), AllocError>
    requires rows { All (λ pack. pack < 2 ^ 32) packs.now }
    requires range { AllPass (λ pack. is_pick_weighed (pick_of state.now.entries mode pack))
        packs.now }
    ensures { OnOk result (to.new.items ≡ to.old.items ++ flat_map line_text
        (map (pick_line part) (map (pick_of state.now.entries mode) packs.now))) }
{
    for pack in packs {
        write_line(to, &pick_line(part, pick_of(state, mode, *pack)))?;
    }
    Ok(())
}
