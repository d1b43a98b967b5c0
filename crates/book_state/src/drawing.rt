ghost use Rattle.std.specs.Prelude.{◌≡◌, [], None, Some, IfOk, IsOk, true, false, is_some};
ghost use Rattle.book_words.specs.declared.act.Act.TheVariants as act;
ghost use Rattle.book_words.specs.Acts.{product_of};
ghost use Rattle.book_words.specs.Refusals.{first_refusal, refusals_of};
ghost use Rattle.book_state.specs.Prepared.{drawn_by, is_drawing};

use crate::drawn::Drawn;
use crate::state::State;
use crate::types::NoMemory;
use annex_tables::Mode;
use book_samples::{draw_first, draw_second};
use book_words::{Act, Name};
use std::alloc::Global;

impl State {
    /// Draws what an act draws that may be entered. It takes memory for a draw alone.
    pub fn draw(&self, alloc: Global, act: &Act) -> Result<Drawn, NoMemory>
        requires free { first_refusal (refusals_of self.now.entries act.now) ≡ None }
        ensures drawn { IfOk result (λ drawn. drawn ≡ drawn_by self.now.entries act.now) }
        ensures sure { is_drawing act.now ≡ false → IsOk result }
    {
        match act {
            Act::Draw { batch, mode, word } => self.draw_once(alloc, batch, *mode, *word),
            Act::DrawSecond { batch, word } => self.draw_again(alloc, batch, *word),
            _ => Ok(Drawn {
                first: None,
                second: None,
            }),
        }
    }

    // Draws the first sample of a batch.
    fn draw_once(
        &self,
        alloc: Global,
        batch: &Name,
        mode: Mode,
        word: u64,
    ) -> Result<Drawn, NoMemory>
        requires free { first_refusal (refusals_of self.now.entries (act.Draw batch.now mode word))
            ≡ None }
        ensures { IfOk result (λ drawn.
            drawn ≡ drawn_by self.now.entries (act.Draw batch.now mode word)) }
    {
        let Some(number) = self.index.batch_number(batch) else {
            unreachable!()
        };
        let packs = self.packs.population(alloc, number)?;
        let first = draw_first(alloc, mode, word, &packs)?;
        Ok(Drawn {
            first: Some(first),
            second: None,
        })
    }

    // Draws the second sample of a batch.
    fn draw_again(&self, alloc: Global, batch: &Name, word: u64) -> Result<Drawn, NoMemory>
        requires free { first_refusal (refusals_of self.now.entries (act.DrawSecond batch.now word))
            ≡ None }
        ensures { IfOk result (λ drawn.
            drawn ≡ drawn_by self.now.entries (act.DrawSecond batch.now word)) }
    {
        let Some(number) = self.index.batch_number(batch) else {
            unreachable!()
        };
        let Some(sample) = self.samples.sample(number) else {
            unreachable!()
        };
        let packs = self.packs.population(alloc, number)?;
        let second = draw_second(alloc, sample, word, &packs)?;
        Ok(Drawn {
            first: None,
            second: Some(second),
        })
    }
}
