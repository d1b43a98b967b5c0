ghost use Rattle.std.specs.Prelude.{◌≡◌};
ghost use Rattle.script_lines.specs.Words.{words_of};
ghost use Rattle.script_lines.specs.Script.{work_line};

use crate::command::Line;
use crate::fields::read_working_lane;
use crate::words::{first_word, only_word};
use book_words::Name;

/// `work LANE BATCH`, without its first word, where so many lanes may work.
pub fn read_work(lanes: u8, rest: &[u8]) -> Option<Line>
    ensures { result ≡ work_line lanes (words_of rest.now) }
{
    let (number, rest) = first_word(rest)?;
    let batch = only_word(rest)?;
    let lane = read_working_lane(lanes, number)?;
    let batch = Name::new(batch)?;
    Some(Line::Works { lane, batch })
}
