ghost use Rattle.std.specs.Prelude.{◌≡◌};
ghost use Rattle.book_views.specs.Tallies as tallies;

use pack_judge::Tally;

/// Four piles together: how many readings, and the sum of their grosses in mg.
pub fn add_up(passed: &Tally, rejected: &Tally, sampled: &Tally, voided: &Tally) -> Tally
    requires passed { tallies.IsTally passed.now }
    requires rejected { tallies.IsTally rejected.now }
    requires sampled { tallies.IsTally sampled.now }
    requires voided { tallies.IsTally voided.now }
    ensures { result ≡ tallies.all_of passed.now rejected.now sampled.now voided.now }
{
    Tally {
        count: passed.count + rejected.count + sampled.count + voided.count,
        gross: passed.gross + rejected.gross + sampled.gross + voided.gross,
    }
}
