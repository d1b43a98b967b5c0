ghost use Rattle.std.specs.Prelude.{◌≡◌, true, find, IfSome};
ghost use Rattle.book_words.specs.Desks.{same_number};
ghost use Rattle.paper_form.specs.Papers.{is_tare_in_range, is_pack_in_range};
ghost use Rattle.paper_form.specs.Drafts.{data_of};
ghost use Rattle.paper_form.specs.Ranges.{IsListed};
ghost use Rattle.paper_check.specs.Keyed.{AreKeysOf};
ghost use Rattle.paper_check.specs.Judging.{pack_with};

use crate::keys::place_of;
use crate::tares::Keys;
use pack_judge::DatedTare;
use paper_form::{Pack, Paper, Pick};

/// The tare of the day of a pack, where a line gives one.
pub fn find_tare(paper: &Paper, keys: &Keys, pack: &Pack) -> Option<DatedTare>
    requires listed { IsListed (data_of paper.now) }
    requires keys { AreKeysOf (data_of paper.now) keys.now }
    requires range { is_pack_in_range pack.now ≡ true }
    ensures value { result
        ≡ find (λ dated. same_number dated.day pack.now.day) (data_of paper.now).tares }
    ensures range { IfSome result (λ dated. is_tare_in_range dated ≡ true) }
{
    match place_of(&keys.days, u64::from(pack.day.unsigned_abs())) {
        Some(place) => Some(paper.tares[place]),
        None => None,
    }
}

/// The line of the pack of this number, where there is one.
pub fn find_pack(paper: &Paper, keys: &Keys, pick: &Pick) -> Option<Pack>
    requires listed { IsListed (data_of paper.now) }
    requires keys { AreKeysOf (data_of paper.now) keys.now }
    ensures value { result ≡ pack_with (data_of paper.now).packs pick.now.pack }
    ensures range { IfSome result (λ pack. is_pack_in_range pack ≡ true) }
{
    match place_of(&keys.numbers, u64::from(pick.pack)) {
        Some(place) => Some(paper.packs[place]),
        None => None,
    }
}
