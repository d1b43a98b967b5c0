ghost use Rattle.std.specs.Prelude.{◌≡◌, ◌+◌, ◌≤◌, ◌∷◌, decimal};
ghost use Rattle.book_words.specs.Names.{bytes_of};
ghost use Rattle.trial_run.specs.TrialScripts.{trial_product, batch_name};

use book_words::Name;
use hall_limits::NAME_BYTES;
use itoa::write_digits;

/// The product of a trial.
pub fn product_name() -> Name
    ensures { result ≡ trial_product }
{
    Name::new(b"trial").unwrap()
}

/// The name of the batch at a place, from 0: a `T` and its number, from 1.
pub fn batch_name(place: u32) -> Name
    requires room { place + 1 ≤ u32.MAX }
    ensures name { result ≡ batch_name place }
    ensures bytes { bytes_of result ≡ 84 ∷ decimal (place + 1) }
{
    let mut text = [b'T'; NAME_BYTES];
    let digits = write_digits(u64::from(place + 1), &mut text, NAME_BYTES);
    Name::new(&text[digits - 1..]).unwrap()
}
