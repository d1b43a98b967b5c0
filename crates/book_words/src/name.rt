ghost use Rattle.std.specs.Prelude.{IsTrue};
ghost use Rattle.book_words.specs.NamePlaces.{is_padded};

use hall_limits::NAME_BYTES;

/// The name of a product or a batch: 1 to 32 bytes.
///
/// The places after its bytes hold 0, so that two names are equal exactly where their bytes are.
#[derive(Clone, Copy, Debug, PartialEq, Eq)]
pub struct Name {
    len: u8,
    places: [u8; NAME_BYTES],
    ghost padded: { IsTrue (is_padded len places) },
}

impl Name {
    ghost use Rattle.std.specs.Prelude.{◌≡◌, ◌↔◌, length, true, IfSome, IsSome};
    ghost use Rattle.book_words.specs.NamePlaces.{is_name_length};
    ghost use Rattle.book_words.specs.Names.{bytes_of, name_of, same_name};

    /// The name of these bytes; `None` exactly where they aren't 1 to 32.
    pub fn new(bytes: &[u8]) -> Option<Name>
        ensures value { result ≡ name_of bytes.now }
        ensures bytes { IfSome result (λ name. bytes_of name ≡ bytes.now) }
        ensures length { IsSome result ↔ (is_name_length (length bytes.now) ≡ true) }
    {
        if bytes.is_empty() || bytes.len() > NAME_BYTES {
            return None;
        }
        Some(Name::padded(bytes))
    }

    // The name of 1 to 32 bytes.
    fn padded(bytes: &[u8]) -> Name
        requires { is_name_length (length bytes.now) ≡ true }
        ensures { bytes_of result ≡ bytes.now }
    {
        let mut places = [0; NAME_BYTES];
        places[..bytes.len()].copy_from_slice(bytes);
        Name {
            len: bytes.len() as u8,
            places,
        }
    }

    /// The bytes of the name.
    pub fn as_bytes(&self) -> &[u8]
        ensures { result.now ≡ bytes_of self.now }
    {
        &self.places[..self.len as usize]
    }

    /// Whether two names are the same: their bytes are.
    pub fn is(&self, other: &Name) -> bool
        ensures { result ≡ same_name self.now other.now }
    {
        self.as_bytes() == other.as_bytes()
    }
}
