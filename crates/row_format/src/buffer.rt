use book_snapshot::ROW_BYTES;
use book_words::Name;
use hall_limits::NAME_BYTES;
use std::marker::Model;

/// The first bytes of a row, to which fields are added. Zeros follow them.
pub struct RowBuffer {
    bytes: [u8; ROW_BYTES],
    place: usize,
}

impl Model for RowBuffer {
    ghost use Rattle.std.specs.Prelude.{ℕ, List, take};
    ghost use Rattle.row_format.specs.Filling.{IsFilledUp};

    ghost Value = { List ℕ };

    ghost view = { λ row. take row.place row.bytes };

    ghost invariant = { λ row. IsFilledUp row.place row.bytes };
}

impl RowBuffer {
    ghost use Rattle.std.specs.Prelude.{◌≡◌, ◌+◌, ◌≤◌, [], ◌∷◌, ◌++◌, length, replicate};
    ghost use Rattle.row_format.specs.Spelling.{four_field, filled, name_field};
    ghost use Rattle.row_format.specs.Allowed.{IsGross};

    /// No field yet.
    pub fn new() -> RowBuffer
        ensures { result ≡ [] }
    {
        RowBuffer {
            bytes: [0; ROW_BYTES],
            place: 0,
        }
    }

    /// The row with these fields.
    pub fn into_row(self) -> [u8; ROW_BYTES]
        ensures { result ≡ filled ROW_BYTES self }
    {
        let RowBuffer { bytes, place: _ } = self;
        bytes
    }

    /// Adds a field.
    #[inline]
    pub fn push(&mut self, field: &[u8])
        requires { length self.old + length field.now ≤ ROW_BYTES }
        ensures { self.new ≡ self.old ++ field.now }
    {
        let end = self.place + field.len();
        self.bytes[self.place..end].copy_from_slice(field);
        self.place = end;
    }

    /// Adds zeros.
    pub fn pass_over(&mut self, count: usize)
        requires { length self.old + count ≤ ROW_BYTES }
        ensures { self.new ≡ self.old ++ replicate count 0 }
    {
        self.place += count;
    }

    /// Adds a name: its length, its bytes, and zeros up to the most that a name has.
    pub fn push_name(&mut self, name: &Name)
        requires { length self.old + (1 + NAME_BYTES) ≤ ROW_BYTES }
        ensures { self.new ≡ self.old ++ name_field NAME_BYTES name.now }
    {
        let bytes = name.as_bytes();
        self.push(&[bytes.len() as u8]);
        self.push(bytes);
        self.pass_over(NAME_BYTES - bytes.len());
    }

    /// Adds a mass of four bytes.
    pub fn push_mass(&mut self, mass: &i64)
        requires room { length self.old + 4 ≤ ROW_BYTES }
        requires range { IsGross mass.now }
        ensures { self.new ≡ self.old ++ four_field mass.now }
    {
        self.push(&(mass.unsigned_abs() as u32).to_le_bytes());
    }
}
