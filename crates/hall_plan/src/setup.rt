use std::alloc::{AllocError, Global};
use std::marker::Model;

/// The script of a plan, seen as the list of its bytes.
#[derive(Drop)]
pub struct Setup {
    text: String,
}

impl Model for Setup {
    ghost use Rattle.std.specs.Prelude.{ℕ, List};
    ghost use Rattle.std.specs.String.{string_bytes};

    ghost Value = { List ℕ };

    ghost view = { λ setup. string_bytes setup.text };
}

impl Setup {
    ghost use Rattle.std.specs.Prelude.{◌≡◌, IfOk};

    /// A copy of a text.
    pub fn new(alloc: Global, text: &str) -> Result<Setup, AllocError>
        ensures { IfOk result (λ setup. setup ≡ text.now) }
    {
        Ok(Setup {
            text: String::from_str(alloc, text)?,
        })
    }

    /// Its bytes, which are UTF-8.
    pub fn as_bytes(&self) -> &[u8]
        ensures { result.now ≡ self.now }
    {
        self.text.as_bytes()
    }
}
