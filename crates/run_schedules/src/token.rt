//! A word of a script: a name or a value.
use std::alloc::{AllocError, Global};
use std::marker::Model;

/// The bytes of a word, ASCII letters, digits or `_`. Clauses see the list of them.
#[derive(Drop)]
pub struct Token {
    bytes: Vec<u8>,
}

impl Model for Token {
    ghost use Rattle.std.specs.Prelude.{ℕ, List};

    ghost Value = { List ℕ };

    ghost view = { λ w. w.bytes.items };
}

impl Token {
    ghost use Rattle.std.specs.Prelude.{◌≡◌, ◌↔◌, IfOk, IsTrue};
    ghost use Rattle.run_schedules.specs.Runs.Same.{is_same};

    /// Makes a copy of these bytes.
    pub fn copy_of(alloc: Global, bytes: &[u8]) -> Result<Self, AllocError>
        ensures { IfOk result (λ word. word ≡ bytes.now) }
    {
        Ok(Token {
            bytes: Vec::from_slice(alloc, bytes)?,
        })
    }

    /// Returns its bytes.
    pub fn as_bytes(&self) -> &[u8]
        ensures { result.now ≡ self.now }
    {
        self.bytes.as_slice()
    }

    /// Returns whether the two have the same bytes.
    pub fn is(&self, other: &Token) -> bool
        ensures same { result ≡ is_same self.now other.now }
        ensures words { IsTrue result ↔ (self.now ≡ other.now) }
    {
        self.bytes.as_slice() == other.bytes.as_slice()
    }
}
