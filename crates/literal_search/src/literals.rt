//! Lists of literals.
ghost use Rattle.std.specs.Prelude.{◌≡◌, ◌<◌, ◌++◌, ◌∷◌, [], length, map, slice_index_or, OnOk};

use std::alloc::{AllocError, Global};
use std::marker::Model;

/// A list of literals, each a string of bytes. A contract sees it as the list of these strings.
#[derive(Debug, Drop)]
pub struct Literals {
    items: Vec<Vec<u8>>,
}

impl Model for Literals {
    ghost use Rattle.std.specs.Prelude.{ℕ, List, map};

    ghost Value = { List (List ℕ) };

    ghost view = { λ a. map (λ v. v.items) a.items.items };
}

impl Literals {
    /// A list without literals.
    pub fn new(alloc: Global) -> Literals
        ensures { result ≡ [] }
    {
        Literals {
            items: Vec::new(alloc),
        }
    }

    /// The number of literals.
    pub fn len(&self) -> usize
        ensures { result ≡ length self.now }
    {
        self.items.len()
    }

    /// Whether there is no literal.
    pub fn is_empty(&self) -> bool {
        self.items.is_empty()
    }

    /// The literal with this number.
    pub fn get(&self, n: usize) -> &[u8]
        requires { n < length self.now }
        ensures { result.now ≡ slice_index_or self.now n [] }
    {
        self.items[n].as_slice()
    }

    /// Appends a literal. The call fails only if it is out of memory.
    pub fn push(&mut self, bytes: Vec<u8>) -> Result<(), AllocError>
        ensures { OnOk result (self.new ≡ self.old ++ bytes.items ∷ []) }
    {
        self.items.push(bytes)?;
        Ok(())
    }

    /// The literals as a vector.
    pub fn into_items(self) -> Vec<Vec<u8>>
        ensures { map (λ v. v.items) result.items ≡ self }
    {
        self.items
    }
}
