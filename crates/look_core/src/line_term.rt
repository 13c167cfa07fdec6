ghost use Rattle.std.specs.Prelude.{◌≡◌};
ghost use Rattle.look_core.specs.Terminators.{one_of, two_of, ends_line};

use std::marker::Model;

/// The line terminator: one byte or two, each of which ends a line by itself.
#[derive(Clone, Copy, Debug, PartialEq, Eq)]
pub struct LineTerm {
    first: u8,
    second: Option<u8>,
}

impl Model for LineTerm {
    ghost use Rattle.look_core.specs.Terminators.{Terminator, IsTerminator};

    ghost Value = { Terminator };

    ghost view = { λ t. (t.first, t.second) };

    ghost invariant = { λ t. IsTerminator (t.first, t.second) };

    ghost inverse = { λ v. record { first = v.0; second = v.1 } };
}

impl LineTerm {
    /// A terminator with which this byte alone ends a line.
    pub fn one(byte: u8) -> LineTerm
        ensures { result ≡ one_of byte }
    {
        LineTerm {
            first: byte,
            second: None,
        }
    }

    /// A terminator with which each of the two bytes ends a line, in whichever order they are given. Equal
    /// bytes are one.
    pub fn two(a: u8, b: u8) -> LineTerm
        ensures { result ≡ two_of a b }
    {
        if a == b {
            LineTerm::one(a)
        } else if a < b {
            LineTerm {
                first: a,
                second: Some(b),
            }
        } else {
            LineTerm {
                first: b,
                second: Some(a),
            }
        }
    }

    /// Whether the byte ends a line.
    pub fn contains(&self, byte: u8) -> bool
        ensures { result ≡ ends_line self.now byte }
    {
        self.first == byte || self.second == Some(byte)
    }

    /// The least byte that ends a line.
    pub fn first(&self) -> u8
        ensures { result ≡ self.now.0 }
    {
        self.first
    }

    /// The greatest byte that ends a line, if there are two.
    pub fn second(&self) -> Option<u8>
        ensures { result ≡ self.now.1 }
    {
        self.second
    }
}

impl Default for LineTerm {
    /// The line feed, `\n`.
    fn default() -> LineTerm
        ensures { result ≡ one_of 0x0A }
    {
        LineTerm::one(b'\n')
    }
}
