ghost use Rattle.std.specs.Prelude.{◌≡◌, ◌≢◌, ℕ, ◌<◌, ◌≤◌, ◌/◌, length, true, false, vec_capacity, vec_len, IfOk, IsOk, OnOk, OnErr};
ghost use Rattle.nfa_core.specs.NameSets.{is_in};
ghost use Rattle.nfa_core.specs.Marked.{is_marked, words_below};

use search_core::StateID;
use std::alloc::{AllocError, Global};

/// A table with a bit for each number, 64 of them in a word. A number whose bit is set is marked.
#[derive(Drop)]
pub(crate) struct Marks {
    pub(crate) words: Vec<u64>,
}

/// How many words have a bit for each number below `bound`.
fn words_below(bound: usize) -> usize
    ensures { result ≡ words_below bound }
{
    bound.div_ceil(64)
}

impl Marks {
    /// A table for the numbers below `bound`, with none of them marked.
    pub(crate) fn new(alloc: Global, bound: usize) -> Result<Marks, AllocError>
        ensures len { IfOk result (λ m. length m.words.items ≡ words_below bound) }
        ensures none { IfOk result (λ m. (n : ℕ) → is_marked m.words.items n ≡ false) }
        ensures succeeds { bound ≡ 0 → IsOk result }
    {
        let mut words = Vec::new(alloc);
        words.resize(words_below(bound), 0)?;
        Ok(Marks { words })
    }

    /// Makes a table without marks a table for the numbers below `bound`.
    pub(crate) fn resize(&mut self, bound: usize) -> Result<(), AllocError>
        requires { (n : ℕ) → is_marked self.old.words.items n ≡ false }
        ensures none { (n : ℕ) → is_marked self.new.words.items n ≡ false }
        ensures len { OnOk result (length self.new.words.items ≡ words_below bound) }
        ensures err { OnErr result (length self.new.words.items ≡ length self.old.words.items) }
        ensures shrinks { words_below bound ≤ length self.old.words.items → IsOk result }
    {
        self.words.resize(words_below(bound), 0)
    }

    #[inline(always)]
    pub(crate) fn is_marked(&self, number: usize) -> bool
        requires { number / 64 < length self.now.words.items }
        ensures { result ≡ is_marked self.now.words.items number }
    {
        (self.words[number / 64] >> (number % 64)) & 1 == 1
    }

    #[inline(always)]
    pub(crate) fn mark(&mut self, number: usize)
        requires { number / 64 < length self.old.words.items }
        ensures marked { is_marked self.new.words.items number ≡ true }
        ensures others { (n : ℕ) → n ≢ number → is_marked self.new.words.items n ≡ is_marked self.old.words.items n }
        ensures len { length self.new.words.items ≡ length self.old.words.items }
    {
        self.words[number / 64] |= 1 << (number % 64);
    }

    /// Unmarks the numbers, which must be all that are marked. So the whole word of each number is cleared.
    pub(crate) fn unmark(&mut self, names: &[StateID])
        requires in_range { (n : ℕ) → is_in n names.now ≡ true → n / 64 < length self.old.words.items }
        requires all { (n : ℕ) → is_marked self.old.words.items n ≡ true → is_in n names.now ≡ true }
        ensures none { (n : ℕ) → is_marked self.new.words.items n ≡ false }
        ensures len { length self.new.words.items ≡ length self.old.words.items }
    {
        for name in names {
            self.words[name.as_usize() / 64] = 0;
        }
    }
}
