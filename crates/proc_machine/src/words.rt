//! The words of a process's variables.

ghost use Rattle.std.specs.Prelude.{◌≡◌, ℕ, ◌+◌, ◌<◌, ◌≤◌, ◌^◌, ◌++◌, length, take, replicate, slice_index, slice_set, IfOk};
ghost use Rattle.std.specs.List.{AllWithin};
ghost use Rattle.c_tree.specs.Storage.{zeroed};

use nm_base::{MAX_DATA_WORDS, WantOfMemory};
use std::alloc::Global;
use std::marker::Model;

/// How many words a process may have.
pub(crate) const WORDS_LIMIT: usize = MAX_DATA_WORDS as usize;

/// The words of the globals and then of each frame, the outermost first, with memory for all that
/// there may be.
#[derive(Drop)]
pub(crate) struct Words {
    items: Vec<u32>,
}

/// The word of that number, and 0 past the last.
pub(crate) fn word_or_zero(words: &[u64], i: usize) -> u32
    requires { AllWithin (λ x. x < 2 ^ 32) words.now 0 (length words.now) }
    ensures { result ≡ slice_index words.now i }
{
    if i < words.len() { words[i] as u32 } else { 0 }
}

impl Model for Words {
    ghost use Rattle.std.specs.Prelude.{ℕ, ◌≤◌, List};
    ghost use Rattle.std.specs.Vec.{vec_len, vec_capacity};
    ghost use Rattle.nm_base.specs.declared.limits.TheConstants.{MAX_DATA_WORDS};

    ghost Value = { List ℕ };

    ghost view = { λ w. w.items.items };

    ghost invariant = { λ w. (vec_len w.items ≤ MAX_DATA_WORDS) × (MAX_DATA_WORDS ≤ vec_capacity w.items) };
}

impl Words {
    /// These words, with memory for more.
    pub(crate) fn from_slice(alloc: Global, words: &[u32]) -> Result<Words, WantOfMemory>
        requires { length words.now ≤ MAX_DATA_WORDS }
        ensures { IfOk result (λ w. w ≡ words.now) }
    {
        let mut items = Vec::with_capacity(alloc, WORDS_LIMIT)?;
        items.extend_from_slice(words)?;
        Ok(Words { items })
    }

    pub(crate) fn len(&self) -> usize
        ensures same { result ≡ length self.now }
        ensures within { result ≤ MAX_DATA_WORDS }
    {
        self.items.len()
    }

    /// The word at a place, and 0 past the last.
    pub(crate) fn get(&self, place: u64) -> u32
        ensures { result ≡ slice_index self.now place }
    {
        match self.items.get(place as usize) {
            Some(word) => *word,
            None => 0,
        }
    }

    /// Writes the word at a place; past the last nothing is written.
    pub(crate) fn set(&mut self, place: u64, word: u32)
        ensures { self.new ≡ slice_set self.old place word }
    {
        if (place as usize) < self.items.len() {
            self.items[place as usize] = word;
        }
    }

    /// So many words from a place on become 0.
    pub(crate) fn clear(&mut self, place: u64, len: u32)
        requires { place < 2 ^ 63 }
        ensures { self.new ≡ zeroed len place self.old }
    {
        let mut at = place;
        for _ in 0..len {
            self.set(at, 0);
            at += 1;
        }
    }

    /// Adds the words of a frame: first these, and then 0.
    pub(crate) fn open(&mut self, first: &[u64], size: u32)
        requires room { length self.old + size ≤ MAX_DATA_WORDS }
        requires words { AllWithin (λ x. x < 2 ^ 32) first.now 0 (length first.now) }
        ensures { self.new ≡ self.old ++ take size (first.now ++ replicate size 0) }
    {
        for i in 0..size as usize {
            self.items.push_reserved(word_or_zero(first, i));
        }
    }

    /// Takes off the words from a place on.
    pub(crate) fn close(&mut self, base: u32)
        ensures { self.new ≡ take base self.old }
    {
        self.items.truncate(base as usize);
    }

    /// The same words, with as much memory.
    pub(crate) fn copy(&self, alloc: Global) -> Result<Words, WantOfMemory>
        ensures { IfOk result (λ w. w ≡ self.now) }
    {
        Words::from_slice(alloc, self.items.as_slice())
    }
}
