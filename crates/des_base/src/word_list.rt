// The words of a command.
ghost use Rattle.std.specs.Prelude.{◌≡◌, ◌<◌, List, [], ◌∷◌, ◌++◌, length, OnOk, OnErr};
ghost use Rattle.des_base.specs.CommandWords.{word_at};

use crate::memory::Memory;
use std::alloc::Global;
use std::marker::Model;

#[derive(Drop)]
struct Word {
    text: String,
}

impl Model for Word {
    ghost use Rattle.std.specs.Prelude.{List, ℕ, string_bytes};

    ghost Value = { List ℕ };

    ghost view = { λ a. string_bytes a.text };
}

impl Word {
    fn text(&self) -> &str
        ensures { result.now ≡ self.now }
    {
        self.text.as_str()
    }
}

/// The words of a command, each kept as its own copy. Places are counted from 0.
#[derive(Drop)]
pub struct WordList {
    words: Vec<Word>,
    alloc: Global,
}

impl Model for WordList {
    ghost use Rattle.std.specs.Prelude.{List, ℕ};

    ghost Value = { List (List ℕ) };

    ghost view = { λ a. a.words.items };
}

impl WordList {
    /// No words.
    pub fn new(alloc: Global) -> WordList
        ensures { result ≡ [] }
    {
        WordList {
            words: Vec::new(alloc),
            alloc,
        }
    }

    /// Appends a copy of the word.
    pub fn push(&mut self, word: &str) -> Result<(), Memory>
        ensures ok { OnOk result (self.new ≡ self.old ++ word.now ∷ []) }
        ensures err { OnErr result (self.new ≡ self.old) }
    {
        let word = Word {
            text: String::from_str(self.alloc, word)?,
        };
        self.words.push(word)?;
        Ok(())
    }

    /// How many words there are.
    pub fn len(&self) -> usize
        ensures { result ≡ length self.now }
    {
        self.words.len()
    }

    /// The word at a place.
    pub fn word(&self, place: usize) -> &str
        requires { place < length self.now }
        ensures { result.now ≡ word_at self.now place }
    {
        self.words[place].text()
    }
}
