//! The answer to a line.

use crate::bytes::show_bytes;
use std::alloc::Global;
use std::fmt::{Debug, Display, Write};

/// An answer, word by word, with single spaces between them.
///
/// Each call returns `None` if memory is refused, and the answer remembers that: whoever adds several
/// words need not look at what each call returns, since [`Answer::whole`] says it in the end.
#[derive(Drop)]
pub struct Answer {
    alloc: Global,
    text: String,
    is_whole: bool,
}

impl Answer {
    /// Begins an answer without words.
    pub fn new(alloc: Global) -> Answer {
        Answer {
            alloc,
            text: String::new(alloc),
            is_whole: true,
        }
    }

    /// Returns the words so far.
    pub fn text(&self) -> &str {
        self.text.as_str()
    }

    /// Returns the words so far, unless one of them isn't whole.
    pub fn whole(&self) -> Option<&str> {
        if self.is_whole {
            Some(self.text())
        } else {
            None
        }
    }

    /// Says that the answer isn't whole.
    pub fn cut(&mut self) -> Option<()> {
        self.is_whole = false;
        None
    }

    fn note(&mut self, put: Option<()>) -> Option<()> {
        match put {
            Some(()) => Some(()),
            None => self.cut(),
        }
    }

    /// Begins a word. What is put then belongs to it.
    pub fn begin(&mut self) -> Option<()> {
        if self.text.is_empty() {
            return Some(());
        }
        self.put(" ")
    }

    /// Puts a text into the word.
    pub fn put(&mut self, text: &str) -> Option<()> {
        let put = self.text.push_str(text).ok();
        self.note(put)
    }

    /// Puts what a value displays into the word.
    pub fn put_shown<T: Display + Drop>(&mut self, value: T) -> Option<()> {
        let put = write!(self.text, "{value}").ok();
        self.note(put)
    }

    /// Puts bytes into the word.
    pub fn put_bytes(&mut self, bytes: &[u8]) -> Option<()> {
        let put = show_bytes(self.alloc, &mut self.text, bytes);
        self.note(put)
    }

    /// Adds a word.
    pub fn word(&mut self, word: &str) -> Option<()> {
        self.begin()?;
        self.put(word)
    }

    /// Adds bytes.
    pub fn bytes(&mut self, bytes: &[u8]) -> Option<()> {
        self.begin()?;
        self.put_bytes(bytes)
    }

    /// Adds what a value displays: a number, or the text of a fault.
    pub fn shown<T: Display + Drop>(&mut self, value: T) -> Option<()> {
        self.begin()?;
        self.put_shown(value)
    }

    /// Adds the name of a value.
    pub fn named<T: Debug + Drop>(&mut self, value: T) -> Option<()> {
        self.begin()?;
        let put = write!(self.text, "{value:?}").ok();
        self.note(put)
    }

    /// Adds `true` or `false`.
    pub fn truth(&mut self, holds: bool) -> Option<()> {
        self.word(if holds { "true" } else { "false" })
    }

    /// Adds what a value displays, or `none`.
    pub fn shown_or_none<T: Display + Drop>(&mut self, value: Option<T>) -> Option<()> {
        match value {
            Some(value) => self.shown(value),
            None => self.word("none"),
        }
    }
}
