ghost use Rattle.std.specs.Prelude.{◌≡◌, ◌++◌, [], OnOk, string_bytes, encode_utf8};
ghost use Rattle.markup.specs.Views.{piece_bytes, text_bytes};

use basics::NoMemory;
use std::alloc::Global;

/// A run of characters, or the character that a reference stands for.
#[derive(Clone, Copy)]
pub(crate) enum Piece<'a> {
    Run(&'a str),
    Character(char),
}

/// Characters, with those that references stand for: borrowed from the source where they are one run of it.
#[derive(Drop)]
pub(crate) enum Text<'a> {
    Borrowed(&'a str),
    Owned(String),
}

impl<'a> Text<'a> {
    /// No characters.
    pub(crate) fn new() -> Text<'a>
        ensures { text_bytes result ≡ [] }
    {
        Text::Borrowed("")
    }

    /// The characters, borrowed.
    pub(crate) fn as_str(&self) -> &str
        ensures { result.now ≡ text_bytes self.now }
    {
        match self {
            Text::Borrowed(text) => text,
            Text::Owned(text) => text.as_str(),
        }
    }

    /// Adds a run.
    pub(crate) fn push_run(&mut self, alloc: Global, run: &'a str) -> Result<(), NoMemory>
        ensures { OnOk result (text_bytes self.new ≡ text_bytes self.old ++ run.now) }
    {
        match self {
            Text::Owned(text) => text.push_str(run)?,
            Text::Borrowed(before) => {
                if before.is_empty() {
                    *before = run;
                } else {
                    let mut text = String::from_str(alloc, before)?;
                    text.push_str(run)?;
                    *self = Text::Owned(text);
                }
            }
        }
        Ok(())
    }

    /// Adds a character.
    fn push(&mut self, alloc: Global, c: char) -> Result<(), NoMemory>
        ensures { OnOk result (text_bytes self.new ≡ text_bytes self.old ++ encode_utf8 c) }
    {
        match self {
            Text::Owned(text) => text.push(c)?,
            Text::Borrowed(before) => {
                let mut text = String::from_str(alloc, before)?;
                text.push(c)?;
                *self = Text::Owned(text);
            }
        }
        Ok(())
    }

    /// Adds a run or a character.
    pub(crate) fn push_piece(&mut self, alloc: Global, piece: Piece<'a>) -> Result<(), NoMemory>
        ensures { OnOk result (text_bytes self.new ≡ text_bytes self.old ++ piece_bytes piece.entry) }
    {
        match piece {
            Piece::Run(run) => self.push_run(alloc, run),
            Piece::Character(c) => self.push(alloc, c),
        }
    }

    /// Adds other characters.
    pub(crate) fn push_text(&mut self, alloc: Global, more: Text<'a>) -> Result<(), NoMemory>
        ensures { OnOk result (text_bytes self.new ≡ text_bytes self.old ++ text_bytes more.entry) }
    {
        match more {
            Text::Borrowed(run) => self.push_run(alloc, run),
            Text::Owned(more) => {
                let mut text = String::from_str(alloc, self.as_str())?;
                text.push_str(more.as_str())?;
                *self = Text::Owned(text);
                Ok(())
            }
        }
    }
}
