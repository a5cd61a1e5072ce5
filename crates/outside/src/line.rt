ghost use Rattle.std.specs.Prelude.{◌≡◌, [], ◌++◌, flat_map, OnOk};
ghost use Rattle.std.specs.Bool.{OnTrue, OnFalse};
ghost use Rattle.outside.specs.Gathered.{Gathers};
ghost use Rattle.outside.specs.Piece.{piece_text};
ghost use Rattle.outside.specs.Said.{Says};

use crate::traits::{Failed, Say};
use arrayvec::ArrayVec;
use itoa::Buffer;

/// A piece of a line that is said. A number is said in decimal digits, with `-` before a negative one.
#[derive(Clone, Copy, Debug)]
pub enum Piece<'a> {
    /// A text of the program's own.
    Word(&'static str),
    /// A text that was read, as a path or a glyph's name.
    Text(&'a str),
    /// A number that is never negative.
    Count(u64),
    /// A number that may be negative.
    Number(i64),
}

/// Says one text in one call.
fn say_text<T: Say>(say: &mut T, text: &str) -> Result<(), Failed>
    ensures { Says (T.state say.old) (T.state say.new) text.now result }
{
    say.say(text.as_bytes())
}

/// The part of a line that is gathered and not said yet.
#[derive(Drop)]
struct Line {
    text: ArrayVec<u8, 1024>,
}

impl Line {
    /// A line with no text.
    fn new() -> Line
        ensures { result.text.items ≡ [] }
    {
        Line {
            text: ArrayVec::new(),
        }
    }

    /// Gathers a text after what is gathered, where there is room for the whole of it, and answers whether there is.
    fn gather(&mut self, text: &str) -> bool
        ensures gathered { OnTrue result (self.new.text.items ≡ self.old.text.items ++ text.now) }
        ensures kept { OnFalse result (self.new.text.items ≡ self.old.text.items) }
    {
        self.text.try_extend_from_slice(text.as_bytes()).is_ok()
    }

    /// Says what is gathered, in one call, or in none where that is nothing. The room is empty then.
    fn flush<T: Say>(&mut self, say: &mut T) -> Result<(), Failed>
        ensures said { Says (T.state say.old) (T.state say.new) self.old.text.items result }
        ensures emptied { OnOk result (self.new.text.items ≡ []) }
    {
        if !self.text.is_empty() {
            say.say(self.text.as_slice())?;
            self.text.clear();
        }
        Ok(())
    }

    /// Gathers a text after what is gathered. Where there is no room for it, what is gathered is said first, and a text that is
    /// longer than the whole room is said by itself.
    fn push_text<T: Say>(&mut self, say: &mut T, text: &str) -> Result<(), Failed>
        ensures { Gathers (T.state say.old) (T.state say.new) self.old.text.items text.now self.new.text.items result }
    {
        if self.gather(text) {
            return Ok(());
        }
        self.flush(say)?;
        if self.gather(text) {
            return Ok(());
        }
        say_text(say, text)
    }

    /// Gathers a piece after what is gathered, as `push_text` does its text.
    fn push<T: Say>(&mut self, say: &mut T, piece: Piece<'_>) -> Result<(), Failed>
        ensures { Gathers (T.state say.old) (T.state say.new) self.old.text.items (piece_text piece.entry) self.new.text.items result }
    {
        match piece {
            Piece::Word(word) => self.push_text(say, word),
            Piece::Text(text) => self.push_text(say, text),
            Piece::Count(count) => self.push_text(say, Buffer::new().format(count)),
            Piece::Number(number) => self.push_text(say, Buffer::new().format(number)),
        }
    }
}

/// Says the pieces one after another as one line, and takes no memory.
///
/// A line of up to 1,024 bytes is said in one call of `say`, and one with no text in none. A longer one is said in calls of whole
/// pieces, up to 1,024 bytes each, and a piece that is itself longer in a call of its own. The first call that fails ends the
/// saying: what is said then is a prefix of the pieces' text.
pub fn say_all<T: Say>(say: &mut T, pieces: &[Piece<'_>]) -> Result<(), Failed>
    ensures { Says (T.state say.old) (T.state say.new) (flat_map piece_text pieces.now) result }
{
    let mut line = Line::new();
    for piece in pieces {
        line.push(say, *piece)?;
    }
    line.flush(say)
}

#[cfg(test)]
mod tests;
