//! How a text is kept: a short one in the value itself, so that it takes no memory of its own.

ghost use Rattle.std.specs.Prelude.{◌≡◌, ◌≤◌, List, ℕ, IfOk, length, take, IsTrue};
ghost use Rattle.std.specs.Str.{is_utf8};

use crate::fault::NoMemory;
use std::alloc::Global;
use std::marker::Model;

/// The most bytes of a short text. With its length and the tag of `Kept` it takes 16 bytes, as a long
/// one's pointer and tag do.
const SHORT: usize = 14;

/// A short text.
#[derive(Drop)]
pub(crate) struct Short {
    bytes: [u8; SHORT],
    len: u8,
}

impl Model for Short {
    ghost Value = { List ℕ };

    ghost view = { λ s. take s.len s.bytes };

    ghost invariant = { λ s. (s.len ≤ 14) × IsTrue (is_utf8 (take s.len s.bytes)) };
}

impl Short {
    /// A copy of the text.
    fn from_str(text: &str) -> Short
        requires { length text.now ≤ 14 }
        ensures { result ≡ text.now }
    {
        let mut bytes = [0; SHORT];
        bytes[..text.len()].copy_from_slice(text.as_bytes());
        Short {
            bytes,
            len: text.len() as u8,
        }
    }

    /// The text, borrowed.
    fn as_str(&self) -> &str
        ensures { result.now ≡ self.now }
    {
        let bytes = &self.bytes[..usize::from(self.len)];
        // The bytes are those of a text, as the invariant says.
        unsafe { str::from_utf8_unchecked(bytes) }
    }
}

/// A text as it is kept. Most names, numbers and values of attributes are short.
#[derive(Drop)]
pub(crate) enum Kept {
    Short(Short),
    Long(Box<String>),
}

impl Kept {
    ghost use Rattle.basics.specs.Kept.{kept_bytes};

    /// Keeps a copy of the text.
    pub(crate) fn from_str(alloc: Global, text: &str) -> Result<Kept, NoMemory>
        ensures { IfOk result (λ kept. kept_bytes kept ≡ text.now) }
    {
        if text.len() <= SHORT {
            return Ok(Kept::Short(Short::from_str(text)));
        }
        let text = String::from_str(alloc, text)?;
        Ok(Kept::Long(Box::new(alloc, text)?))
    }

    /// The text, borrowed.
    pub(crate) fn as_str(&self) -> &str
        ensures { result.now ≡ kept_bytes self.now }
    {
        match self {
            Kept::Short(text) => text.as_str(),
            Kept::Long(text) => text.as_str(),
        }
    }
}
