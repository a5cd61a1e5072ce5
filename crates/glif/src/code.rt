ghost use Rattle.std.specs.Prelude.{◌≡◌, ◌&&◌, [], if◌then◌else◌, IfOk};
ghost use Rattle.std.specs.Char.{is_ascii_hexdigit};
ghost use Rattle.std.specs.List.{list_all};
ghost use Rattle.std.specs.Str.Parse.{digits_value};
ghost use Rattle.basics.specs.Reading.{Gives};
ghost use Rattle.glif.specs.Glyphs.{code_of, is_code, is_hexadecimal, with_code};

use attributes::fault;
use basics::{Kind, NoMemory, Seq, Stop};
use markup::Tagged;
use std::alloc::Global;
use std::collections::BTreeSet;
use std::marker::Model;

/// Code points in their order, each once. Contracts see the list; the set tells quickly whether a code point is in
/// it, since a file may have a million.
#[derive(Drop)]
pub(crate) struct Codes {
    kept: Seq<u32>,
    known: BTreeSet<u32>,
}

impl Model for Codes {
    ghost use Rattle.std.specs.Prelude.{◌≡◌, ℕ, List, ◌==◌};
    ghost use Rattle.std.specs.List.{list_any};
    ghost use Rattle.std.specs.Ordering.{nat_cmp};
    ghost use Rattle.std.specs.BTreeSet.{contains};

    ghost Value = { List ℕ };

    ghost view = { λ c. c.kept };

    // The set has exactly the codes of the list.
    ghost invariant = { λ c. (q : ℕ) → contains nat_cmp c.known q ≡ list_any (λ other. other == q) c.kept };
}

impl Codes {
    /// No code points.
    pub(crate) fn new(alloc: Global) -> Codes
        ensures { result ≡ [] }
    {
        Codes {
            kept: Seq::new(alloc),
            known: BTreeSet::new(alloc),
        }
    }

    /// The code points with one more after them, unless it is among them.
    pub(crate) fn with(self, code: u32) -> Result<Codes, NoMemory>
        ensures { IfOk result (λ codes. codes ≡ with_code self code) }
    {
        let Codes {
            mut kept,
            mut known,
        } = self;
        if known.insert(code)? {
            kept.push(code)?;
        }
        Ok(Codes { kept, known })
    }

    /// The list of the code points.
    pub(crate) fn into_seq(self) -> Seq<u32>
        ensures { result ≡ self }
    {
        self.kept
    }
}

/// Whether it is a number of a character that can stand in a text: no surrogate, and not U+FFFF.
fn is_code(number: u32) -> bool
    ensures { result ≡ is_code number }
{
    number <= 0x10_FFFF && !(0xD800 <= number && number <= 0xDFFF) && number != 0xFFFF
}

/// Whether each byte is a hexadecimal digit.
fn are_hexadecimal_digits(bytes: &[u8]) -> bool
    ensures { result ≡ list_all is_ascii_hexdigit bytes.now }
{
    bytes.iter().all(|byte| byte.is_ascii_hexdigit())
}

/// Whether the text is one to six hexadecimal digits.
fn is_hexadecimal(text: &str) -> bool
    ensures { result ≡ is_hexadecimal text.now }
{
    0 < text.len() && text.len() <= 6 && are_hexadecimal_digits(text.as_bytes())
}

/// The code point that the text writes in one to six hexadecimal digits, if it does.
fn code_in(text: &str) -> Option<u32>
    ensures { result ≡ (if is_hexadecimal text.now && is_code (digits_value 16 text.now) then Some (digits_value 16 text.now) else None) }
{
    if !is_hexadecimal(text) {
        return None;
    }
    match u32::from_str_radix(text, 16) {
        Ok(code) => is_code(code).then_some(code),
        Err(_) => None,
    }
}

/// The code point of a `unicode`.
#[tactic(auto, unfolding(crate::specs::Glyphs::code_of))]
pub(crate) fn read_code<T: Tagged>(alloc: Global, element: &T) -> Result<u32, Stop>
    ensures { Gives (λ code. code) result (code_of (T.tree element.now)) }
{
    match element.attribute("hex").and_then(code_in) {
        Some(code) => Ok(code),
        None => Err(fault(alloc, Kind::BadCode, element)),
    }
}
