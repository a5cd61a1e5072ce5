ghost use Rattle.std.specs.Prelude.{◌≡◌, List, [], ◌∷◌, decimal, codes};
ghost use Rattle.std.specs.List.{concat};
ghost use Rattle.std.specs.Fmt.{signed_decimal};
ghost use Rattle.basics.specs.Kinds.{kind_name};
ghost use Rattle.outside.specs.Said.{Says};

use super::*;
use basics::Kind;
use std::alloc::{AllocError, Global};
use std::test::Fail;

// What keeps all that is said to it, and where each call ended.
#[derive(Drop)]
struct Page {
    text: Vec<u8>,
    ends: Vec<usize>,
    faults: u64,
}

impl Page {
    fn new(alloc: Global) -> Page {
        Page {
            text: Vec::new(alloc),
            ends: Vec::new(alloc),
            faults: 0,
        }
    }

    fn keep(&mut self, bytes: &[u8]) -> Result<(), AllocError>
        ensures { self.new.faults ≡ self.old.faults }
    {
        self.text.extend_from_slice(bytes)?;
        self.ends.push(self.text.len())?;
        Ok(())
    }
}

impl Say for Page {
    ghost state = { λ say. record { tells = ⊥; said = []; faults = say.faults; is_sure = ⊥; room = 0 } };

    fn say(&mut self, bytes: &[u8]) -> Result<(), Failed> {
        match self.keep(bytes) {
            Ok(()) => Ok(()),
            Err(_) => {
                self.faults = self.faults.saturating_add(1);
                Err(Failed)
            }
        }
    }
}

// A line whose definition lists the pieces' texts needs no proof of its own.
fn say_spot<T: Say>(say: &mut T, kind: Kind, path: &str, at: u64, first: i64) -> Result<(), Failed>
    ensures { Says (T.state say.old) (T.state say.new)
        (concat (codes "at " ∷ kind_name kind ∷ codes " " ∷ path.now ∷ codes " " ∷ decimal at ∷ codes " " ∷ signed_decimal first ∷ codes "\n" ∷ [])) result }
{
    say_all(
        say,
        &[
            Piece::Word("at "),
            Piece::Word(kind.name()),
            Piece::Word(" "),
            Piece::Text(path),
            Piece::Word(" "),
            Piece::Count(at),
            Piece::Word(" "),
            Piece::Number(first),
            Piece::Word("\n"),
        ],
    )
}

#[test]
fn says_lines(rt: HostRuntime) -> Result<(), Fail> {
    let mut page = Page::new(rt.alloc());
    say_spot(
        &mut page,
        Kind::UnknownGlyph,
        "a b/ä.glif",
        18446744073709551615,
        -9223372036854775808,
    )?;
    say_spot(&mut page, Kind::MissingFile, "", 0, 7)?;
    let text =
        "at UnknownGlyph a b/ä.glif 18446744073709551615 -9223372036854775808\nat MissingFile  0 7\n";
    assert_eq!(rt; page.text.as_slice(), text.as_bytes());
    Ok(())
}

// What each line's calls of `say` took, from a table of the lengths of three texts in it, which a word follows.
#[test]
fn says_a_line_in_one_call_where_it_fits(rt: HostRuntime) -> Result<(), Fail> {
    let alloc = rt.alloc();
    for (lengths, ends) in [
        ([0, 0, 0], [1].as_slice()),
        ([10, 0, 7], &[18]),
        ([1000, 20, 3], &[1024]),
        ([1000, 20, 4], &[1024, 1025]),
        ([1000, 30, 2000], &[1000, 1030, 3030, 3031]),
        ([0, 1024, 1025], &[1024, 2049, 2050]),
    ] {
        let [first, second, third] = lengths;
        let first = "a".repeat(alloc, first)?;
        let second = "b".repeat(alloc, second)?;
        let third = "c".repeat(alloc, third)?;
        let mut page = Page::new(alloc);
        say_all(
            &mut page,
            &[
                Piece::Text(first.as_str()),
                Piece::Text(second.as_str()),
                Piece::Text(third.as_str()),
                Piece::Word("\n"),
            ],
        )?;
        let text = format!(in alloc; "{first}{second}{third}\n")?;
        assert_eq!(rt; page.text.as_slice(), text.as_bytes());
        assert_eq!(rt; page.ends.as_slice(), ends);
    }
    let mut page = Page::new(alloc);
    say_all(&mut page, &[])?;
    say_all(&mut page, &[Piece::Word(""), Piece::Text("")])?;
    assert_eq!(rt; page.ends.len(), 0, "a line with no text");
    Ok(())
}
