ghost use Rattle.std.specs.Prelude.{◌≡◌};
ghost use Rattle.outside.specs.Said.{Says};
ghost use Rattle.vfb.specs.Ending.{shown_misuse};
ghost use Rattle.vfb.specs.Lines.{or_dash, refused_line, usage_line, read_fault_line, write_fault_line, no_memory_line};

use crate::misuse::Misuse;
use basics::Fault;
use outside::{Failed, Piece, Say, say_all};

/// The text, or a dash in place of an empty one.
fn or_dash(text: &str) -> &str
    ensures { result.now ≡ or_dash text.now }
{
    if text.is_empty() { "-" } else { text }
}

/// Says which fault the sources have.
pub(crate) fn say_refused<T: Say>(say: &mut T, fault: &Fault) -> Result<(), Failed>
    ensures { Says (T.state say.old) (T.state say.new) (refused_line fault.now) result }
{
    say_all(
        say,
        &[
            Piece::Word("refused "),
            Piece::Word(fault.spot.kind.name()),
            Piece::Word(" "),
            Piece::Text(or_dash(fault.path.as_str())),
            Piece::Word(" "),
            Piece::Text(or_dash(fault.spot.item.as_str())),
            Piece::Word(" "),
            Piece::Count(fault.spot.at),
            Piece::Word(" "),
            Piece::Count(fault.spot.also),
            Piece::Word(" "),
            Piece::Number(fault.spot.first),
            Piece::Word(" "),
            Piece::Number(fault.spot.second),
            Piece::Word("\n"),
        ],
    )
}

/// Says what is wrong with the words.
pub(crate) fn say_usage<T: Say>(say: &mut T, misuse: Misuse<'_>) -> Result<(), Failed>
    ensures { Says (T.state say.old) (T.state say.new) (usage_line (shown_misuse misuse.entry)) result }
{
    match misuse {
        Misuse::Words => say_all(say, &[Piece::Word("usage words\n")]),
        Misuse::Filter(name) => say_all(
            say,
            &[
                Piece::Word("usage filter "),
                Piece::Text(name),
                Piece::Word("\n"),
            ],
        ),
    }
}

/// Says which file could not be read.
pub(crate) fn say_read_fault<T: Say>(say: &mut T, path: &str) -> Result<(), Failed>
    ensures { Says (T.state say.old) (T.state say.new) (read_fault_line path.now) result }
{
    say_all(
        say,
        &[
            Piece::Word("read fault "),
            Piece::Text(path),
            Piece::Word("\n"),
        ],
    )
}

/// Says which file could not be written.
pub(crate) fn say_write_fault<T: Say>(say: &mut T, path: &str) -> Result<(), Failed>
    ensures { Says (T.state say.old) (T.state say.new) (write_fault_line path.now) result }
{
    say_all(
        say,
        &[
            Piece::Word("write fault "),
            Piece::Text(path),
            Piece::Word("\n"),
        ],
    )
}

/// Says that memory ran out.
pub(crate) fn say_no_memory<T: Say>(say: &mut T) -> Result<(), Failed>
    ensures { Says (T.state say.old) (T.state say.new) no_memory_line result }
{
    say_all(say, &[Piece::Word("no memory\n")])
}
