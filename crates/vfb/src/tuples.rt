ghost use Rattle.std.specs.Prelude.{◌≡◌, IfOk, string_bytes};
ghost use Rattle.source_files.specs.Stops.{Reads};
ghost use Rattle.commands.specs.Command.{tuples};
ghost use Rattle.commands.specs.Proper.{AreLocated};
ghost use Rattle.vfb.specs.Calls.{unfiltered};
ghost use Rattle.vfb.specs.Making.{Makes, counts_of};
ghost use Rattle.commands.specs.Words.{asked_tuples};
ghost use Rattle.vfb.specs.Work.{IsReadBy};

use crate::glyph::{GlyphData, make_data};
use crate::product::{File, Product};
use basics::NoMemory;
use commands::Tuples;
use outside::Sources;
use source_files::ReadStop;
use std::alloc::Global;

/// The line that tells how many tuples the data have, how many explicit points those name, and among how many.
fn counts_of(alloc: Global, glyph: &GlyphData) -> Result<String, NoMemory>
    ensures { IfOk result (λ text. string_bytes text ≡ counts_of glyph.now) }
{
    let GlyphData {
        tuples,
        explicit,
        points,
        ..
    } = glyph;
    Ok(format!(in alloc; "tuples {tuples} explicit {explicit} of {points}\n")?)
}

/// Makes the variation data of a command's glyph: one file of one piece, and the line of their counts.
pub(crate) fn make_tuples<'a, S: Sources>(
    alloc: Global,
    command: &Tuples<'a>,
    sources: &mut S,
) -> Result<Product<'a>, ReadStop>
    requires { AreLocated (asked_tuples command.now).drawings }
    ensures { Reads (S.state sources.old) (S.state sources.new) (IsReadBy (S.state sources.old).tells (S.state sources.old).files (tuples (asked_tuples command.now))) (Makes (S.state sources.old).files (unfiltered (tuples (asked_tuples command.now))) result) result }
{
    let data = make_data(alloc, command, sources)?;
    let text = counts_of(alloc, &data)?;
    let pieces = vec![in alloc; data.bytes]?;
    let files = vec![in alloc;
        File {
            path: command.out,
            pieces
        },
    ]?;
    Ok(Product { files, text })
}
