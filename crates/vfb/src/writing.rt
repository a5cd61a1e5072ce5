ghost use Rattle.std.specs.Prelude.{map};
ghost use Rattle.std.specs.List.{concat};
ghost use Rattle.vfb.specs.Making.{shown_file, shown_product};
ghost use Rattle.vfb.specs.Writing.{WritesFile, WritesFiles, WritesProduct};

use crate::ending::Ending;
use crate::product::{File, Product};
use outside::{Failed, Outputs, Say};

/// Begins a file at the path, and appends the pieces to it.
fn write_pieces<O: Outputs>(outputs: &mut O, path: &str, pieces: &[Vec<u8>]) -> Result<(), Failed>
    ensures { WritesFile (O.state outputs.old) (O.state outputs.new) path.now (concat (map (λ piece. piece.items) pieces.now)) result }
{
    outputs.begin(path)?;
    for piece in pieces {
        outputs.append(piece.as_slice())?;
    }
    Ok(())
}

/// Writes a file of the pieces at the path, and ends it, whether it was written whole or not.
fn write_file<O: Outputs>(outputs: &mut O, path: &str, pieces: &[Vec<u8>]) -> Result<(), Failed>
    ensures { WritesFile (O.state outputs.old) (O.state outputs.new) path.now (concat (map (λ piece. piece.items) pieces.now)) result }
{
    let written = write_pieces(outputs, path, pieces);
    outputs.end();
    written
}

/// Writes the files one after another, up to the first that can't be written, whose path is answered.
fn write_files<'a, O: Outputs>(outputs: &mut O, files: &[File<'a>]) -> Result<(), &'a str>
    ensures { WritesFiles (O.state outputs.old) (O.state outputs.new) (map shown_file files.now) result }
{
    match files {
        [] => Ok(()),
        [file, later @ ..] => match write_file(outputs, file.path, file.pieces.as_slice()) {
            Ok(()) => write_files(outputs, later),
            Err(Failed) => Err(file.path),
        },
    }
}

/// Writes the files of a product, and then says its text. Each file is ended before the next is begun and before the text is said.
pub(crate) fn write_product<'a, O: Outputs, T: Say>(
    product: &Product<'a>,
    outputs: &mut O,
    say: &mut T,
) -> Ending<'a>
    ensures { WritesProduct (O.state outputs.old) (O.state outputs.new) (T.state say.old) (T.state say.new) (shown_product product.now) result }
{
    match write_files(outputs, product.files.as_slice()) {
        Ok(()) => {}
        Err(path) => return Ending::WriteFault(path),
    }
    match say.say(product.text.as_bytes()) {
        Ok(()) => Ending::Done,
        Err(Failed) => Ending::WriteFault("-"),
    }
}
