ghost use Rattle.std.specs.Prelude.{◌≡◌, ℕ, ◌⊎◌, List, map, string_bytes, Ok, Some};
ghost use Rattle.outside.specs.Files.{content, HasRisen};
ghost use Rattle.source_files.specs.Stops.{Reads};
ghost use Rattle.commands.specs.Syntax.{command_of};
ghost use Rattle.commands.specs.Words.{seen_word};
ghost use Rattle.commands.specs.Proper.{IsProper};
ghost use Rattle.vfb.specs.Calls.{call_by, filter_words, seen};
ghost use Rattle.vfb.specs.Making.{Makes};
ghost use Rattle.commands.specs.Words.{asked};
ghost use Rattle.vfb.specs.Work.{IsReadBy};
ghost use Rattle.vfb.specs.BuiltFont.{HasAdvances, HasDesign, HasLeastSets, MapsCharacters, ReturnsAllMasters, SubstitutesAsRules, TellsFields};
ghost use Rattle.vfb.specs.Performing.{Performs};
ghost use Rattle.vfb.specs.Outcome.{IsAnswer, IsUsage, WritesNothing, IsWritten, IsSaid, IsCut, Draws, HasOfFont, HasWork, LacksRoom, EndsBy};

use crate::choosing::choose;
use crate::ending::{Ending, say_ending};
use crate::font::make_font;
use crate::misuse::Misuse;
use crate::product::Product;
use crate::status::Status;
use crate::tuples::make_tuples;
use crate::writing::write_product;
use basics::NoMemory;
use commands::{Command, FilterWord, parse};
use filters::GlyphFilter;
use font_project::one_answer;
use outside::{Outputs, Say, Sources};
use source_files::ReadStop;
use std::alloc::Global;

/// Makes what a command asks for, whose filters these are.
fn make<'a, S: Sources>(
    alloc: Global,
    command: &Command<'a>,
    filters: Vec<Box<dyn GlyphFilter>>,
    sources: &mut S,
) -> Result<Product<'a>, ReadStop>
    requires { IsProper (asked command.now) }
    ensures { Reads (S.state sources.old) (S.state sources.new) (IsReadBy (S.state sources.old).tells (S.state sources.old).files (asked command.now)) (Makes (S.state sources.old).files (record { command = asked command.now; images = map (λ filter. image filter (setting filter)) filters.items }) result) result }
{
    match command {
        Command::Tuples(command) => make_tuples(alloc, command, sources),
        Command::Build(command) => make_font(alloc, command, filters, sources),
    }
}

/// Performs a command, whose filters these are.
fn perform<'a, S: Sources, O: Outputs, T: Say>(
    alloc: Global,
    command: &Command<'a>,
    filters: Vec<Box<dyn GlyphFilter>>,
    sources: &mut S,
    outputs: &mut O,
    say: &mut T,
) -> Ending<'a>
    requires { IsProper (asked command.now) }
    ensures { Performs (S.state sources.old) (S.state sources.new) (O.state outputs.old) (O.state outputs.new) (T.state say.old) (T.state say.new) (Ok (record { command = asked command.now; images = map (λ filter. image filter (setting filter)) filters.items })) result }
{
    // Files have one font or one first fault.
    one_answer();
    match make(alloc, command, filters, sources) {
        Ok(product) => write_product(&product, outputs, say),
        Err(stop) => Ending::from_stop(stop),
    }
}

/// The filters that a command asks for, in the order of its words.
fn filter_words<'b, 'a>(command: &'b Command<'a>) -> &'b [FilterWord<'a>]
    ensures { map seen_word result.now ≡ filter_words (asked command.now) }
{
    match command {
        Command::Tuples(_) => &[],
        Command::Build(command) => command.filters.as_slice(),
    }
}

/// Performs a command with those of the filters handed in that it asks for, or ends with its usage where one of them
/// can't be had.
fn perform_filtered<'a, S: Sources, O: Outputs, T: Say>(
    alloc: Global,
    command: &Command<'a>,
    filters: Vec<Box<dyn GlyphFilter>>,
    sources: &mut S,
    outputs: &mut O,
    say: &mut T,
) -> Ending<'a>
    requires { IsProper (asked command.now) }
    ensures { Performs (S.state sources.old) (S.state sources.new) (O.state outputs.old) (O.state outputs.new) (T.state say.old) (T.state say.new) (call_by (map (seen called setting_of image) filters.items) (Some (asked command.now))) result }
{
    match choose(alloc, filters, filter_words(command)) {
        Ok(chosen) => perform(alloc, command, chosen, sources, outputs, say),
        Err(ending) => ending,
    }
}

/// Performs the command that the words are, or ends with their usage where they are none.
fn perform_words<'a, S: Sources, O: Outputs, T: Say>(
    alloc: Global,
    words: &'a Vec<String>,
    filters: Vec<Box<dyn GlyphFilter>>,
    sources: &mut S,
    outputs: &mut O,
    say: &mut T,
) -> Ending<'a>
    ensures { Performs (S.state sources.old) (S.state sources.new) (O.state outputs.old) (O.state outputs.new) (T.state say.old) (T.state say.new) (call_by (map (seen called setting_of image) filters.items) (command_of (map string_bytes words.now.items))) result }
{
    match parse(alloc, words) {
        Ok(Some(command)) => perform_filtered(alloc, &command, filters, sources, outputs, say),
        Ok(None) => Ending::Usage(Misuse::Words),
        Err(NoMemory) => Ending::NoMemory,
    }
}

/// Does what the words ask for, of which the first is the program's name. Files are read from `sources`
/// and written to `outputs`, and text is said to `say`.
///
/// The words `build`, DESIGNSPACE and OUT ask for the variable font that the designspace document and its sources
/// describe. Each option `--filter NAME` or `--filter NAME:TEXT` asks for a filter, through which every outline of every
/// source goes, in the order of the words: for the one of `filters` of this name, configured by the text. `filters` are
/// dropped at the end. All is done in memory first; then OUT is begun and the font appended: its table directory in one piece, and
/// each table in one more; and five lines count its glyphs, masters, axes, tuples and explicit points.
///
/// The words `tuples`, OUT and 1 to 128 drawings ask for the variation data of a glyph (OpenType, "gvar").
/// A drawing is a path, `@`, and 1 to 8 coordinates with commas between, whole numbers from -16,384 to
/// 16,384 that mean -1 to 1 (F2DOT14); all drawings have as many. The files are read in the order of the
/// words, and a fault of one comes before the next is read. Then come the faults of the masters: no drawing
/// at the default, two at one location, contours other than the default's, and a delta of more than 16 bits.
/// All is done in memory first; then OUT is begun, the data are appended in one piece, and a line says what
/// they hold.
///
/// There are no other options: before a word `--`, words that begin with `-`, other than `-` alone, are those of no
/// command.
///
/// # Errors
///
/// `Status` says how the run ended. Where that isn't `Ok` a last line is said of it; making it takes no
/// memory, and where it can't be said the status stays. `Usage` comes exactly where the words are none
/// of these, or where a filter that they name wasn't handed in, or twice, or is named twice, or refuses its text, and
/// memory lasts to read them; and `Refused` exactly where the files or the masters have a fault. `ReadFault` and `WriteFault` come only
/// where a device failed, and `NoMemory` where memory ran out; either may come in place of `Refused`.
/// `Rejected` doesn't come yet. But for `Ok` and `WriteFault` no file was begun.
pub fn run<S: Sources, O: Outputs, T: Say>(
    alloc: Global,
    words: &Vec<String>,
    filters: Vec<Box<dyn GlyphFilter>>,
    sources: &mut S,
    outputs: &mut O,
    say: &mut T,
) -> Status
    // The words and the filters handed in decide on Usage, to which only want of memory may come before.
    ensures usage { IsUsage (call_by (map (seen called setting_of image) filters.items) (command_of (map string_bytes words.now.items))) result }
    // Where the sources tell their files: exactly which fault is refused.
    ensures answer { (S.state sources.old).tells → IsAnswer (call_by (map (seen called setting_of image) filters.items) (command_of (map string_bytes words.now.items))) (S.state sources.old).files result }
    ensures rejected { (line : ℕ) → result ≡ Status.Rejected line → ⊥ }
    // A fault of a device comes only where its count rose in this call.
    ensures read { result ≡ Status.ReadFault → HasRisen (S.state sources.old).faults (S.state sources.new).faults }
    ensures write { result ≡ Status.WriteFault → HasRisen (O.state outputs.old).faults (O.state outputs.new).faults ⊎ HasRisen (T.state say.old).faults (T.state say.new).faults }
    // What the outside holds afterwards.
    ensures same { (S.state sources.new).files ≡ (S.state sources.old).files }
    ensures unwritten { WritesNothing result → (O.state outputs.new).files ≡ (O.state outputs.old).files }
    ensures written { (S.state sources.old).tells → (O.state outputs.old).tells → IsWritten (call_by (map (seen called setting_of image) filters.items) (command_of (map string_bytes words.now.items))) (S.state sources.old).files (O.state outputs.old).files (O.state outputs.new).files result }
    ensures said { (S.state sources.old).tells → (T.state say.old).tells → IsSaid (call_by (map (seen called setting_of image) filters.items) (command_of (map string_bytes words.now.items))) (S.state sources.old).files (HasRisen (T.state say.old).faults (T.state say.new).faults) (T.state say.old).said (T.state say.new).said result }
    ensures cut { (S.state sources.old).tells → (O.state outputs.old).tells → (T.state say.old).tells → result ≡ Status.WriteFault → IsCut (call_by (map (seen called setting_of image) filters.items) (command_of (map string_bytes words.now.items))) (S.state sources.old).files (HasRisen (T.state say.old).faults (T.state say.new).faults) (O.state outputs.old).files (O.state outputs.new).files (T.state say.old).said (T.state say.new).said }
    // The headline: what the bytes written draw; and of a font that is built, what else they have of it.
    ensures draws { (S.state sources.old).tells → (O.state outputs.old).tells → result ≡ Status.Ok → Draws (call_by (map (seen called setting_of image) filters.items) (command_of (map string_bytes words.now.items))) (S.state sources.old).files (O.state outputs.new).files }
    ensures masters { (S.state sources.old).tells → (O.state outputs.old).tells → result ≡ Status.Ok → HasOfFont ReturnsAllMasters (call_by (map (seen called setting_of image) filters.items) (command_of (map string_bytes words.now.items))) (S.state sources.old).files (O.state outputs.new).files }
    ensures advances { (S.state sources.old).tells → (O.state outputs.old).tells → result ≡ Status.Ok → HasOfFont HasAdvances (call_by (map (seen called setting_of image) filters.items) (command_of (map string_bytes words.now.items))) (S.state sources.old).files (O.state outputs.new).files }
    ensures characters { (S.state sources.old).tells → (O.state outputs.old).tells → result ≡ Status.Ok → HasOfFont MapsCharacters (call_by (map (seen called setting_of image) filters.items) (command_of (map string_bytes words.now.items))) (S.state sources.old).files (O.state outputs.new).files }
    ensures axes { (S.state sources.old).tells → (O.state outputs.old).tells → result ≡ Status.Ok → HasOfFont HasDesign (call_by (map (seen called setting_of image) filters.items) (command_of (map string_bytes words.now.items))) (S.state sources.old).files (O.state outputs.new).files }
    ensures substitution { (S.state sources.old).tells → (O.state outputs.old).tells → result ≡ Status.Ok → HasOfFont SubstitutesAsRules (call_by (map (seen called setting_of image) filters.items) (command_of (map string_bytes words.now.items))) (S.state sources.old).files (O.state outputs.new).files }
    ensures least { (S.state sources.old).tells → (O.state outputs.old).tells → result ≡ Status.Ok → HasOfFont HasLeastSets (call_by (map (seen called setting_of image) filters.items) (command_of (map string_bytes words.now.items))) (S.state sources.old).files (O.state outputs.new).files }
    ensures fields { (S.state sources.old).tells → (O.state outputs.old).tells → result ≡ Status.Ok → HasOfFont TellsFields (call_by (map (seen called setting_of image) filters.items) (command_of (map string_bytes words.now.items))) (S.state sources.old).files (O.state outputs.new).files }
    // Nothing gives up but for memory.
    ensures complete { (S.state sources.old).tells → HasWork (call_by (map (seen called setting_of image) filters.items) (command_of (map string_bytes words.now.items))) (S.state sources.old).files → ¬ (HasRisen (S.state sources.old).faults (S.state sources.new).faults) → ¬ (HasRisen (O.state outputs.old).faults (O.state outputs.new).faults) → ¬ (HasRisen (T.state say.old).faults (T.state say.new).faults) → EndsBy ⊥ result }
    ensures complete_sure { (S.state sources.old).tells → (S.state sources.old).is_sure → (O.state outputs.old).tells → (O.state outputs.old).is_sure → (T.state say.old).tells → (T.state say.old).is_sure → HasWork (call_by (map (seen called setting_of image) filters.items) (command_of (map string_bytes words.now.items))) (S.state sources.old).files → EndsBy (LacksRoom (call_by (map (seen called setting_of image) filters.items) (command_of (map string_bytes words.now.items))) (S.state sources.old).files (O.state outputs.old).room (T.state say.old).room (T.state say.old).said) result }
{
    let ending = perform_words(alloc, words, filters, sources, outputs, say);
    // A line that can't be said changes nothing.
    let _ = say_ending(say, &ending);
    ending.into_status()
}
