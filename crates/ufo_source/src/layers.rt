ghost use Rattle.std.specs.Prelude.{◌≡◌, ◌∷◌, [], map, option_map, IfOk};
ghost use Rattle.basics.specs.Reading.{Gives};
ghost use Rattle.plist.specs.Values.{plain_value};
ghost use Rattle.source_files.specs.Stops.{Answers, NeverFails, Reads};
ghost use Rattle.source_files.specs.Trees as trees;
ghost use Rattle.ufo_source.specs.Layers as layers;
ghost use Rattle.ufo_source.specs.Layers.{asked, folder_among, is_asked, layer_at, layer_of, layers_at, layers_of, layers_or_public, layers_path, public_layer, two_texts};
ghost use Rattle.ufo_source.specs.Paths as paths;
ghost use Rattle.ufo_source.specs.Paths.{IsIn};

use crate::paths::{check_file_name, in_folder};
use crate::property_lists::{read_value_if_there, text_of, values_of, wrong_kind};
use basics::{Kind, Name, NoMemory, Seq, Stop, stop_at};
use outside::Sources;
use plist::Value;
use source_files::{ReadStop, in_file};
use std::alloc::Global;

/// The file that lists the layers.
const LAYERS: &str = "layercontents.plist";

/// A layer of a UFO folder.
#[derive(Drop)]
pub(crate) struct Layer {
    /// The layer's name.
    pub(crate) name: Name,
    /// The name of the folder of its glyphs.
    pub(crate) folder: Name,
}

/// The layer that two texts are.
fn two_texts(alloc: Global, texts: &[Value]) -> Result<Layer, Stop>
    ensures { Gives (λ layer. layer) result (two_texts (map plain_value texts.now)) }
{
    match texts {
        [name, folder] => {
            let name = text_of(alloc, name)?;
            let folder = text_of(alloc, folder)?;
            let name = Name::from_str(alloc, name)?;
            let folder = Name::from_str(alloc, folder)?;
            Ok(Layer { name, folder })
        }
        _ => Err(wrong_kind(alloc)),
    }
}

/// The layer that an array of two texts is.
#[tactic(auto, unfolding(crate::specs::Layers::layer_of))]
fn layer_of(alloc: Global, value: &Value) -> Result<Layer, Stop>
    ensures { Gives (λ layer. layer) result (layer_of (plain_value value.now)) }
{
    let texts = values_of(alloc, value)?;
    two_texts(alloc, texts)
}

/// The layers that values are.
fn layers_among(alloc: Global, values: &[Value]) -> Result<Seq<Layer>, Stop>
    ensures { Gives (λ layers. layers) result (layers.layers_among (map plain_value values.now)) }
{
    let mut layers = Seq::new(alloc);
    for value in values {
        layers.push(layer_of(alloc, value)?)?;
    }
    Ok(layers)
}

/// The layers that an array lists.
#[tactic(auto, unfolding(crate::specs::Layers::layers_of))]
fn layers_of(alloc: Global, value: &Value) -> Result<Seq<Layer>, Stop>
    ensures { Gives (λ layers. layers) result (layers_of (plain_value value.now)) }
{
    let values = values_of(alloc, value)?;
    layers_among(alloc, values)
}

/// The one layer of a folder that lists none.
fn public_layer(alloc: Global) -> Result<Seq<Layer>, NoMemory>
    ensures { IfOk result (λ layers. layers ≡ public_layer ∷ []) }
{
    let mut layers = Seq::new(alloc);
    layers.push(Layer {
        name: Name::from_str(alloc, "public.default")?,
        folder: Name::from_str(alloc, "glyphs")?,
    })?;
    Ok(layers)
}

/// The layers of a folder whose list has this value, or is absent.
#[tactic(auto, using(source_files::proofs::InFile::answers_in_file))]
fn layers_or_public(
    alloc: Global,
    folder: &str,
    value: Option<Value>,
) -> Result<Seq<Layer>, ReadStop>
    ensures answers { Answers (λ layers. layers) result (layers_or_public (layers_path folder.now) (option_map plain_value value)) }
    ensures never { NeverFails result }
{
    match value {
        Some(value) => in_folder(alloc, folder, LAYERS, layers_of(alloc, &value)),
        None => Ok(public_layer(alloc)?),
    }
}

/// Reads `layercontents.plist`. A folder without it, though UFO 3 asks for it, has the layer `public.default` with
/// the folder `glyphs`.
#[tactic(auto, unfolding(crate::specs::Layers::layers_at))]
fn read_layers<S: Sources>(
    alloc: Global,
    sources: &mut S,
    folder: &str,
) -> Result<Seq<Layer>, ReadStop>
    ensures { Reads (S.state sources.old) (S.state sources.new) (IsIn folder.now) (Answers (λ layers. layers) result (layers_at (S.state sources.old).files folder.now)) result }
{
    let value = read_value_if_there(alloc, sources, folder, LAYERS)?;
    layers_or_public(alloc, folder, value)
}

/// Whether the layer is the one of this name, or without a name has the folder `glyphs`.
fn is_asked(name: Option<&str>, layer: &Layer) -> bool
    ensures { result ≡ is_asked (option_map (λ name. name.now) name.entry) layer.now }
{
    match name {
        Some(name) => layer.name.as_str() == name,
        None => layer.folder.as_str() == "glyphs",
    }
}

/// What is said to be lacking where no layer is the one that is asked for.
fn asked(name: Option<&str>) -> &str
    ensures { result.now ≡ asked (option_map (λ name. name.now) name.entry) }
{
    match name {
        Some(name) => name,
        None => "glyphs",
    }
}

/// The name of the folder of the first layer that is asked for.
fn folder_among(alloc: Global, name: Option<&str>, layers: &[Layer]) -> Result<Name, Stop>
    ensures { Gives (λ folder. folder) result (folder_among (option_map (λ name. name.now) name.entry) layers.now) }
{
    for layer in layers {
        if is_asked(name, layer) {
            return Ok(layer.folder.try_copy(alloc)?);
        }
    }
    Err(stop_at(alloc, Kind::NoLayer, asked(name), 0, 0))
}

/// The same, as the answer for the UFO folder.
#[tactic(auto, using(source_files::proofs::InFile::answers_in_file))]
fn chosen(
    alloc: Global,
    folder: &str,
    name: Option<&str>,
    layers: &[Layer],
) -> Result<Name, ReadStop>
    ensures answers { Answers (λ layer. layer) result (trees.in_file folder.now (folder_among (option_map (λ name. name.now) name.entry) layers.now)) }
    ensures never { NeverFails result }
{
    in_file(alloc, folder, folder_among(alloc, name, layers))
}

/// Tests the name of a layer's folder.
#[tactic(auto, using(source_files::proofs::InFile::answers_in_file))]
fn check_folder(alloc: Global, folder: &str, layer: &str) -> Result<(), ReadStop>
    ensures answers { Answers (λ _. tt) result (trees.in_file (layers_path folder.now) (paths.file_name layer.now)) }
    ensures never { NeverFails result }
{
    in_folder(alloc, folder, LAYERS, check_file_name(alloc, layer))
}

/// Reads the layers, and answers the name of the folder of the one that is asked for: of the first of this name, or
/// without a name `glyphs`, if a layer has that folder.
#[tactic(auto, unfolding(crate::specs::Layers::layer_at))]
pub(crate) fn read_layer<S: Sources>(
    alloc: Global,
    sources: &mut S,
    folder: &str,
    name: Option<&str>,
) -> Result<Name, ReadStop>
    ensures { Reads (S.state sources.old) (S.state sources.new) (IsIn folder.now) (Answers (λ layer. layer) result (layer_at (S.state sources.old).files folder.now (option_map (λ name. name.now) name.entry))) result }
{
    let layers = read_layers(alloc, sources, folder)?;
    let layer = chosen(alloc, folder, name, layers.as_slice())?;
    check_folder(alloc, folder, layer.as_str())?;
    Ok(layer)
}
