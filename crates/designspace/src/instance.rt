ghost use Rattle.std.specs.Prelude.{◌≡◌, ◌≤◌, length, map, filter, option_map, All, IfOk};
ghost use Rattle.basics.specs.Reading.{Gives, each_numbered};
ghost use Rattle.markup.specs.Plain.{plain};
ghost use Rattle.designspace.specs.Instances as rules;
ghost use Rattle.designspace.specs.Limits.{IsBrief, IsInstanceOn};

use crate::dimension::read_dimensions;
use crate::location::user_values_of;
use crate::parts::{check_few, listed};
use basics::{Kind, Name, NoMemory, Seq, Stop};
use design_axes::{Axis, short_name};
use fixpoint::Fix;
use markup::Element;
use std::alloc::Global;

/// A named instance of the design space (Designspace, "instance").
#[derive(Drop)]
pub struct Instance {
    /// Its name, at most 100 units of UTF-16.
    pub name: Name,
    /// Its user value on each axis.
    pub user: Seq<Fix<16>>,
}

/// How many instances a document may have.
const INSTANCES: usize = 256;

/// The name of the instance with this number that has no name of a style.
#[tactic(auto, using(crate::proofs::Names::short_read, crate::proofs::Names::made_brief))]
fn own_name(
    alloc: Global,
    number: usize,
    instance: &Element,
    name: Option<&str>,
) -> Result<Name, Stop>
    ensures exact { Gives (λ name. name) result (rules.own_name number (plain instance.now) (option_map (λ text. text.now) name.entry)) }
    ensures brief { IfOk result IsBrief }
{
    match name {
        Some(name) => short_name(alloc, "name", instance, name),
        None => {
            let name = format!(in alloc; "Instance {number}")?;
            Ok(Name::from_str(alloc, name.as_str())?)
        }
    }
}

/// The name of the instance with this number.
#[tactic(auto, using(crate::proofs::Names::short_read), unfolding(crate::specs::Instances::name_of))]
fn read_name(alloc: Global, number: usize, instance: &Element) -> Result<Name, Stop>
    ensures exact { Gives (λ name. name) result (rules.name_of number (plain instance.now)) }
    ensures brief { IfOk result IsBrief }
{
    match instance.attribute("stylename") {
        Some(name) => short_name(alloc, "stylename", instance, name),
        None => own_name(alloc, number, instance, instance.attribute("name")),
    }
}

/// The instance with this number, counted from 1.
#[tactic(auto, unfolding(crate::specs::Instances::instance_of))]
fn read_instance(
    alloc: Global,
    axes: &[Axis],
    number: usize,
    instance: &Element,
) -> Result<Instance, Stop>
    ensures exact { Gives (λ instance. instance) result (rules.instance_of axes.now number (plain instance.now)) }
    ensures within { IfOk result (IsInstanceOn (length axes.now)) }
{
    let name = read_name(alloc, number, instance)?;
    let dimensions = read_dimensions(alloc, axes, instance)?;
    let user = user_values_of(alloc, dimensions.as_slice(), axes)?;
    Ok(Instance { name, user })
}

/// The instances of these elements.
fn read_each(alloc: Global, axes: &[Axis], elements: &[&Element]) -> Result<Seq<Instance>, Stop>
    ensures within { IfOk result (All (IsInstanceOn (length axes.now))) }
    ensures count { IfOk result (λ instances. length instances ≡ length elements.now) }
    ensures exact { Gives (λ instances. instances) result (each_numbered (rules.instance_of axes.now) 1 (map (λ element. plain element.now) elements.now)) }
{
    let mut instances = Seq::new(alloc);
    for (index, element) in elements.iter().enumerate() {
        instances.push(read_instance(alloc, axes, index + 1, element)?)?;
    }
    Ok(instances)
}

/// The elements of instances that aren't passed over.
fn own_elements<'a>(alloc: Global, elements: &[&'a Element]) -> Result<Vec<&'a Element>, NoMemory>
    ensures { IfOk result (λ own. map (λ element. plain element.now) own.items ≡ filter rules.is_own (map (λ element. plain element.now) elements.now)) }
{
    let mut own = Vec::new(alloc);
    for element in elements {
        if element.attribute("location").is_none() {
            own.push(*element)?;
        }
    }
    Ok(own)
}

/// The instances of a document.
#[tactic(auto, unfolding(crate::specs::Instances::instances_of, crate::specs::Instances::instances_in))]
pub(crate) fn read_instances(
    alloc: Global,
    axes: &[Axis],
    designspace: &Element,
) -> Result<Seq<Instance>, Stop>
    ensures exact { Gives (λ instances. instances) result (rules.instances_of axes.now (plain designspace.now)) }
    ensures within { IfOk result (All (IsInstanceOn (length axes.now))) }
    ensures few { IfOk result (λ instances. length instances ≤ 256) }
{
    let elements = listed(alloc, "instances", "instance", designspace)?;
    let elements = own_elements(alloc, elements.as_slice())?;
    check_few(alloc, Kind::TooManyInstances, 0, INSTANCES, elements.len())?;
    read_each(alloc, axes, elements.as_slice())
}
