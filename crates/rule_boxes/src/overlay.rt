ghost use Rattle.std.specs.Prelude.{◌≡◌, ◌++◌, ◌<◌, ◌≤◌, length, All, IfOk};
ghost use Rattle.rule_boxes.specs.Areas.{shared};
ghost use Rattle.rule_boxes.specs.Overlay.{part_of, cut_off, narrowed, laid, laid_all, area_of, laid_sets, overlaid};

use crate::area::{Interval, Zone, above, area_of, below, do_meet, shared, whole};
use crate::{Condition, Sets};
use basics::{NoMemory, Seq};
use std::alloc::Global;

// Adds the zone with another interval on the axis, where there is one.
fn push_part(
    zones: &mut Vec<Zone>,
    zone: &Zone,
    axis: usize,
    part: Option<Interval>,
) -> Result<(), NoMemory>
    requires { axis < 8 }
    ensures { IfOk result (λ _. zones.new.items ≡ zones.old.items ++ part_of zone.now axis part) }
{
    if let Some(interval) = part {
        let mut outside = *zone;
        outside.area[axis] = interval;
        zones.push(outside)?;
    }
    Ok(())
}

// Adds the two parts of the zone that lie outside the set's interval on the axis.
fn cut_off(zones: &mut Vec<Zone>, set: Interval, axis: usize, zone: &Zone) -> Result<(), NoMemory>
    requires { axis < 8 }
    ensures { IfOk result (λ _. zones.new.items ≡ zones.old.items ++ cut_off set axis zone.now) }
{
    let interval = zone.area[axis];
    push_part(zones, zone, axis, below(set, interval))?;
    push_part(zones, zone, axis, above(set, interval))?;
    Ok(())
}

// The part of the zone that lies within the set's interval on the axis.
fn narrowed(set: Interval, axis: usize, zone: &Zone) -> Zone
    requires { axis < 8 }
    ensures { result ≡ narrowed set axis zone.now }
{
    let mut inside = *zone;
    inside.area[axis] = shared(set, zone.area[axis]);
    inside
}

// Lays a set of a rule over a zone and adds the parts. A zone in which the rule holds already isn't cut.
fn lay_on(zones: &mut Vec<Zone>, rule: usize, set: &[Interval], zone: &Zone) -> Result<(), NoMemory>
    requires rule { rule < 64 }
    requires axes { length set.now ≤ 8 }
    ensures { IfOk result (λ _. zones.new.items ≡ zones.old.items ++ laid rule set.now zone.now) }
{
    if zone.rules[rule] || !do_meet(set, &zone.area) {
        zones.push(*zone)?;
        return Ok(());
    }
    let mut inside = *zone;
    for axis in 0..set.len() {
        cut_off(zones, set[axis], axis, &inside)?;
        inside = narrowed(set[axis], axis, &inside);
    }
    inside.rules[rule] = true;
    zones.push(inside)?;
    Ok(())
}

// Lays a set of a rule over all zones.
fn lay(alloc: Global, zones: &[Zone], rule: usize, set: &[Interval]) -> Result<Vec<Zone>, NoMemory>
    requires rule { rule < 64 }
    requires axes { length set.now ≤ 8 }
    ensures { IfOk result (λ laid. laid.items ≡ laid_all rule set.now zones.now) }
{
    let mut laid = Vec::new(alloc);
    for zone in zones {
        lay_on(&mut laid, rule, set, zone)?;
    }
    Ok(laid)
}

// Lays all sets of a rule over the zones.
fn lay_sets(
    alloc: Global,
    axes: usize,
    rule: usize,
    sets: &[Seq<Condition>],
    zones: Vec<Zone>,
) -> Result<Vec<Zone>, NoMemory>
    requires axes { axes ≤ 8 }
    requires rule { rule < 64 }
    requires conditions { All (λ set. All (λ condition. condition.axis < 8) set) sets.now }
    ensures { IfOk result (λ laid. laid.items ≡ laid_sets axes rule sets.now zones.items) }
{
    let mut zones = zones;
    for set in sets {
        let area = area_of(set.as_slice());
        zones = lay(alloc, &zones, rule, &area[..axes])?;
    }
    Ok(zones)
}

/// The design space cut into zones, in each of which the same rules hold throughout.
#[tactic(auto, unfolding(crate::specs::Overlay::overlaid))]
pub(crate) fn overlaid(alloc: Global, rules: &[Sets], axes: usize) -> Result<Vec<Zone>, NoMemory>
    requires axes { axes ≤ 8 }
    requires rules { length rules.now ≤ 64 }
    requires conditions { All (λ sets. All (λ set. All (λ condition. condition.axis < 8) set) sets) rules.now }
    ensures { IfOk result (λ zones. zones.items ≡ overlaid axes rules.now) }
{
    let mut zones = Vec::new(alloc);
    zones.push(Zone {
        area: whole(),
        rules: [false; 64],
    })?;
    for rule in 0..rules.len() {
        zones = lay_sets(alloc, axes, rule, rules[rule].as_slice(), zones)?;
    }
    Ok(zones)
}
