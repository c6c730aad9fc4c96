// The parts that a condition demands, as what stands in the way.
ghost use Rattle.std.specs.Prelude.{◌≡◌, ◌≤◌, ◌++◌, ◌∷◌, [], All, IfOk, IfSome, OnOk, length, map, true};
ghost use Rattle.filter_zones.specs.Possible.{FitsZones, needed as chunks_needed};
ghost use Rattle.table_sets.specs.declared.limits.TheConstants.{MOST_CHUNKS};
ghost use Rattle.inspect_notes.specs.Parts as parts;
ghost use Rattle.inspect_notes.specs.Obstacles as spec;

use crate::obstacle::{Choice, Obstacle};
use filter_zones::{Bound, ChunkZones, Cond, may_be};
use std::alloc::Global;
use table_core::{MOST_CHUNKS, Memory};

// Whether a row of a chunk may have what is asked of a condition.
fn may_have(want: bool, cond: &Cond, chunk: &ChunkZones) -> bool
    requires { FitsZones cond.now chunk.now.zones }
    ensures { result ≡ parts.may_have want cond.now chunk.now }
{
    let truths = may_be(cond, chunk);
    if want {
        truths.can_true
    } else {
        truths.can_false
    }
}

// Whether each chunk may have what is asked of a condition.
fn in_each(want: bool, cond: &Cond, zones: &[ChunkZones]) -> bool
    requires { All (λ chunk. FitsZones cond.now chunk.zones) zones.now }
    ensures { result ≡ parts.in_each want cond.now zones.now }
{
    for place in 0..zones.len() {
        if !may_have(want, cond, &zones[place]) {
            return false;
        }
    }
    true
}

// The first column that a condition names.
fn first_column(cond: &Cond) -> u32
    ensures { result ≡ parts.first_column cond.now }
{
    match cond {
        Cond::Compare {
            column,
            op: _,
            value: _,
        } => *column,
        Cond::IsNull { column, negated: _ } => *column,
        Cond::And(a, _) | Cond::Or(a, _) => first_column(a),
        Cond::Not(a) => first_column(a),
    }
}

fn comparison(column: u32, value: Bound) -> Obstacle
    ensures { result ≡ spec.comparison column value }
{
    match value {
        Bound::Number(_) => Obstacle::Numbers { column },
        Bound::Code(_) | Bound::Gap(_) => Obstacle::Texts { column },
    }
}

fn choice_of(want: bool) -> Choice
    ensures { result ≡ spec.choice_of want }
{
    if want {
        Choice::Either
    } else {
        Choice::NotBoth
    }
}

// Of a choice, the side that each chunk may have.
fn choice(want: bool, a: &Cond, b: &Cond, zones: &[ChunkZones]) -> Obstacle
    requires a { All (λ chunk. FitsZones a.now chunk.zones) zones.now }
    requires b { All (λ chunk. FitsZones b.now chunk.zones) zones.now }
    ensures { result ≡ spec.choice want a.now b.now zones.now }
{
    if in_each(want, a, zones) {
        return Obstacle::Side {
            column: first_column(a),
            choice: choice_of(want),
        };
    }
    if in_each(want, b, zones) {
        return Obstacle::Side {
            column: first_column(b),
            choice: choice_of(want),
        };
    }
    Obstacle::Sides {
        choice: choice_of(want),
    }
}

fn add(obstacles: &mut Vec<Obstacle>, obstacle: Obstacle) -> Result<(), Memory>
    ensures { OnOk result (obstacles.new.items ≡ obstacles.old.items ++ obstacle ∷ []) }
{
    obstacles.push(obstacle)?;
    Ok(())
}

// Adds each part that the condition demands.
fn add_parts(
    obstacles: &mut Vec<Obstacle>,
    want: bool,
    cond: &Cond,
    zones: &[ChunkZones],
) -> Result<(), Memory>
    requires { All (λ chunk. FitsZones cond.now chunk.zones) zones.now }
    ensures { OnOk result (obstacles.new.items ≡ obstacles.old.items
        ++ map (spec.obstacle_at zones.now) (parts.demanded want cond.now)) }
{
    match cond {
        Cond::Compare {
            column,
            op: _,
            value,
        } => add(obstacles, comparison(*column, *value)),
        Cond::IsNull { column, negated: _ } => add(obstacles, Obstacle::Nulls { column: *column }),
        Cond::And(a, b) => {
            if !want {
                return add(obstacles, choice(want, a, b, zones));
            }
            add_parts(obstacles, want, a, zones)?;
            add_parts(obstacles, want, b, zones)
        }
        Cond::Or(a, b) => {
            if want {
                return add(obstacles, choice(want, a, b, zones));
            }
            add_parts(obstacles, want, a, zones)?;
            add_parts(obstacles, want, b, zones)
        }
        Cond::Not(a) => add_parts(obstacles, !want, a, zones),
    }
}

/// What stands in the way where a query with this condition needs so many chunks.
pub(crate) fn obstacles_of(
    alloc: Global,
    cond: &Option<Cond>,
    zones: &[ChunkZones],
    needed: u32,
) -> Result<Vec<Obstacle>, Memory>
    requires few { length zones.now ≤ MOST_CHUNKS }
    requires fits { IfSome cond.now (λ c. All (λ chunk. FitsZones c chunk.zones) zones.now) }
    requires needed { needed ≡ length (chunks_needed cond.now zones.now) }
    ensures { IfOk result (λ obstacles. obstacles.items ≡ spec.obstacles_of cond.now zones.now) }
{
    let mut obstacles = Vec::new(alloc);
    if zones.len() == 0 || needed as usize != zones.len() {
        return Ok(obstacles);
    }
    match cond {
        None => add(&mut obstacles, Obstacle::NoWhere)?,
        Some(cond) => add_parts(&mut obstacles, true, cond, zones)?,
    }
    Ok(obstacles)
}
