//! Nodes in the order of their numbers.

ghost use Rattle.std.specs.Prelude.{◌≡◌, List, Some, ◌∷◌, ◌++◌, [], length, IfOk};
ghost use Rattle.std.specs.Option.{option_map, option_or};
ghost use Rattle.gl_gov_rules.specs.GovernedRows.{numbered_from};
ghost use Rattle.gl_gov_rows.specs.Reading.{by_number, all_of};
ghost use Rattle.gl_gov_rules.specs.declared.row.NodeRow.{NodeRow as Node};

use gl_gov_rules::NodeRow;
use std::alloc::{AllocError, Global};

/// Puts the node where none stands.
fn fill(place: &mut Option<NodeRow>, node: NodeRow)
    ensures { place.new ≡ option_or place.old (Some node) }
{
    if place.is_none() {
        *place = Some(node);
    }
}

/// Puts the node at the place of its number, where that is one of the places and none stands there.
fn put(places: &mut [Option<NodeRow>], node: NodeRow)
    ensures { (ns : List Node) → places.old ≡ by_number ns (length places.old) →
        places.new ≡ by_number (ns ++ node ∷ []) (length places.old) }
{
    let number = usize::from(node.order);
    if number >= 1 && number <= places.len() {
        fill(&mut places[number - 1], node);
    }
}

/// So many places at which nothing stands.
fn no_places(alloc: Global, count: usize) -> Result<Vec<Option<NodeRow>>, AllocError>
    ensures { IfOk result (λ places. places.items ≡ by_number [] count) }
{
    let mut places = Vec::new(alloc);
    for _ in 0..count {
        places.push(None)?;
    }
    Ok(places)
}

/// A place for each number from 1, as many as there are nodes, with the first node of that number.
fn places_of(alloc: Global, nodes: Vec<NodeRow>) -> Result<Vec<Option<NodeRow>>, AllocError>
    ensures { IfOk result (λ places.
        places.items ≡ by_number nodes.items (length nodes.items)) }
{
    let mut places = no_places(alloc, nodes.len())?;
    for node in nodes {
        put(&mut places, node);
    }
    Ok(places)
}

/// What stands at the places, if something stands at each.
fn all_of(alloc: Global, places: Vec<Option<NodeRow>>) -> Result<Option<Vec<NodeRow>>, AllocError>
    ensures { IfOk result (λ nodes. option_map (λ v. v.items) nodes ≡ all_of places.items) }
{
    let mut nodes = Vec::new(alloc);
    for place in places {
        match place {
            None => return Ok(None),
            Some(node) => nodes.push(node)?,
        }
    }
    Ok(Some(nodes))
}

/// The nodes in the order of their numbers from 1, if none lacks. Of several with one number the
/// first counts.
pub(crate) fn numbered(
    alloc: Global,
    nodes: Vec<NodeRow>,
) -> Result<Option<Vec<NodeRow>>, AllocError>
    ensures { IfOk result (λ found. option_map (λ v. v.items) found
        ≡ numbered_from (length nodes.items) 1 nodes.items) }
{
    let places = places_of(alloc, nodes)?;
    all_of(alloc, places)
}
