//! Places that are noted one after the other.
ghost use Rattle.std.specs.Prelude.{◌≡◌, ◌+◌, ◌≤◌, ℕ, List, OnOk, length};
ghost use Rattle.html_places.specs.Places.{ArePlaces, IsNotBefore, IsPlaceIn};

use crate::place::Place;
use html_forest::{Forest, NodeData, NodeId};
use std::alloc::AllocError;

/// A place, or the last of those that were noted where it is before that.
fn not_before(places: &[Place], place: Place) -> Place
    ensures place { (text : List ℕ) → ArePlaces text places.now → IsPlaceIn text place → IsPlaceIn text result }
    ensures order { IsNotBefore places.now result }
{
    if places.is_empty() {
        return place;
    }
    let last = places[places.len() - 1];
    if place.is_before(last) {
        return last;
    }
    place
}

/// Adds a place, or that of the last one where it is before that.
pub(crate) fn add_place(places: &mut Vec<Place>, place: Place) -> Result<(), AllocError>
    ensures places { (text : List ℕ) → ArePlaces text places.old.items → IsPlaceIn text place → ArePlaces text places.new.items }
    ensures more { OnOk result (length places.new.items ≡ length places.old.items + 1) }
{
    let place = not_before(places.as_slice(), place);
    places.push(place)?;
    Ok(())
}

/// Adds a place until there are so many.
pub(crate) fn fill(places: &mut Vec<Place>, count: usize, place: Place) -> Result<(), AllocError>
    ensures places { (text : List ℕ) → ArePlaces text places.old.items → IsPlaceIn text place → ArePlaces text places.new.items }
    ensures enough { OnOk result (count ≤ length places.new.items) }
{
    while places.len() < count {
        add_place(places, place)?;
    }
    Ok(())
}

/// The number after the last text among the nodes from a number on, or that number.
pub(crate) fn after_last_text(forest: &Forest, first: usize) -> usize {
    let mut after = first;
    for number in first..usize::MAX {
        match forest.node(NodeId::new(number)) {
            Some(NodeData::Text(_)) => after = number + 1,
            Some(_) => {}
            None => return after,
        }
    }
    after
}

/// Adds a place for each node that has none.
pub(crate) fn fill_nodes(
    places: &mut Vec<Place>,
    forest: &Forest,
    place: Place,
) -> Result<(), AllocError>
    ensures places { (text : List ℕ) → ArePlaces text places.old.items → IsPlaceIn text place → ArePlaces text places.new.items }
{
    while forest.node(NodeId::new(places.len())).is_some() {
        add_place(places, place)?;
    }
    Ok(())
}
