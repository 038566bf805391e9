//! What may come at a position, in words.

use crate::grammar::{Item, Place, forms, may_end};
use crate::position::Position;
use crate::text::{Part, put};
use lab_table::NoMemory;

/// Appends what an item is.
fn put_item(out: &mut Vec<u8>, item: Item) -> Result<(), NoMemory> {
    match item {
        Item::Text(text) => put(out, &[Part::Say("'"), Part::Say(text), Part::Say("'")]),
        Item::Name => put(out, &[Part::Say("a table's name")]),
        Item::Word => put(out, &[Part::Say("a word")]),
        Item::Comparison => put(out, &[Part::Say("one of = <> < <= > >=")]),
        Item::Id => put(out, &[Part::Say("an id")]),
        Item::Value => put(out, &[Part::Say("a number")]),
        Item::Modulus => put(out, &[Part::Say("a modulus")]),
    }
}

/// Appends what stands before one of so many choices.
fn put_separator(out: &mut Vec<u8>, index: usize, count: usize) -> Result<(), NoMemory> {
    if index == 0 {
        Ok(())
    } else if index == count.saturating_sub(1) {
        put(out, &[Part::Say(" or ")])
    } else {
        put(out, &[Part::Say(", ")])
    }
}

/// Appends the first items of the forms of a place, and the end where a line may end there.
fn put_choices(out: &mut Vec<u8>, place: Place) -> Result<(), NoMemory> {
    let forms = forms(place);
    let ends = may_end(place);
    let count = forms.len() + usize::from(ends);
    for (index, form) in forms.iter().enumerate() {
        put_separator(out, index, count)?;
        if let Some(item) = form.items.first() {
            put_item(out, *item)?;
        }
    }
    if ends {
        put_separator(out, forms.len(), count)?;
        put(out, &[Part::Say("the end")])?;
    }
    Ok(())
}

/// Appends what may come at a position.
pub fn put_wanted(out: &mut Vec<u8>, position: &Position) -> Result<(), NoMemory> {
    if position.signed {
        put(out, &[Part::Say("digits")])
    } else if let Some(item) = position.items.first() {
        put_item(out, *item)
    } else {
        put_choices(out, position.place)
    }
}
