//! How far a line was read along the forms, and how a token leads on from there.

use crate::grammar::{Item, Place, forms, may_end};
use crate::token::{Kind, Token};

/// How far a line was read.
#[derive(Clone, Copy)]
pub struct Position {
    /// What is left of a form that was begun.
    pub items: &'static [Item],
    /// Where the line goes on behind that.
    pub place: Place,
    /// Whether a minus was read whose digits have to come.
    pub signed: bool,
}

impl Position {
    /// The front of a line, or of what comes at a place.
    pub fn at(place: Place) -> Position {
        Position {
            items: &[],
            place,
            signed: false,
        }
    }

    /// Whether a line may end here.
    pub fn may_end(&self) -> bool {
        self.items.is_empty() && !self.signed && may_end(self.place)
    }
}

/// An item that a token is, and what comes behind it.
#[derive(Clone, Copy)]
pub struct Step {
    pub item: Item,
    pub behind: Position,
}

/// Whether a token is this item. Behind a minus only digits are one.
fn fits(item: Item, signed: bool, token: &Token<'_>) -> bool {
    match item {
        Item::Text(text) => !signed && token.is(text),
        Item::Name | Item::Word => !signed && token.kind == Kind::Word,
        Item::Comparison => {
            !signed && matches!(token.text, b"=" | b"<>" | b"<" | b"<=" | b">" | b">=")
        }
        Item::Id | Item::Value | Item::Modulus => {
            token.kind == Kind::Digits || (!signed && token.is("-"))
        }
    }
}

/// The step from these items to what is behind the first, if a token is that one.
fn step_along(
    items: &'static [Item],
    place: Place,
    signed: bool,
    token: &Token<'_>,
) -> Option<Step> {
    let (item, items) = items.split_first()?;
    if !fits(*item, signed, token) {
        return None;
    }
    Some(Step {
        item: *item,
        behind: Position {
            items,
            place,
            signed: false,
        },
    })
}

/// The step that a token makes at a position, if it fits there.
pub fn step_at(position: Position, token: &Token<'_>) -> Option<Step> {
    if !position.items.is_empty() {
        return step_along(position.items, position.place, position.signed, token);
    }
    for form in forms(position.place) {
        let step = step_along(form.items, form.then, position.signed, token);
        if step.is_some() {
            return step;
        }
    }
    None
}

/// The number that digits spell, or the greatest of its type.
pub fn number_of(digits: &[u8]) -> u32 {
    let mut number = 0u32;
    for digit in digits {
        let digit = u32::from(digit.wrapping_sub(b'0'));
        number = number.saturating_mul(10).saturating_add(digit);
    }
    number
}

/// Whether a number, behind a minus or not, is in the range of an item.
pub fn is_in_range(item: Item, signed: bool, number: u32) -> bool {
    match item {
        Item::Id => !signed && 1 <= number && number <= 999_999,
        Item::Modulus => !signed && 1 <= number && number <= 1_000_000,
        _ => number <= 1_000_000_000,
    }
}
