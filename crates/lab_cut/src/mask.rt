//! Masks: which members of lists are kept.

ghost use Rattle.std.specs.Prelude.{◌≡◌, drop};
ghost use Rattle.lab_cut.specs.Left.{next_kept};

use std::marker::Model;

/// A mask of members that come one after the other: what it says of those to come.
#[derive(Drop)]
pub struct Mask<'a> {
    rest: &'a [bool],
}

impl<'a> Model for Mask<'a> {
    ghost use Rattle.std.specs.Prelude.{List, Bool};

    ghost Value = { List Bool };

    ghost view = { λ m. m.rest.now };
}

impl<'a> Mask<'a> {
    /// This mask.
    pub fn new(kept: &'a [bool]) -> Mask<'a>
        ensures { result ≡ kept.now }
    {
        Mask { rest: kept }
    }

    /// Whether the next member is kept. Those beyond the mask are.
    pub fn next(&mut self) -> bool
        ensures kept { result ≡ next_kept self.old }
        ensures rest { self.new ≡ drop 1 self.old }
    {
        match self.rest.split_first() {
            Some((kept, rest)) => {
                self.rest = rest;
                *kept
            }
            None => true,
        }
    }
}
