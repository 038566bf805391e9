//! Hints for consecutive look-ups.

/// The position of the last look-up's result, and its distance from the one before. Most look-ups ask for the next
/// position, such as the next row of the same transaction, or for the same distance again, such as the same row of the
/// next transaction. Pass one hint to consecutive look-ups; each updates it. A hint changes no result, only the time
/// that a look-up takes.
#[derive(Clone, Copy, Debug)]
pub struct Hint {
    place: usize,
    stride: usize,
}

impl Hint {
    /// Returns the hint for the first look-up.
    pub fn new() -> Hint {
        Hint {
            place: 0,
            stride: 0,
        }
    }

    /// The place right behind the last one.
    #[inline(always)]
    pub(crate) fn next(self) -> usize {
        self.place.wrapping_add(1)
    }

    /// The place as far from the last one as that was from one before.
    #[inline(always)]
    pub(crate) fn strided(self) -> usize {
        self.place.wrapping_add(self.stride)
    }

    /// The hint after a look-up that found its entry at this place. What stands right behind the last one leaves the
    /// stride as it was.
    #[inline(always)]
    pub(crate) fn moved_to(self, place: usize) -> Hint {
        let stride = if place == self.next() {
            self.stride
        } else {
            place.wrapping_sub(self.place)
        };
        Hint { place, stride }
    }
}
