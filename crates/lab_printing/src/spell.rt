//! The trait of values that have a printed form, and lists of them.

ghost use Rattle.std.specs.Prelude.{◌++◌, codes, map, ℕ, List};
ghost use Rattle.lab_printing.specs.Each.{Each};
ghost use Rattle.lab_printing.specs.Printed.{joined};
ghost use Rattle.lab_printing.specs.Sink.{OnTaken, Puts};

use crate::sink::Sink;

/// A value that has a printed form.
pub trait Spell {
    // Its printed form.
    ghost printed: { Self → List ℕ };

    // What its type says of the names and numbers in it.
    ghost in_range: { Self → Type 0 };

    /// Spells the value. Returns whether the sink took the whole text.
    fn spell<S: Sink>(&self, out: &mut S) -> bool
        ensures in_range { OnTaken result (in_range self.now) }
        ensures text { Puts S.kept S.limit result (S.text out.old) (printed self.now) (S.text out.new) };
}

/// Spells one behind another one.
fn spell_next<S: Sink, T: Spell>(out: &mut S, item: &T) -> bool
    ensures in_range { OnTaken result (T.in_range item.now) }
    ensures text { Puts S.kept S.limit result (S.text out.old) (codes ", " ++ T.printed item.now) (S.text out.new) }
{
    out.put(b", ") && item.spell(out)
}

/// Spells a list, with a comma and a space between two values. Returns whether the sink took the whole text.
pub fn spell_all<S: Sink, T: Spell>(out: &mut S, items: &[T]) -> bool
    ensures in_range { OnTaken result (Each T.in_range items.now) }
    ensures text { Puts S.kept S.limit result (S.text out.old) (joined (map T.printed items.now)) (S.text out.new) }
{
    let Some((first, rest)) = items.split_first() else {
        return true;
    };
    if !first.spell(out) {
        return false;
    }
    for item in rest {
        if !spell_next(out, item) {
            return false;
        }
    }
    true
}
