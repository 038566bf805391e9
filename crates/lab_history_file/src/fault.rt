//! Values that aren't of the format.

ghost use Rattle.std.specs.Prelude.{◌≡◌};
ghost use Rattle.lab_history.specs.Faults.{Gives, required as spec_required};

use lab_history::{FileFault, Path};

/// The fault of a value that isn't of the format.
pub fn wrong(path: Path) -> FileFault
    ensures { result ≡ FileFault.WrongFormat path }
{
    FileFault::WrongFormat { path }
}

/// What has to be at a place.
#[inline(always)]
pub fn required<X>(found: Option<X>, path: Path) -> Result<X, FileFault>
    ensures { Gives (λ x. x) result (spec_required path found) }
{
    found.ok_or(wrong(path))
}
