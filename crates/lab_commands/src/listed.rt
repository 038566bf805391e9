//! The file names in a list.

ghost use Rattle.std.specs.Prelude.{◌≡◌, ◌<◌, map, IfOk};
ghost use Rattle.lab_commands.specs.ListedNames.{names_between, names_in};

use lab_table::NoMemory;
use std::alloc::Global;

/// What stands in a list between these marks, and isn't empty.
fn parted<'a>(alloc: Global, list: &'a str, mark: char) -> Result<Vec<&'a str>, NoMemory>
    requires { mark < 128 }
    ensures { IfOk result (λ names. map (λ name. name.now) names.items ≡ names_between mark list.now) }
{
    let mut names = Vec::new(alloc);
    for name in list.split(mark) {
        if !name.is_empty() {
            names.push(name)?;
        }
    }
    Ok(names)
}

/// Returns the file names of a list, which are separated by NUL bytes if `by_nul`, else by newlines. Skips empty names.
pub fn listed_names<'a>(
    alloc: Global,
    list: &'a str,
    by_nul: bool,
) -> Result<Vec<&'a str>, NoMemory>
    ensures { IfOk result (λ names. map (λ name. name.now) names.items ≡ names_in by_nul list.now) }
{
    if by_nul {
        parted(alloc, list, '\0')
    } else {
        parted(alloc, list, '\n')
    }
}
