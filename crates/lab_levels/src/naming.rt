//! The names of the levels' engines.

ghost use Rattle.std.specs.Prelude.{◌≡◌};
ghost use Rattle.std.specs.Str.{bytes_eq};
ghost use Rattle.lab_levels.specs.LevelName.{first_level, level_name, level_named};

use lab_engine::Level;

/// The levels, in the order in which they are told.
pub const LEVELS: [Level; 4] = [
    Level::Locking,
    Level::Committed,
    Level::Snapshot,
    Level::Optimistic,
];

/// Returns the name of the engine of `level`: `locking`, `committed`, `snapshot` or `optimistic`.
pub fn level_name(level: Level) -> &'static str
    ensures { result.now ≡ level_name level }
{
    match level {
        Level::Locking => "locking",
        Level::Committed => "committed",
        Level::Snapshot => "snapshot",
        Level::Optimistic => "optimistic",
    }
}

/// Whether the engine of a level has this name.
fn has_name(level: Level, name: &str) -> bool
    ensures { result ≡ bytes_eq (level_name level) name.now }
{
    level_name(level).as_bytes() == name.as_bytes()
}

/// The first of some levels whose engine has this name.
fn first_level(among: &[Level], name: &str) -> Option<Level>
    ensures { result ≡ first_level name.now among.now }
{
    for level in among {
        if has_name(*level, name) {
            return Some(*level);
        }
    }
    None
}

/// Returns the level of the engine of this name, or `None` if no engine has it.
pub fn level_named(name: &str) -> Option<Level>
    ensures { result ≡ level_named name.now }
{
    first_level(&LEVELS, name)
}
