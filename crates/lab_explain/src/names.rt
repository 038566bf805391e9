//! Phenomena of reads, and levels, in sentences.

ghost use Rattle.std.specs.Prelude.{◌≡◌};
ghost use Rattle.lab_explain.specs.Names.{flaw_of, level_line};

use lab_judge::Grade;
use lab_reports::Phenomenon;

/// What is wrong with the version that is seen, where a phenomenon is one of what is seen.
pub fn flaw_of(phenomenon: Phenomenon) -> &'static str
    ensures { result.now ≡ flaw_of phenomenon }
{
    match phenomenon {
        Phenomenon::G1a => ", of a transaction that aborted.",
        Phenomenon::G1b => ", not the last one of its transaction.",
        Phenomenon::G0
        | Phenomenon::G1c
        | Phenomenon::GSingle
        | Phenomenon::G2Item
        | Phenomenon::G2 => ".",
    }
}

/// Returns the line of a level, and of what the next level forbids.
pub fn level_line(level: Grade) -> &'static str
    ensures { result.now ≡ level_line level }
{
    match level {
        Grade::BelowPl1 => "Below level PL-1, which forbids G0.\n",
        Grade::Pl1 => "Level PL-1. PL-2 (read committed) forbids G1a, G1b and G1c.\n",
        Grade::Pl2 => "Level PL-2 (read committed). PL-2.99 (repeatable read) forbids G2-item.\n",
        Grade::Pl299 => "Level PL-2.99 (repeatable read). PL-3 (serializable) forbids G2.\n",
        Grade::Pl3 => "Level PL-3 (serializable).\n",
        Grade::Unsound => "No level is looked for, since the history isn't sound.\n",
    }
}
