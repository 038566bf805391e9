//! The level of a run in parts.

ghost use Rattle.std.specs.Prelude.{◌≡◌};
ghost use Rattle.lab_chain.specs.Levels.{level_rank, level_name, level_of, levels_met, worse};

use lab_judge::Grade;

/// The level of a run in parts: the worst level of its parts. Listed from best to worst.
#[derive(Clone, Copy, Debug, PartialEq, Eq)]
pub enum Level {
    /// PL-3.
    Pl3,
    /// PL-2.99.
    Pl299,
    /// PL-2.
    Pl2,
    /// PL-1.
    Pl1,
    /// A part has no report, and no other part is worse than PL-1.
    NotJudged,
    /// A part has G0.
    BelowPl1,
    /// A part isn't sound, or doesn't begin with the rows with which the part before it ended.
    Unsound,
}

impl Level {
    /// All of them, from the best to the worst.
    pub const ALL: [Level; 7] = [
        Level::Pl3,
        Level::Pl299,
        Level::Pl2,
        Level::Pl1,
        Level::NotJudged,
        Level::BelowPl1,
        Level::Unsound,
    ];

    /// Returns the level of one part.
    pub fn of(grade: Grade) -> Level
        ensures { result ≡ level_of grade }
    {
        match grade {
            Grade::Pl3 => Level::Pl3,
            Grade::Pl299 => Level::Pl299,
            Grade::Pl2 => Level::Pl2,
            Grade::Pl1 => Level::Pl1,
            Grade::BelowPl1 => Level::BelowPl1,
            Grade::Unsound => Level::Unsound,
        }
    }

    /// Returns the printed level, such as `PL-3`, `not judged` or `unsound`.
    pub fn name(self) -> &'static str
        ensures { result.now ≡ level_name self }
    {
        match self {
            Level::Pl3 => "PL-3",
            Level::Pl299 => "PL-2.99",
            Level::Pl2 => "PL-2",
            Level::Pl1 => "PL-1",
            Level::NotJudged => "not judged",
            Level::BelowPl1 => "below PL-1",
            Level::Unsound => "unsound",
        }
    }

    /// How bad it is: 0 is the best.
    pub(crate) fn rank(self) -> u8
        ensures { result ≡ level_rank self }
    {
        match self {
            Level::Pl3 => 0,
            Level::Pl299 => 1,
            Level::Pl2 => 2,
            Level::Pl1 => 3,
            Level::NotJudged => 4,
            Level::BelowPl1 => 5,
            Level::Unsound => 6,
        }
    }

    /// Returns how many of the levels PL-1, PL-2, PL-2.99 and PL-3 the run meets.
    pub fn levels_met(self) -> u8
        ensures { result ≡ levels_met self }
    {
        match self {
            Level::Pl3 => 4,
            Level::Pl299 => 3,
            Level::Pl2 => 2,
            Level::Pl1 => 1,
            Level::NotJudged | Level::BelowPl1 | Level::Unsound => 0,
        }
    }

    /// Returns the worse of two levels.
    pub fn worse(self, other: Level) -> Level
        ensures { result ≡ worse self other }
    {
        if self.rank() < other.rank() {
            other
        } else {
            self
        }
    }
}
