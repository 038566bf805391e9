//! Plays scripts with one thread.

ghost use Rattle.std.specs.Prelude.{⊤};
ghost use Rattle.lab_commands.specs.Playing.{IsScriptedPlay, IsScriptedRefusal};
ghost use Rattle.lab_commands.specs.Untold.{scripted_untold};

use crate::player::Player;
use lab_engine::{Level, Recording};
use lab_levels::on_engine;
use lab_script::Script;
use lab_session::{PlayFault, play_script};
use std::alloc::Global;

/// Plays scripts with one thread, each on a fresh engine of this level.
#[derive(Drop)]
pub struct Scripted {
    pub level: Level,
}

impl Player for Scripted {
    ghost Needs = { ⊤ };

    ghost Plays = { λ p. IsScriptedPlay p.level };

    ghost Refuses = { λ p. IsScriptedRefusal p.level };

    fn play(&self, alloc: Global, script: &Script) -> Result<Recording, PlayFault> {
        let setup = script.setup.copy(alloc)?;
        on_engine!(
            self.level,
            alloc,
            setup,
            |engine| play_script(alloc, engine, script)
        )
    }

    ghost untold = { λ p. scripted_untold p.level };
}
