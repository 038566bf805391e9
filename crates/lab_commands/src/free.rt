//! Plays of scripts by one thread for each session.

ghost use Rattle.std.specs.Thread.{IsSync};
ghost use Rattle.lab_commands.specs.Playing.{IsFreePlay, IsFreeRefusal};
ghost use Rattle.lab_commands.specs.Untold.{free_untold};

use crate::player::Player;
use lab_engine::{Level, Recording};
use lab_levels::on_engine;
use lab_script::Script;
use lab_session::{Gate, PlayFault, play_free};
use lab_table::Session;
use std::alloc::Global;
use std::sync::Wait;
use std::thread::Threads;

/// A gate that lets every line pass.
struct OpenGate;

impl Gate for OpenGate {
    fn before(&self, _session: Session, _index: usize) {}

    fn after(&self, _session: Session, _index: usize) {}
}

/// Plays scripts by one thread for each session that has lines, each on a fresh engine of this level.
#[derive(Drop)]
pub struct Free<'r, T: Threads + Wait + Sync> {
    pub rt: &'r T,
    pub level: Level,
}

impl<'r, T: Threads + Wait + Sync> Player for Free<'r, T> {
    ghost Needs = { IsSync T.row };

    ghost Plays = { λ p. IsFreePlay p.level };

    ghost Refuses = { λ p. IsFreeRefusal p.level };

    fn play(&self, alloc: Global, script: &Script) -> Result<Recording, PlayFault> {
        let setup = script.setup.copy(alloc)?;
        on_engine!(
            self.level,
            alloc,
            setup,
            |engine| play_free(self.rt, alloc, engine, script, &OpenGate)
        )
    }

    ghost untold = { λ p. free_untold p.level };
}
