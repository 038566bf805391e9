//! Scripts.

use lab_table::{Command, NoMemory, Sequence, Session, Table};

/// A command of a session, and its line number in the text.
#[derive(Debug, Drop)]
pub struct Line {
    pub session: Session,
    pub command: Command,
    pub text_line: u32,
}

/// The lines of a script, in order.
pub type Lines = Sequence<Line>;

/// An initial table, and commands of sessions.
#[derive(Debug, Drop)]
pub struct Script {
    pub setup: Table,
    pub lines: Lines,
}

impl Script {
    ghost use Rattle.std.specs.Prelude.{◌≡◌, OnOk};
    ghost use Rattle.lab_script.specs.Script.{extended};

    /// Takes commands and adds them, as those of a session from this line of the text.
    pub(crate) fn take(
        &mut self,
        session: Session,
        text_line: u32,
        commands: &mut Vec<Command>,
    ) -> Result<(), NoMemory>
        ensures { OnOk result (self.new ≡ extended self.old session text_line commands.old.items) }
    {
        for command in commands.drain(..) {
            self.lines.push(Line {
                session,
                command,
                text_line,
            })?;
        }
        Ok(())
    }
}
