//! What the arguments of a subcommand are meant to ask for.

use crate::options::{Choice, Spelled, option_in, takes, takes_files, takes_value};
use crate::quoted::is_typed;
use lab_table::NoMemory;
use std::alloc::Global;

/// The names that options of subcommands accept.
#[derive(Clone, Copy)]
pub struct Choices<'a> {
    pub engines: &'a [&'a str],
    pub phenomena: &'a [&'a str],
    pub requirements: &'a [&'a str],
    /// What `--as` accepts.
    pub tellings: &'a [&'a str],
}

/// What arguments come to that were given to a subcommand.
#[derive(Drop)]
pub struct Meant<'a> {
    pub engines: Vec<&'a str>,
    pub phenomenon: Option<&'a str>,
    pub requirement: Option<&'a str>,
    pub telling: Option<&'a str>,
    pub title: Option<&'a str>,
    /// The list of names, and whether NULs end them.
    pub list: Option<&'a str>,
    pub is_null: bool,
    /// How many parts a run has.
    pub parts: Option<&'a str>,
    pub is_joined: bool,
    pub has_reports: bool,
    pub is_free: bool,
    pub has_history: bool,
    pub has_rows: bool,
    pub is_json: bool,
    pub has_progress: bool,
    pub files: Vec<&'a str>,
    /// The option whose value is the next argument.
    awaited: Option<Choice>,
    /// Whether an engine is asked for by its option.
    pub asks_engine: bool,
    /// Whether an argument stands where none may, or an option isn't spelled whole.
    pub is_mended: bool,
}

/// The name that a word spells, in either case, if it spells one.
fn named<'a>(names: &'a [&'a str], word: &str) -> Option<&'a str> {
    for name in names {
        if name.eq_ignore_ascii_case(word) {
            return Some(*name);
        }
    }
    None
}

impl<'a> Meant<'a> {
    /// Nothing is asked for.
    fn nothing(alloc: Global) -> Meant<'a> {
        Meant {
            engines: Vec::new(alloc),
            phenomenon: None,
            requirement: None,
            telling: None,
            title: None,
            list: None,
            is_null: false,
            parts: None,
            is_joined: false,
            has_reports: false,
            is_free: false,
            has_history: false,
            has_rows: false,
            is_json: false,
            has_progress: false,
            files: Vec::new(alloc),
            awaited: None,
            asks_engine: false,
            is_mended: false,
        }
    }

    /// What the arguments after a subcommand come to.
    pub fn of(
        alloc: Global,
        subcommand: &str,
        words: &'a [String],
        choices: Choices<'a>,
    ) -> Result<Meant<'a>, NoMemory> {
        let mut meant = Meant::nothing(alloc);
        for word in words {
            meant.take(subcommand, word.as_str(), choices)?;
        }
        Ok(meant)
    }

    /// Whether each of its texts can be typed.
    pub fn is_typed(&self) -> bool {
        is_typed(self.title.unwrap_or(""))
            && is_typed(self.list.unwrap_or(""))
            && self.files.iter().all(|file| is_typed(*file))
    }

    /// Whether they are about a run in parts.
    pub fn is_of_parts(&self) -> bool {
        self.parts.is_some() || self.is_joined || self.has_reports
    }

    /// Whether files are named, or a list of them.
    pub fn names_files(&self) -> bool {
        !self.files.is_empty() || self.list.is_some()
    }

    /// Takes an engine; all but `compare` play the last one.
    fn take_engine(&mut self, engine: Option<&'a str>) -> Result<(), NoMemory> {
        if let Some(engine) = engine {
            if !self.engines.contains(&engine) {
                self.engines.push(engine)?;
            }
        }
        Ok(())
    }

    /// Takes the value of an option, if it is one.
    fn take_value(
        &mut self,
        choice: Choice,
        word: &'a str,
        choices: Choices<'a>,
    ) -> Result<(), NoMemory> {
        match choice {
            Choice::Engine => return self.take_engine(named(choices.engines, word)),
            Choice::Phenomenon => self.phenomenon = named(choices.phenomena, word),
            Choice::Requirement => self.requirement = named(choices.requirements, word),
            Choice::Telling => self.telling = named(choices.tellings, word),
            Choice::Title => self.title = Some(word),
            Choice::FilesFrom => self.list = Some(word),
            Choice::Parts => self.parts = word.parse::<u64>().ok().map(|_| word),
            _ => {}
        }
        Ok(())
    }

    /// The option of which a word is a value, if a subcommand takes one that wasn't given yet.
    fn option_of_value(
        &self,
        subcommand: &str,
        word: &str,
        choices: Choices<'a>,
    ) -> Option<Choice> {
        let given = [
            (Choice::Engine, choices.engines, self.has_engine(subcommand)),
            (
                Choice::Phenomenon,
                choices.phenomena,
                self.phenomenon.is_some(),
            ),
            (
                Choice::Requirement,
                choices.requirements,
                self.requirement.is_some(),
            ),
            (Choice::Telling, choices.tellings, self.telling.is_some()),
        ];
        for (choice, names, is_given) in given {
            if takes(subcommand, choice) && !is_given && named(names, word).is_some() {
                return Some(choice);
            }
        }
        None
    }

    /// Whether a subcommand has the engines that it takes.
    fn has_engine(&self, subcommand: &str) -> bool {
        subcommand == "run" && !self.engines.is_empty()
    }

    /// Takes a word that no option precedes: the value of an option, or the name of a file.
    fn take_stray(
        &mut self,
        subcommand: &str,
        word: &'a str,
        choices: Choices<'a>,
    ) -> Result<(), NoMemory> {
        if takes_files(subcommand) {
            self.files.push(word)?;
            return Ok(());
        }
        self.is_mended = true;
        match self.option_of_value(subcommand, word, choices) {
            Some(choice) => self.take_value(choice, word, choices),
            None if word == "-" => Ok(()),
            None => {
                self.files.push(word)?;
                Ok(())
            }
        }
    }

    /// Takes an option; its value may be the next argument.
    fn take_option(&mut self, spelled: Spelled<'a>, choices: Choices<'a>) -> Result<(), NoMemory> {
        self.is_mended = self.is_mended || !spelled.is_whole;
        match spelled.choice {
            Choice::Engine => self.asks_engine = true,
            Choice::Free => self.is_free = true,
            Choice::History => self.has_history = true,
            Choice::Rows => self.has_rows = true,
            Choice::Json => self.is_json = true,
            Choice::Join => self.is_joined = true,
            Choice::Reports => self.has_reports = true,
            Choice::Progress => self.has_progress = true,
            Choice::Null => self.is_null = true,
            _ => {}
        }
        match spelled.value {
            Some(value) => self.take_value(spelled.choice, value, choices),
            None => {
                if takes_value(spelled.choice) {
                    self.awaited = Some(spelled.choice);
                }
                Ok(())
            }
        }
    }

    /// Takes the next argument.
    fn take(
        &mut self,
        subcommand: &str,
        word: &'a str,
        choices: Choices<'a>,
    ) -> Result<(), NoMemory> {
        if let Some(choice) = self.awaited {
            self.awaited = None;
            return self.take_value(choice, word, choices);
        }
        match option_in(subcommand, word) {
            Some(spelled) => self.take_option(spelled, choices),
            None if word == "-" || !word.starts_with('-') => {
                self.take_stray(subcommand, word, choices)
            }
            None => Ok(()),
        }
    }
}
