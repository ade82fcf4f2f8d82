//! The commands of the tool.
ghost use Rattle.std.specs.Prelude.{◌≡◌};
ghost use Rattle.tool_words.specs.CommandNames.{every_command, name_of};

// A command of the tool, named as its first word is.
#[derive(Clone, Copy)]
pub(crate) enum Command {
    // `split IN OUT P Q MB NB`
    Split,
    // `join PREFIX OUT`
    Join,
    // `move PREFIX OUT P Q MB NB [--threads | --seed S]`
    Move,
    // `check PROGRAM`
    Check,
    // `run PROGRAM [--threads | --seed S]`
    Run,
    // `load SEED SIZE`
    Load,
}

impl Command {
    // Every command.
    #[tactic(auto, unfolding(crate::specs::CommandNames::every_command))]
    pub(crate) fn every() -> [Command; 6]
        ensures { result ≡ every_command }
    {
        [
            Command::Split,
            Command::Join,
            Command::Move,
            Command::Check,
            Command::Run,
            Command::Load,
        ]
    }

    // The word that names it.
    #[tactic(auto, unfolding(crate::specs::CommandNames::name_of))]
    pub(crate) fn name<'a>(self) -> &'a str
        ensures { result.now ≡ name_of self }
    {
        match self {
            Command::Split => "split",
            Command::Join => "join",
            Command::Move => "move",
            Command::Check => "check",
            Command::Run => "run",
            Command::Load => "load",
        }
    }
}
