//! What every command that is asked for keeps to, as a law.

ghost use Rattle.cmd_words.specs.Laws.{CommandsAreServed};

/// Which commands are asked for, and what each of them keeps to.
pub fn served_commands()
    ensures { CommandsAreServed }
{}
