//! What the definition of a script means.

ghost use Rattle.replay_run.specs.Cuts.{CutAnywhere};
ghost use Rattle.replay_run.specs.OneOutput.{FirstLinesPrintFirst, LinesHaveOneOutput, SpentIsNotDone};

use byte_text::streams_read_once;
use world_model::step_laws;

/// However the bytes of a session are cut into lines at one moment, the same calls are made and the same is printed, up
/// to a fault that ends them.
pub fn feeds_are_one_stream()
    ensures { CutAnywhere }
{
    streams_read_once();
}

/// A script has one output. Of the lines of one text, or of any list of lines, the definitions allow one output, and
/// one hall with one list of readers behind them, from the opening as from any other beginning. Lines count as done
/// where all that they ask for was answered: one at which memory wants is not done and has no output, and no line is
/// done where it finds the log at its greatest length. So what is written at status 0 is the one output of the text
/// that was read; and what is written at another status in front of the last line of the program is a beginning of the
/// output that the whole text has, where it has one.
pub fn scripts_have_one_output()
    ensures one { LinesHaveOneOutput }
    ensures first { FirstLinesPrintFirst }
    ensures spent { SpentIsNotDone }
{
    step_laws();
}
