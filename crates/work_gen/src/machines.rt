//! What the workload asks of a machine.

use world_data::Frames;
use world_model::{Asked, CallOutcome, EnterFault, Taken};

/// A machine that nobody else asks: each call is one step of its hall, and nothing comes between two of them.
pub trait Machine {
    ghost use Rattle.std.specs.Prelude.{◌≡◌, [], length, true};
    ghost use Rattle.world_data.specs.Limits.{take_frames};
    ghost use Rattle.world_model.specs.Halls.{Hall};
    ghost use Rattle.world_model.specs.Histories.{Step};
    ghost use Rattle.world_model.specs.Outcomes.{is_proper, enter_outcome, take_outcome};
    ghost use Rattle.world_model.specs.declared.events.Event.TheVariants as event;
    ghost use Rattle.world_model.specs.declared.events.Outcome.TheVariants as outcome;

    /// The hall that it stands for.
    ghost hall: { Self → Hall };

    /// Lets a session in, and answers its number.
    fn enter(&mut self) -> Result<u32, EnterFault>
        ensures step { Step (hall self.old) event.Enter (enter_outcome result) (hall self.new) }
        ensures stopped { (hall self.new).stopped ≡ (hall self.old).stopped };

    /// Makes a call of a session at moment 0.
    fn call(&mut self, session: u32, asked: &Asked) -> CallOutcome
        requires proper { is_proper asked.now ≡ true }
        ensures step { Step (hall self.old) (event.Call session 0 asked.now) (outcome.Answered result) (hall self.new) }
        ensures stopped { (hall self.new).stopped ≡ (hall self.old).stopped };

    /// Gives the first frames of a session, as many as there are places.
    fn take(&mut self, session: u32, into: &mut Frames) -> Taken
        requires { into.old ≡ record { list = []; places = take_frames } }
        ensures step { Step (hall self.old) (event.Take session) (take_outcome result into.new.list) (hall self.new) }
        ensures places { into.new.places ≡ take_frames }
        ensures stopped { (hall self.new).stopped ≡ (hall self.old).stopped };

    /// How many objects there are.
    fn objects(&self) -> u64
        ensures { result ≡ length (hall self.now).world.objects };
}
