//! What is done with the core in one turn.

ghost use Rattle.std.specs.Prelude.{◌≡◌, ◌≤◌, [], true, false, length};
ghost use Rattle.std.specs.List.{list_all};
ghost use Rattle.world_data.specs.Limits.{max_moment};
ghost use Rattle.world_model.specs.Outcomes.{is_proper, call_acts, IsCount};
ghost use Rattle.world_model.specs.Halls.{NamesChanged};
ghost use Rattle.shared_hall.specs.Cores.{hall_in, disk_in, TurnsBy};
ghost use Rattle.shared_hall.specs.Turns.{acts, note_by, Gives};
ghost use Rattle.shared_hall.specs.declared.works.HallWork.TheVariants as work;

use crate::places::HallCore;
use crate::works::{Asking, AskingPart, HallAnswer, HallWork, Taking, Ticking};
use outside::Disk;
use turn_lock::Work;
use world_model::{Answers, AskedList, CallOutcome, ChangedSessions};

impl<D: Disk + Drop> Work<HallCore<D>> for HallWork {
    type Out = HallAnswer<D>;

    ghost use Rattle.shared_hall.specs.Turns.{entries_of, Gives};

    ghost entries = { λ asked out h. entries_of D.crashes D.seen D.images D.moment D.left_since D.faults asked out h };

    ghost gives = { λ asked before out after. Gives D.crashes D.seen D.images D.moment D.left_since D.faults asked
        before.place out after.place };

    // What commits is done behind what waits with it: one commit serves the changes of all.
    fn is_late(&self) -> bool {
        matches!(
            self,
            HallWork::Take(_) | HallWork::StepRewrite | HallWork::Part(_) | HallWork::Retire
        )
    }

    fn run(self, value: &mut HallCore<D>) -> HallAnswer<D> {
        answer(value, self)
    }
}

// Does what is asked, and answers it.
fn answer<D: Disk + Drop>(core: &mut HallCore<D>, asked: HallWork) -> HallAnswer<D>
    ensures handed { core.new.handed ≡ core.old.handed }
    ensures gives { Gives D.crashes D.seen D.images D.moment D.left_since D.faults asked core.old.place result
        core.new.place }
    ensures turn { TurnsBy D.crashes D.seen D.images D.moment D.left_since D.faults (acts asked result)
        (note_by asked result) (disk_in core.new.before.value) core.old.place core.new.place }
{
    match asked {
        HallWork::Enter => HallAnswer::Entered(core.enter()),
        HallWork::Call(asking) => answer_call(core, asking),
        HallWork::Take(taking) => answer_take(core, taking),
        HallWork::Tick(ticking) => answer_tick(core, ticking),
        HallWork::Close(session) => {
            core.close(session);
            HallAnswer::Done
        }
        HallWork::Remove(session) => {
            core.remove(session);
            HallAnswer::Done
        }
        HallWork::StepRewrite => {
            let (called, log) = core.step_rewrite();
            HallAnswer::Rewrote(called, log)
        }
        HallWork::Part(asking) => answer_part(core, asking),
        HallWork::Retire => HallAnswer::Retired(core.retire()),
    }
}

fn answer_call<D: Disk + Drop>(core: &mut HallCore<D>, asking: Asking) -> HallAnswer<D>
    ensures handed { core.new.handed ≡ core.old.handed }
    ensures gives { Gives D.crashes D.seen D.images D.moment D.left_since D.faults
        (work.Call asking) core.old.place result core.new.place }
    ensures turn { TurnsBy D.crashes D.seen D.images D.moment D.left_since D.faults (acts (work.Call asking) result)
        [] (disk_in core.new.before.value) core.old.place core.new.place }
{
    let Asking {
        session,
        moment,
        asked,
        mut touched,
    } = asking;
    touched.clear();
    let answers = call_each(core, session, moment, &asked, &mut touched);
    HallAnswer::Called(answers, asked, touched)
}

fn answer_take<D: Disk + Drop>(core: &mut HallCore<D>, taking: Taking) -> HallAnswer<D>
    ensures handed { core.new.handed ≡ core.old.handed }
    ensures gives { Gives D.crashes D.seen D.images D.moment D.left_since D.faults
        (work.Take taking) core.old.place result core.new.place }
    ensures turn { TurnsBy D.crashes D.seen D.images D.moment D.left_since D.faults (acts (work.Take taking) result)
        [] (disk_in core.new.before.value) core.old.place core.new.place }
{
    let Taking { session, mut into } = taking;
    let taken = core.take(session, &mut into);
    HallAnswer::Taken(taken, into)
}

fn answer_tick<D: Disk + Drop>(core: &mut HallCore<D>, ticking: Ticking) -> HallAnswer<D>
    ensures handed { core.new.handed ≡ core.old.handed }
    ensures gives { Gives D.crashes D.seen D.images D.moment D.left_since D.faults
        (work.Tick ticking) core.old.place result core.new.place }
    ensures turn { TurnsBy D.crashes D.seen D.images D.moment D.left_since D.faults (acts (work.Tick ticking) result)
        [] (disk_in core.new.before.value) core.old.place core.new.place }
{
    let Ticking {
        moment,
        mut touched,
    } = ticking;
    touched.clear();
    let called = core.tick(moment, &mut touched);
    HallAnswer::Ticked(called, touched)
}

fn answer_part<D: Disk + Drop>(core: &mut HallCore<D>, asking: AskingPart) -> HallAnswer<D>
    ensures handed { core.new.handed ≡ core.old.handed }
    ensures gives { Gives D.crashes D.seen D.images D.moment D.left_since D.faults
        (work.Part asking) core.old.place result core.new.place }
    ensures turn { TurnsBy D.crashes D.seen D.images D.moment D.left_since D.faults (acts (work.Part asking) result)
        (note_by (work.Part asking) result) (disk_in core.new.before.value) core.old.place core.new.place }
{
    let AskingPart { ask, mut into } = asking;
    let given = core.log_part(ask, &mut into);
    HallAnswer::Parted(given, into)
}

// Makes the calls of a session in order, up to the first that is not answered Ok.
fn call_each<D: Disk + Drop>(
    core: &mut HallCore<D>,
    session: u32,
    moment: u64,
    asked: &AskedList,
    touched: &mut ChangedSessions,
) -> Answers
    requires early { moment ≤ max_moment }
    requires proper { list_all is_proper asked.now ≡ true }
    requires none { touched.old ≡ [] }
    ensures count { IsCount result.served result.end (length asked.now) }
    ensures handed { core.new.handed ≡ core.old.handed }
    ensures turn { TurnsBy D.crashes D.seen D.images D.moment D.left_since D.faults
        (call_acts session moment asked.now result.served result.end)
        [] (disk_in core.new.before.value) core.old.place core.new.place }
    ensures named { NamesChanged touched.new (hall_in core.old.place) (hall_in core.new.place) }
{
    for i in 0..asked.len() {
        match core.call(session, moment, asked.at(i), touched) {
            CallOutcome::Ok => {}
            end => return Answers { served: i, end },
        }
    }
    Answers {
        served: asked.len(),
        end: CallOutcome::Ok,
    }
}
