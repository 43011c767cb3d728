//! A node follows a leader whose parts are lost, come twice and late, and that dies and is started again.

use crate::deaths::{Sides, left_of};
use crate::draws::Draws;
use crate::faults::Fault;
use crate::hearers::Hearer;
use crate::leaders::{Answer, Answered, Leader};
use crate::tallies::{Tally, count};
use outside::MemoryDisk;
use repl_node::LogPlace;
use repl_stream::{Ask, PartBytes};
use std::alloc::Global;

// So many answers are kept, to be heard again.
const KEPT: usize = 24;

// A node that asks so often one after the other has published.
const MOST_ASKS: u64 = 64;

// What becomes of a leader in a step.
#[derive(Clone, Copy)]
enum Went {
    On,
    /// It was killed.
    Killed,
    /// A call of its disk failed: while a part was read, or another one.
    Failed { is_read: bool },
}

// A node, and what is between it and its leader.
#[derive(Drop)]
struct Play {
    alloc: Global,
    hearer: Hearer,
    // What was answered last.
    earlier: Vec<Answer>,
    draws: Draws,
    // Notes of objects have fewer bytes.
    most: u64,
    // Where the bytes of parts are put.
    place: PartBytes,
    tally: Tally,
}

// Asks a leader until the node has published all, and what it publishes is compared.
fn settle(
    leader: &mut Leader,
    hearer: &mut Hearer,
    place: &mut PartBytes,
    tally: &mut Tally,
) -> Result<(), Fault> {
    for _ in 0..MOST_ASKS {
        let Answered::Given(answer) = leader.answer(hearer.ask(), place)? else {
            return Err(Fault::Step);
        };
        let is_taken = hearer.hear(&answer, tally)?;
        tally.expect(is_taken);
        let end = LogPlace {
            generation: answer.part.generation,
            place: answer.part.end,
        };
        if hearer.published() == end {
            return Ok(());
        }
    }
    count(&mut tally.differences);
    Ok(())
}

impl Play {
    fn new(alloc: Global, seed: u64, most: u64) -> Result<Play, Fault> {
        Ok(Play {
            alloc,
            hearer: Hearer::new(alloc),
            earlier: Vec::new(alloc),
            draws: Draws::new(seed),
            most,
            place: PartBytes::new(alloc)?,
            tally: Tally::new(),
        })
    }

    // An answer comes at once, or twice, or not now.
    fn deliver(&mut self, answer: &Answer) -> Result<(), Fault> {
        match self.draws.below(8) {
            0 | 1 => count(&mut self.tally.lost),
            2 => {
                let is_taken = self.hearer.hear(answer, &mut self.tally)?;
                self.tally.expect(is_taken);
                self.hearer.hear(answer, &mut self.tally)?;
                count(&mut self.tally.twice);
            }
            _ => {
                let is_taken = self.hearer.hear(answer, &mut self.tally)?;
                self.tally.expect(is_taken);
            }
        }
        Ok(())
    }

    // One of the answers that are kept comes.
    fn deliver_earlier(&mut self) -> Result<(), Fault> {
        let place = self.draws.below(self.earlier.len() as u64) as usize;
        if let Some(answer) = self.earlier.get(place) {
            self.hearer.hear(answer, &mut self.tally)?;
            count(&mut self.tally.late);
        }
        Ok(())
    }

    // Keeps an answer, in place of the oldest one where there are many.
    fn keep(&mut self, answer: Answer) -> Result<(), Fault> {
        if self.earlier.len() >= KEPT {
            self.earlier.remove(0);
        }
        self.earlier.push(answer)?;
        Ok(())
    }

    // The leader works, and the node asks it or not.
    fn step(&mut self, leader: &mut Leader) -> Result<Went, Fault> {
        for _ in 0..self.draws.below(4) {
            count(&mut self.tally.changes);
            if !leader.work(&mut self.draws, self.most)? {
                return Ok(Went::Failed { is_read: false });
            }
        }
        if self.draws.is_once_in(12) {
            return Ok(Went::Killed);
        }
        if self.draws.is_once_in(4) {
            self.deliver_earlier()?;
        }
        if self.draws.is_once_in(3) {
            return Ok(Went::On);
        }
        match leader.answer(self.hearer.ask(), &mut self.place)? {
            Answered::Given(answer) => {
                self.deliver(&answer)?;
                self.keep(answer)?;
                Ok(Went::On)
            }
            Answered::Failed { is_read } => Ok(Went::Failed { is_read }),
        }
    }

    // A node that heard the same as this one follows on a leader that is started over what a death left.
    fn live(&mut self, left: &Sides, seed: u64) -> Result<(), Fault> {
        count(&mut self.tally.lives);
        let mut leader = left.start(self.alloc)?;
        let mut hearer = self.hearer.heard_again(&mut self.tally)?;
        settle(&mut leader, &mut hearer, &mut self.place, &mut self.tally)?;
        let mut draws = Draws::new(seed);
        for _ in 0..3u32 {
            if !leader.work(&mut draws, self.most)? {
                return Err(Fault::Step);
            }
        }
        settle(&mut leader, &mut hearer, &mut self.place, &mut self.tally)
    }

    // A leader dies over a disk. With all that this may leave a copy of the node lives on; one of it is handed out.
    fn die(&mut self, disk: &MemoryDisk) -> Result<Sides, Fault> {
        count(&mut self.tally.deaths);
        let mut left = left_of(self.alloc, disk)?;
        let seed = self.draws.below(1 << 31);
        for sides in left.as_slice() {
            self.live(sides, seed)?;
        }
        let place = self.draws.below(left.len() as u64) as usize;
        if place < left.len() {
            Ok(left.swap_remove(place))
        } else {
            Err(Fault::Step)
        }
    }

    // A leader's disk failed: it has stopped.
    fn note_failed(&mut self, leader: &mut Leader, is_read: bool) {
        if is_read {
            count(&mut self.tally.reads);
        }
        self.tally.expect(leader.is_stopped());
        let is_stopped = leader.answers_stopped(self.hearer.ask(), &mut self.place);
        self.tally.expect(is_stopped);
    }

    // The read of a whole log fails, and the leader is started over what is left. An empty log is not read.
    fn fail_read(&mut self, left: &Sides) -> Result<Leader, Fault> {
        let calls = left.start(self.alloc)?.into_disk().moment();
        let Ok(leader) = left.start_failing(self.alloc, calls.saturating_add(1))? else {
            return Err(Fault::Step);
        };
        let mut leader = leader;
        let whole = Ask {
            generation: 0,
            from: 0,
        };
        match leader.answer(whole, &mut self.place)? {
            Answered::Given(answer) => {
                self.hearer.hear(&answer, &mut self.tally)?;
                Ok(leader)
            }
            Answered::Failed { is_read } => {
                self.tally.expect(is_read);
                self.note_failed(&mut leader, is_read);
                self.die(&leader.into_disk())?.start(self.alloc)
            }
        }
    }

    // A leader dies and is started again. Some call of its disk is to fail then, or none.
    fn start_again(&mut self, leader: Leader) -> Result<Leader, Fault> {
        let left = self.die(&leader.into_disk())?;
        match self.draws.below(4) {
            0 => left.start(self.alloc),
            1 => self.fail_read(&left),
            _ => {
                let number = self.draws.below(60).saturating_add(1);
                match left.start_failing(self.alloc, number)? {
                    Ok(leader) => Ok(leader),
                    Err(disk) => self.die(&disk)?.start(self.alloc),
                }
            }
        }
    }

    // Plays so many steps, and lets the node publish all in the end.
    fn play(&mut self, steps: u64) -> Result<(), Fault> {
        let mut leader = Sides::new(self.alloc).start(self.alloc)?;
        for _ in 0..steps {
            leader = match self.step(&mut leader)? {
                Went::On => leader,
                Went::Killed => self.start_again(leader)?,
                Went::Failed { is_read } => {
                    self.note_failed(&mut leader, is_read);
                    self.start_again(leader)?
                }
            };
        }
        let mut last = self.die(&leader.into_disk())?.start(self.alloc)?;
        settle(
            &mut last,
            &mut self.hearer,
            &mut self.place,
            &mut self.tally,
        )
    }
}

/// Has a node follow a leader for so many steps that a seed determines, in which notes of objects have fewer bytes than
/// these. What came of it.
pub(crate) fn follow(alloc: Global, seed: u64, steps: u64, most: u64) -> Result<Tally, Fault> {
    let mut play = Play::new(alloc, seed, most)?;
    play.play(steps)?;
    Ok(play.tally)
}
