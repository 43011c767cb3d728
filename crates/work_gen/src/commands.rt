//! What the two sessions of the workload ask for.

ghost use Rattle.std.specs.Prelude.{◌≡◌, ◌<◌, IfOk, true};
ghost use Rattle.work_gen.specs.Draws.{next, drawn};
ghost use Rattle.world_model.specs.Outcomes.{is_proper};
ghost use Rattle.world_model.specs.declared.events.Asked.TheVariants.{Words};
ghost use Rattle.work_gen.specs.Words.{texts};
ghost use Rattle.work_gen.specs.Workload.{subscribing, channel, put, delete, count_square, find_nearest, command};

use crate::draws::Draws;
use crate::words::{Word, request};
use byte_text::{NoMemory, Request};
use std::alloc::Global;

/// How many channels there are.
pub(crate) const CHANNELS: u32 = 16;

/// To be told of all channels.
pub(crate) fn subscribing(alloc: Global) -> Result<Request, NoMemory>
    ensures words { IfOk result (λ r. r ≡ texts subscribing) }
    ensures proper { IfOk result (λ r. is_proper (Words r) ≡ true) }
{
    request(alloc, &[Word::Psubscribe, Word::All])
}

/// To tell of what enters the square of this number, and of what leaves it.
pub(crate) fn channel(alloc: Global, i: u32) -> Result<Request, NoMemory>
    requires { i < 16 }
    ensures words { IfOk result (λ r. r ≡ texts (channel i)) }
    ensures proper { IfOk result (λ r. is_proper (Words r) ≡ true) }
{
    let low = 60_000 * i;
    let words = [
        Word::Setchan,
        Word::Zone(i),
        Word::Within,
        Word::Fleet,
        Word::Fence,
        Word::Detect,
        Word::EnterExit,
        Word::Bounds,
        Word::Number(low),
        Word::Number(low),
        Word::Number(low + 50_000),
        Word::Number(low + 50_000),
    ];
    request(alloc, &words)
}

// To put a vehicle somewhere.
fn put(alloc: Global, n: u32, draws: &mut Draws) -> Result<Request, NoMemory>
    ensures state { IfOk result (λ _. draws.new.state ≡ (put n (next draws.old.state)).behind) }
    ensures words { IfOk result (λ r. r ≡ texts (put n (next draws.old.state)).words) }
    ensures proper { IfOk result (λ r. is_proper (Words r) ≡ true) }
{
    let vehicle = draws.draw(n / 10 + 1);
    let y = draws.draw(1_000_000);
    let x = draws.draw(1_000_000);
    let words = [
        Word::Set,
        Word::Fleet,
        Word::Vehicle(vehicle),
        Word::Point,
        Word::Number(y),
        Word::Number(x),
    ];
    request(alloc, &words)
}

// To delete a vehicle.
fn delete(alloc: Global, n: u32, draws: &mut Draws) -> Result<Request, NoMemory>
    ensures state { IfOk result (λ _. draws.new.state ≡ (delete n (next draws.old.state)).behind) }
    ensures words { IfOk result (λ r. r ≡ texts (delete n (next draws.old.state)).words) }
    ensures proper { IfOk result (λ r. is_proper (Words r) ≡ true) }
{
    let vehicle = draws.draw(n / 10 + 1);
    request(alloc, &[Word::Del, Word::Fleet, Word::Vehicle(vehicle)])
}

// To count the vehicles of a square.
fn count_square(alloc: Global, draws: &mut Draws) -> Result<Request, NoMemory>
    ensures state { IfOk result (λ _. draws.new.state ≡ (count_square (next draws.old.state)).behind) }
    ensures words { IfOk result (λ r. r ≡ texts (count_square (next draws.old.state)).words) }
    ensures proper { IfOk result (λ r. is_proper (Words r) ≡ true) }
{
    let y = draws.draw(900_000);
    let x = draws.draw(900_000);
    let words = [
        Word::Intersects,
        Word::Fleet,
        Word::Count,
        Word::Bounds,
        Word::Number(y),
        Word::Number(x),
        Word::Number(y + 10_000),
        Word::Number(x + 10_000),
    ];
    request(alloc, &words)
}

// To find the ten vehicles that are nearest to a point.
fn find_nearest(alloc: Global, draws: &mut Draws) -> Result<Request, NoMemory>
    ensures state { IfOk result (λ _. draws.new.state ≡ (find_nearest (next draws.old.state)).behind) }
    ensures words { IfOk result (λ r. r ≡ texts (find_nearest (next draws.old.state)).words) }
    ensures proper { IfOk result (λ r. is_proper (Words r) ≡ true) }
{
    let y = draws.draw(1_000_000);
    let x = draws.draw(1_000_000);
    let words = [
        Word::Nearby,
        Word::Fleet,
        Word::Limit,
        Word::Number(10),
        Word::Ids,
        Word::Point,
        Word::Number(y),
        Word::Number(x),
    ];
    request(alloc, &words)
}

/// The next of so many commands.
#[tactic(auto, unfolding(crate::specs::Workload::command))]
pub(crate) fn command(alloc: Global, n: u32, draws: &mut Draws) -> Result<Request, NoMemory>
    ensures state { IfOk result (λ _. draws.new.state ≡ (command n draws.old.state).behind) }
    ensures words { IfOk result (λ r. r ≡ texts (command n draws.old.state).words) }
    ensures proper { IfOk result (λ r. is_proper (Words r) ≡ true) }
{
    let kind = draws.draw(10);
    if kind <= 6 {
        put(alloc, n, draws)
    } else if kind == 7 {
        delete(alloc, n, draws)
    } else if kind == 8 {
        count_square(alloc, draws)
    } else {
        find_nearest(alloc, draws)
    }
}
