//! Bytes that come to a session's reader, and the calls that they bring.

ghost use Rattle.std.specs.Prelude.{◌≡◌, ◌≤◌, true, false};
ghost use Rattle.world_data.specs.Limits.{max_moment};
ghost use Rattle.durable_core.specs.Logged.{hall_of};
ghost use Rattle.replay_run.specs.Readers.{reader_of};
ghost use Rattle.replay_run.specs.Traces.{trace};
ghost use Rattle.replay_run.specs.Scripts.{FedTo, Feeds};
ghost use Rattle.replay_run.specs.Undone.{FedFails, FeedsFails};
ghost use Rattle.replay_run.specs.Steps.{IsBrokenOff, BreakingFails, IsStep};
ghost use Rattle.replay_run.specs.Standing.{Comes};

use crate::calls::call;
use crate::halts::Halt;
use crate::outputs::text_of;
use crate::readers::{Reader, position_of};
use byte_text::{Text, requests_are_read, streams_read_once};
use durable_core::DurableCore;
use outside::Disk;
use resp_frames::{Fed, FeedFault};
use std::alloc::Global;
use world_model::{Asked, ChangedSessions};

// What comes of the first request, or fault, of some bytes.
#[derive(Drop)]
pub(crate) struct Step {
    // What is printed of it.
    out: Text,
    // How many of the bytes end the request; none where nothing more is read of them.
    taken: Option<usize>,
}

// Makes the call of the fault that ends a session's stream; a stream that had ended before makes none.
fn break_off<D: Disk>(
    alloc: Global,
    core: &mut DurableCore<D>,
    session: u32,
    moment: u64,
    fault: FeedFault,
    touched: &mut ChangedSessions,
) -> Result<Text, Halt>
    requires moment { moment ≤ max_moment }
    requires goes { (hall_of core.old).stopped ≡ false }
    ensures made { Comes D.crashes D.seen D.images D.moment D.left_since D.faults core.old core.new
        (λ out deeds. IsBrokenOff (hall_of core.old) session moment fault (trace deeds out) (hall_of core.new))
        (λ halt deeds. BreakingFails halt (hall_of core.old) session moment fault deeds (hall_of core.new)) result }
{
    match fault {
        FeedFault::Broken(fault) => {
            call(alloc, core, session, moment, &Asked::Broken(fault), touched)
        }
        FeedFault::Dead => text_of(alloc, b"dead\n"),
        FeedFault::Memory => Err(Halt::Memory),
    }
}

// Reads the first request of the bytes, or their fault, and makes its call.
fn feed_next<D: Disk>(
    alloc: Global,
    core: &mut DurableCore<D>,
    reader: &mut Reader,
    moment: u64,
    bytes: &[u8],
    touched: &mut ChangedSessions,
) -> Result<Step, Halt>
    requires moment { moment ≤ max_moment }
    requires goes { (hall_of core.old).stopped ≡ false }
    ensures made { Comes D.crashes D.seen D.images D.moment D.left_since D.faults core.old core.new
        (λ s deeds. IsStep (hall_of core.old) reader.old.session moment reader.old.unread bytes.now (trace deeds s.out)
        (hall_of core.new) reader.new.unread s.taken)
        (λ halt deeds. FedFails halt (hall_of core.old) reader.old.session moment reader.old.unread bytes.now deeds
        (hall_of core.new)) result }
    ensures session { reader.new.session ≡ reader.old.session }
{
    // What was read first is the stream's first request, and leaves less than there was.
    streams_read_once();
    requests_are_read();
    match reader.unread.feed(bytes) {
        Ok(fed) => {
            let Fed { taken, request } = fed;
            let Some(request) = request else {
                return Ok(Step {
                    out: Text::new(alloc),
                    taken: None,
                });
            };
            let asked = Asked::Words(request);
            let out = call(alloc, core, reader.session, moment, &asked, touched)?;
            Ok(Step {
                out,
                taken: Some(taken),
            })
        }
        Err(fault) => {
            let out = break_off(alloc, core, reader.session, moment, fault, touched)?;
            Ok(Step { out, taken: None })
        }
    }
}

// Feeds bytes to a reader: makes a call for each whole request that ends in them, and for the fault that they make.
fn feed_reader<D: Disk>(
    alloc: Global,
    core: &mut DurableCore<D>,
    reader: &mut Reader,
    moment: u64,
    bytes: &[u8],
    touched: &mut ChangedSessions,
) -> Result<Text, Halt>
    requires moment { moment ≤ max_moment }
    requires goes { (hall_of core.old).stopped ≡ false }
    ensures made { Comes D.crashes D.seen D.images D.moment D.left_since D.faults core.old core.new
        (λ out deeds. FedTo (hall_of core.old) reader.old.session moment reader.old.unread bytes.now (trace deeds out)
        (hall_of core.new) reader.new.unread)
        (λ halt deeds. FedFails halt (hall_of core.old) reader.old.session moment reader.old.unread bytes.now deeds
        (hall_of core.new)) result }
    ensures session { reader.new.session ≡ reader.old.session }
{
    let mut out = Text::new(alloc);
    let mut rest = bytes;
    loop {
        let step = feed_next(alloc, core, reader, moment, rest, touched)?;
        out.push(step.out.bytes())?;
        match step.taken {
            Some(taken) => rest = &rest[taken..],
            None => return Ok(out),
        }
    }
}

/// Feeds bytes to a session's reader at a moment: makes a call for each whole request that ends in them, and for the
/// fault that they make, and answers what is printed of the calls.
pub(crate) fn feed<D: Disk>(
    alloc: Global,
    core: &mut DurableCore<D>,
    readers: &mut Vec<Reader>,
    session: u32,
    moment: u64,
    bytes: &[u8],
    touched: &mut ChangedSessions,
) -> Result<Text, Halt>
    requires moment { moment ≤ max_moment }
    requires goes { (hall_of core.old).stopped ≡ false }
    ensures made { Comes D.crashes D.seen D.images D.moment D.left_since D.faults core.old core.new
        (λ out deeds. Feeds (record { hall = hall_of core.old; readers = readers.old.items }) session moment bytes.now
        (reader_of session readers.old.items) (trace deeds out)
        (record { hall = hall_of core.new; readers = readers.new.items }))
        (λ halt deeds. FeedsFails halt (hall_of core.old) session moment bytes.now
        (reader_of session readers.old.items) deeds (hall_of core.new)) result }
{
    match position_of(readers.as_slice(), session) {
        Some(at) => feed_reader(alloc, core, &mut readers[at], moment, bytes, touched),
        None => text_of(alloc, b"gone\n"),
    }
}
