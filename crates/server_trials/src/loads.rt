//! The last line of the workload, and the lines of its summary, against worked values.

use byte_text::{Text, push_words};
use std::alloc::Global;
use std::test::Fail;
use work_gen::{Role, Summary, Workload, push_summary};

// Who asks for the last line of a workload, and for what.
fn last_line(alloc: Global, commands: u32, seed: u64) -> Result<(Option<Role>, Text), Fail> {
    let mut workload = Workload::new(commands, seed);
    let mut role = None;
    let mut text = Text::new(alloc);
    for _ in 0..1_000 {
        let Some(line) = workload.next_line(alloc)? else {
            break;
        };
        role = Some(line.role);
        text.truncate(0);
        push_words(&mut text, &line.words)?;
    }
    Ok((role, text))
}

// The first draw from seed 0 is 167951807, which ends with a 7; so the one command deletes vehicle 0.
#[test]
fn the_one_command_of_seed_zero(rt: HostRuntime) -> Result<(), Fail> {
    let (role, text) = last_line(rt.alloc(), 1, 0)?;
    let due = b"$3\r\nDEL\r\n$5\r\nfleet\r\n$2\r\nv0\r\n".as_slice();
    assert_eq!(rt; role, Some(Role::Sender));
    assert_eq!(rt; text.bytes(), due);
    Ok(())
}

#[test]
fn a_summary_has_four_lines(rt: HostRuntime) -> Result<(), Fail> {
    let summary = Summary {
        commands: 1,
        objects: 0,
        messages: 0,
        bytes: 100,
    };
    let mut text = Text::new(rt.alloc());
    push_summary(&mut text, &summary)?;
    let due = b"commands 1\nobjects 0\nmessages 0\nbytes 100\n".as_slice();
    assert_eq!(rt; text.bytes(), due);
    Ok(())
}
