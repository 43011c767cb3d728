//! Requests go through reader and core on one thread, and what was answered is counted.

use crate::drivers::Driver;
use std::alloc::Global;
use std::io;
use std::time::{Clock, Instant};

// The words of two number fields, and of a point, in a SET.
const FIELDS: &str =
    "$5\r\nFIELD\r\n$5\r\nspeed\r\n$2\r\n90\r\n$5\r\nFIELD\r\n$4\r\nload\r\n$3\r\n750\r\n";

const POINT: &str = "$5\r\nPOINT\r\n$2\r\n33\r\n$3\r\n112\r\n";

// A fence that ends in a minute: a square of its own, of 256 in a row.
fn fence_text(alloc: Global, id: u64) -> io::Result<String> {
    let name = format!(in alloc; "gate{:012}", id)?;
    let column = (id & 255).wrapping_mul(10);
    let row = (id >> 8).wrapping_mul(10);
    Ok(format!(in alloc;
        "*12\r\n$7\r\nSETCHAN\r\n$16\r\n{}\r\n$2\r\nEX\r\n$2\r\n60\r\n{}{}{}{}{}",
        name,
        "$6\r\nWITHIN\r\n$5\r\nfleet\r\n$5\r\nFENCE\r\n$6\r\nBOUNDS\r\n",
        bulk(alloc, column)?,
        bulk(alloc, row)?,
        bulk(alloc, column.wrapping_add(9))?,
        bulk(alloc, row.wrapping_add(9))?
    )?)
}

// A number as one word of a request.
fn bulk(alloc: Global, number: u64) -> io::Result<String> {
    let digits = format!(in alloc; "{}", number)?;
    Ok(format!(in alloc; "${}\r\n{}\r\n", digits.len(), digits)?)
}

// The text of one request about an id.
fn push_text(alloc: Global, all: &mut Vec<u8>, kind: &str, id: u64) -> io::Result<()> {
    let name = format!(in alloc; "truck{:012}", id)?;
    let text = match kind {
        "set" => format!(in alloc;
            "*6\r\n$3\r\nSET\r\n$5\r\nfleet\r\n$17\r\n{}\r\n{}",
            name, POINT
        )?,
        "fields" => format!(in alloc;
            "*12\r\n$3\r\nSET\r\n$5\r\nfleet\r\n$17\r\n{}\r\n{}{}",
            name, FIELDS, POINT
        )?,
        "setchan" => fence_text(alloc, id)?,
        "get" => format!(in alloc; "*3\r\n$3\r\nGET\r\n$5\r\nfleet\r\n$17\r\n{}\r\n", name)?,
        _ => format!(in alloc; "*1\r\n$4\r\nPING\r\n")?,
    };
    all.extend_from_slice(text.as_bytes())?;
    Ok(())
}

// The texts of requests over so many ids, in a scattered order.
fn texts(alloc: Global, kind: &str, ids: u64) -> io::Result<Vec<u8>> {
    let mut all = Vec::new(alloc);
    let mut id = 0u64;
    for _ in 0..ids {
        id = id.wrapping_add(7919).checked_rem(ids).unwrap_or(0);
        push_text(alloc, &mut all, kind, id)?;
    }
    Ok(all)
}

/// What a run over so many ids came to: how many requests were answered, and the nanoseconds that each took.
#[derive(Drop)]
pub(crate) struct Requested {
    pub(crate) answered: u64,
    pub(crate) each: u128,
}

/// Sets so many ids, and then makes so many requests of a kind over them, each called and taken. None where memory ran
/// out.
pub(crate) fn request_each<C: Clock>(
    alloc: Global,
    clock: &C,
    kind: &str,
    ids: u64,
    count: u64,
) -> io::Result<Option<Requested>> {
    // Fences are set over no object: what is measured is the fence alone.
    let filled = if kind == "setchan" { "ping" } else { "set" };
    let filling = texts(alloc, filled, ids)?;
    let all = texts(alloc, kind, ids)?;
    let Ok(mut driver) = Driver::new(alloc) else {
        return Ok(None);
    };
    driver.drive(filling.as_slice(), ids);
    // No way out while the driver is held: what drops a core is part of each.
    let begun = Instant::now(clock);
    let answered = driver.drive(all.as_slice(), count);
    let took = match begun {
        Ok(begun) => begun.elapsed(clock),
        Err(fault) => Err(fault),
    };
    drop(driver);
    let took = took?.as_nanos();
    let each = took.checked_div(u128::from(answered)).unwrap_or(0);
    Ok(Some(Requested { answered, each }))
}
