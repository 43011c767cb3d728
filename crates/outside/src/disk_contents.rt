//! The bytes of a disk in memory.

ghost use Rattle.std.specs.Prelude.{◌≡◌, ◌+◌, ◌-◌, ◌≤◌, ◌^◌, ◌++◌, length, take, drop, min, replicate, IfOk, OnOk};
ghost use Rattle.std.specs.Prelude.{OnErr};
ghost use Rattle.outside.specs.Sides.{Sides, side_of, with_side, AreBytes};
ghost use Rattle.outside.specs.Disks.{write_over};

use crate::sides::Side;
use std::alloc::{AllocError, Global};
use std::marker::Model;

/// The bytes of both sides of a disk in memory.
#[derive(Drop)]
pub(crate) struct Contents {
    a: Vec<u8>,
    b: Vec<u8>,
}

impl Model for Contents {
    ghost Value = { Sides };

    ghost view = { λ c. record { a = c.a.items; b = c.b.items } };
}

impl Contents {
    pub(crate) fn of(a: Vec<u8>, b: Vec<u8>) -> Contents
        ensures { result ≡ record { a = a.items; b = b.items } }
    {
        Contents { a, b }
    }

    pub(crate) fn copy(&self, alloc: Global) -> Result<Contents, AllocError>
        ensures { IfOk result (λ c. c ≡ self.now) }
    {
        let a = self.a.to_vec(alloc)?;
        let b = self.b.to_vec(alloc)?;
        Ok(Contents { a, b })
    }

    pub(crate) fn side(&self, side: Side) -> &[u8]
        ensures { result.now ≡ side_of self.now side }
    {
        match side {
            Side::A => &self.a,
            Side::B => &self.b,
        }
    }

    /// Puts the bytes from `at` on into the front of `into`, as far as they fit and exist.
    pub(crate) fn read(&self, side: Side, at: usize, into: &mut [u8]) -> usize
        ensures count { result ≡ min (length into.old) (length (side_of self.now side) - at) }
        ensures bytes { into.new ≡ take result (drop at (side_of self.now side)) ++ drop result into.old }
        ensures sound { AreBytes (side_of self.now side) }
    {
        copy_front(self.side(side), at, into)
    }

    /// How many bytes a side has.
    pub(crate) fn len(&self, side: Side) -> usize
        ensures count { result ≡ length (side_of self.now side) }
        ensures sound { AreBytes (side_of self.now side) }
    {
        count(self.side(side))
    }

    pub(crate) fn write_at(&mut self, side: Side, at: usize, piece: &[u8]) -> Result<(), AllocError>
        ensures ok { OnOk result
            (self.new ≡ with_side self.old side (write_over at piece.now (side_of self.old side))) }
        ensures err { OnErr result (self.new ≡ self.old) }
    {
        match side {
            Side::A => write_into(&mut self.a, at, piece),
            Side::B => write_into(&mut self.b, at, piece),
        }
    }

    pub(crate) fn cut(&mut self, side: Side, len: usize)
        ensures { self.new ≡ with_side self.old side (take len (side_of self.old side)) }
    {
        match side {
            Side::A => self.a.truncate(len),
            Side::B => self.b.truncate(len),
        }
    }
}

fn count(bytes: &[u8]) -> usize
    ensures count { result ≡ length bytes.now }
    ensures sound { AreBytes bytes.now }
{
    bytes.len()
}

// Puts the bytes from `at` on into the front of `into`, as far as they fit and exist.
fn copy_front(bytes: &[u8], at: usize, into: &mut [u8]) -> usize
    ensures count { result ≡ min (length into.old) (length bytes.now - at) }
    ensures copied { into.new ≡ take result (drop at bytes.now) ++ drop result into.old }
    ensures sound { AreBytes bytes.now }
{
    let from = at.min(bytes.len());
    let count = into.len().min(bytes.len() - from);
    into[..count].copy_from_slice(&bytes[from..from + count]);
    count
}

// There is no memory for an end that no number of 64 bits tells.
fn write_into(bytes: &mut Vec<u8>, at: usize, piece: &[u8]) -> Result<(), AllocError>
    ensures ok { OnOk result (bytes.new.items ≡ write_over at piece.now bytes.old.items) }
    ensures err { OnErr result (bytes.new.items ≡ bytes.old.items) }
{
    let Some(end) = at.checked_add(piece.len()) else {
        return Err(AllocError);
    };
    grow(bytes, end)?;
    put(bytes, at, piece);
    Ok(())
}

// Zeros stand behind what was there, up to `end`.
fn grow(bytes: &mut Vec<u8>, end: usize) -> Result<(), AllocError>
    ensures ok { OnOk result (bytes.new.items ≡ bytes.old.items ++ replicate (end - length bytes.old.items) 0) }
    ensures err { OnErr result (bytes.new.items ≡ bytes.old.items) }
{
    if end <= bytes.len() {
        return Ok(());
    }
    bytes.resize(end, 0)
}

fn put(bytes: &mut [u8], at: usize, piece: &[u8])
    requires { at + length piece.now ≤ length bytes.old }
    ensures { bytes.new ≡ take at bytes.old ++ piece.now ++ drop (at + length piece.now) bytes.old }
{
    bytes[at..at + piece.len()].copy_from_slice(piece);
}
