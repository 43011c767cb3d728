//! A disk in memory that never crashes.

ghost use Rattle.std.specs.Prelude.{◌≡◌, ◌+◌, ◌-◌, ◌≤◌, ◌^◌, ◌++◌, Some, false, [], length, take, drop, min, Ok, IsOk};
ghost use Rattle.std.specs.Prelude.{IfOk, OnOk, OnErr};
ghost use Rattle.outside.specs.Causes.{HasCause, next_count};
ghost use Rattle.outside.specs.Sides.{side_of, with_side, AreBytes};
ghost use Rattle.outside.specs.Disks.{write_over};
ghost use Rattle.outside.specs.Memory.{Plain};

use crate::disk_contents::Contents;
use crate::disks::Disk;
use crate::failures::Failed;
use crate::sides::Side;
use std::alloc::Global;
use std::marker::Model;

/// Two sides of bytes in memory, and no more: what a crash may leave it does not tell.
pub struct PlainDisk {
    contents: Contents,
    faults: u64,
}

impl Drop for PlainDisk {
    fn drop(self) {
        let PlainDisk {
            contents: _,
            faults: _,
        } = self;
    }
}

impl Model for PlainDisk {
    ghost Value = { Plain };

    ghost view = { λ d. record { sides = d.contents; faults = d.faults } };
}

impl PlainDisk {
    /// Two empty sides.
    pub fn new(alloc: Global) -> PlainDisk
        ensures { result ≡ record { sides = record { a = []; b = [] }; faults = 0 } }
    {
        PlainDisk {
            contents: Contents::of(Vec::new(alloc), Vec::new(alloc)),
            faults: 0,
        }
    }
}

impl Disk for PlainDisk {
    ghost use Rattle.std.proofs.Common.{rules};

    ghost seen = { λ d. Some d.sides };

    ghost crashes = { λ _. false };

    ghost images = { λ _ _. Unit {0} };

    ghost longest = { λ _ _. 0 };

    ghost moment = { λ _. 0 };

    ghost left_since = { λ _ _ _. Unit {0} };

    ghost faults = { λ d. d.faults };

    fn len(&mut self, side: Side) -> Result<u64, Failed>
        ensures value { result ≡ Ok (length (side_of self.old.sides side)) }
        ensures sound { AreBytes (side_of self.old.sides side) }
        ensures unchanged { self.new ≡ self.old }
    {
        Ok(self.contents.len(side) as u64)
    }

    fn read(&mut self, side: Side, at: u64, into: &mut [u8]) -> Result<usize, Failed>
        ensures ok { IsOk result }
        ensures count { IfOk result (λ n. n ≡ min (length into.old) (length (side_of self.old.sides side) - at)) }
        ensures bytes { IfOk result
            (λ n. into.new ≡ take n (drop at (side_of self.old.sides side)) ++ drop n into.old) }
        ensures sound { AreBytes (side_of self.old.sides side) }
        ensures unchanged { self.new ≡ self.old }
    {
        Ok(self.contents.read(side, at as usize, into))
    }

    /// It fails only where no memory is left, and changes nothing then.
    fn write_at(&mut self, side: Side, at: u64, piece: &[u8]) -> Result<(), Failed>
        requires { at + length piece.now ≤ 2 ^ 63 }
        ensures ok { OnOk result
            (self.new ≡ record self.old {
              sides = with_side self.old.sides side
                  (write_over at piece.now (side_of self.old.sides side));
            }) }
        ensures err { OnErr result (self.new ≡ record self.old { faults = next_count self.old.faults }) }
        ensures cause { HasCause self.old.faults self.new.faults result }
    {
        match self.contents.write_at(side, at as usize, piece) {
            Ok(()) => Ok(()),
            Err(_) => {
                self.faults = self.faults.saturating_add(1);
                Err(Failed)
            }
        }
    }

    fn cut(&mut self, side: Side, len: u64) -> Result<(), Failed>
        ensures ok { IsOk result }
        ensures cut { self.new
            ≡ record self.old { sides = with_side self.old.sides side (take len (side_of self.old.sides side)) } }
    {
        self.contents.cut(side, len as usize);
        Ok(())
    }

    fn sync(&mut self, _side: Side) -> Result<(), Failed>
        ensures ok { IsOk result }
        ensures unchanged { self.new ≡ self.old }
    {
        Ok(())
    }

    ghost as_read = { λ _. tt };

    ghost no_longer = { λ _ _ _ told. Prim.search rules };

    ghost counts_now = { λ _ _ _ _ _. tt };

    ghost only_now = { λ _ _ _. tt };

    ghost from_earlier = { λ _ _ _ _ _ _ _. tt };
}
