//! Names: keys, ids and the like, in byte order.
//!
//! Of a word that is no name, emptiness is reported first, then its length, then that it is not UTF-8.

ghost use Rattle.std.specs.Prelude.{◌≡◌, ◌<◌, ◌==◌, IfOk, true};
ghost use Rattle.std.specs.Int.{w64, from_be_bytes};
ghost use Rattle.std.specs.List.{AllByRecursion};
ghost use Rattle.std.proofs.Common.{rules};
ghost use Rattle.std.specs.Hash as fed;
ghost use Rattle.std.specs.Cmp.Rules.{comparing, hashing};
ghost use Rattle.std.specs.Cmp.{partial_order_from_own_ties};
ghost use Rattle.std.specs.Cmp.Lexicographic.{pointwise, slice_cmp};
ghost use Rattle.std.specs.Ordering.{nat_cmp, as_partial_cmp};
ghost use Rattle.byte_text.specs.Names.{is_name, name_fault, IsNameOf};

use crate::limits::MAX_NAME;
use crate::texts::{NameFault, TextFault};
use memory::NoMemory;
use std::alloc::Global;
use std::cmp::Ordering;
use std::hash::{Hash, Hasher};
use std::marker::Model;

/// A list of 1 to 255 bytes of UTF-8: a key, an id, a field's name, a channel's name or a pattern. In byte order.
#[derive(Drop)]
pub struct Name {
    bytes: Vec<u8>,
}

impl Model for Name {
    ghost use Rattle.std.specs.Prelude.{List, ℕ, true, ◌≡◌};
    ghost use Rattle.byte_text.specs.Names.{is_name};

    ghost Value = { List ℕ };

    ghost view = { λ n. n.bytes.items };

    ghost invariant = { λ n. is_name n.bytes.items ≡ true };
}

// Why the bytes are no name.
fn fault_of(bytes: &[u8]) -> Option<TextFault>
    ensures { result ≡ name_fault bytes.now }
{
    if bytes.is_empty() {
        return Some(TextFault::Empty);
    }
    if bytes.len() > MAX_NAME {
        return Some(TextFault::TooLong);
    }
    match std::str::from_utf8(bytes) {
        Ok(_) => None,
        Err(_) => Some(TextFault::NotUtf8),
    }
}

// Eight bytes as a number, the first highest.
fn number(bytes: &[u8; 8]) -> u64
    ensures small { AllByRecursion (λ b. b < 256) bytes.now }
    ensures value { result ≡ from_be_bytes w64 bytes.now }
{
    let [a, b, c, d, e, f, g, h] = *bytes;
    u64::from_be_bytes([a, b, c, d, e, f, g, h])
}

// The order of eight bytes and eight others is that of the two numbers.
#[tactic(auto, using(crate::proofs::WordOrder::order_of_eight_is))]
fn order_of_eight(a: &[u8; 8], b: &[u8; 8]) -> Ordering
    ensures { result ≡ slice_cmp nat_cmp a.now b.now }
{
    number(a).cmp(&number(b))
}

// Byte order. Eight bytes are compared at a time: many names begin alike.
fn byte_order(a: &[u8], b: &[u8]) -> Ordering
    ensures { result ≡ slice_cmp nat_cmp a.now b.now }
{
    let (mut front, mut back) = (a, b);
    for _ in 0..a.len() {
        let Some((first, rest)) = front.split_first_chunk::<8>() else {
            break;
        };
        let Some((other, others)) = back.split_first_chunk::<8>() else {
            break;
        };
        let order = order_of_eight(first, other);
        if order.is_ne() {
            return order;
        }
        front = rest;
        back = others;
    }
    front.cmp(back)
}

impl Name {
    /// The name of these bytes. Refused is Empty where there is none, else TooLong over 255 bytes, else NotUtf8 where
    /// they are not UTF-8; Memory for want of memory.
    pub fn of(alloc: Global, bytes: &[u8]) -> Result<Name, NameFault>
        ensures { IsNameOf (name_fault bytes.now) bytes.now result }
    {
        if let Some(fault) = fault_of(bytes) {
            return Err(NameFault::Refused(fault));
        }
        let bytes = bytes.to_vec(alloc)?;
        Ok(Name { bytes })
    }

    /// Its bytes, which are a name's.
    pub fn bytes(&self) -> &[u8]
        ensures same { result.now ≡ self.now }
        ensures name { is_name self.now ≡ true }
    {
        self.bytes.as_slice()
    }

    /// A name of the same bytes.
    pub fn copy(&self, alloc: Global) -> Result<Name, NoMemory>
        ensures { IfOk result (λ n. n ≡ self.now) }
    {
        let bytes = self.bytes.as_slice().to_vec(alloc)?;
        Ok(Name { bytes })
    }
}

impl PartialEq for Name {
    ghost eq = { pointwise ◌==◌ };

    ghost laws = { Prim.search (comparing, rules) };

    fn eq(&self, other: &Name) -> bool {
        self.bytes == other.bytes
    }
}

impl Eq for Name {
    ghost laws = { Prim.search (comparing, rules) };
}

impl Hash for Name {
    ghost hash_input = { fed.slice fed.u8 };

    ghost respects_eq = { Prim.search (hashing, rules) };

    fn hash<H: Hasher>(&self, state: &mut H) {
        self.bytes.hash(state);
    }
}

impl Ord for Name {
    ghost cmp = { slice_cmp nat_cmp };

    ghost total = { Prim.search (comparing, rules) };

    ghost matches_partial_cmp = { Prim.search (comparing, rules) };

    ghost matches_eq = { Prim.search (comparing, rules) };

    fn cmp(&self, other: &Name) -> Ordering {
        byte_order(self.bytes.as_slice(), other.bytes.as_slice())
    }
}

impl PartialOrd for Name {
    ghost partial_cmp = { as_partial_cmp (slice_cmp nat_cmp) };

    ghost laws = { partial_order_from_own_ties (Prim.search (comparing, rules)) (Prim.search (comparing, rules)) };

    fn partial_cmp(&self, other: &Name) -> Option<Ordering> {
        Some(self.cmp(other))
    }
}
