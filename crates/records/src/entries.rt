// The entries of a CH or a WF, one by one, out of their bytes.
ghost use Rattle.std.specs.Prelude.{◌≡◌, ℕ, ◌/◌, ◌^◌, ◌<◌, List, length};
ghost use Rattle.std.proofs.Common.{rules};
ghost use Rattle.std.specs.List.{slice_get};
ghost use Rattle.std.specs.Iterator.{YieldsFirst, item_count};
ghost use Rattle.records.specs.Decode.{branch_from, portion_from};
ghost use Rattle.records.specs.Held.{branches, portions};

use crate::content::{BRANCH_SIZE, Branch, PORTION_SIZE, Portion};
use std::marker::{Model, PhantomData};

// What stands in N bytes, again and again, at the end of a record.
pub trait Entry<const N: usize>: Copy {
    ghost of_bytes: { List ℕ → Self };

    fn from_bytes(bytes: &[u8; N]) -> Self
        ensures { result ≡ of_bytes bytes.now };

    // There is an end to them, and N bytes are not too many to be lent.
    ghost sized: { (0 < N) × (N < 2 ^ 63) };
}

impl Entry<BRANCH_SIZE> for Branch {
    ghost of_bytes = { λ bytes. branch_from bytes 0 };

    ghost sized = { Prim.search rules };

    fn from_bytes(bytes: &[u8; BRANCH_SIZE]) -> Branch {
        let [t0, t1, w0, w1] = *bytes;
        Branch {
            target: u16::from_be_bytes([t0, t1]),
            weight: u16::from_be_bytes([w0, w1]),
        }
    }
}

impl Entry<PORTION_SIZE> for Portion {
    ghost of_bytes = { λ bytes. portion_from bytes 0 };

    ghost sized = { Prim.search rules };

    fn from_bytes(bytes: &[u8; PORTION_SIZE]) -> Portion {
        let [t0, t1, high, a0, a1] = *bytes;
        Portion {
            target: u16::from_be_bytes([t0, t1]),
            high,
            amount: u16::from_be_bytes([a0, a1]),
        }
    }
}

// Entries of N bytes each, seen as the list of those that are left.
#[derive(Drop)]
pub struct Entries<'a, E: Entry<N>, const N: usize> {
    chunks: &'a [[u8; N]],
    of: PhantomData<E>,
}

impl<'a, E: Entry<N>, const N: usize> Model for Entries<'a, E, N> {
    ghost use Rattle.std.specs.Prelude.{List, map};

    ghost Value = { List E };

    ghost view = { λ it. map E.of_bytes it.chunks.now };
}

impl<'a, E: Entry<N>, const N: usize> Iterator for Entries<'a, E, N> {
    type Item = E;

    ghost next_gives = { YieldsFirst (λ left. left) };

    ghost remaining = { item_count (λ left. left) };

    fn next(&mut self) -> Option<E> {
        let (first, left) = self.chunks.split_first()?;
        self.chunks = left;
        Some(E::from_bytes(first))
    }

    fn size_hint(&self) -> (usize, Option<usize>) {
        let len = self.len();
        (len, Some(len))
    }
}

impl<'a, E: Entry<N>, const N: usize> ExactSizeIterator for Entries<'a, E, N> {
    fn len(&self) -> usize {
        self.chunks.len()
    }
}

impl<'a, E: Entry<N>, const N: usize> Entries<'a, E, N> {
    ghost use Rattle.std.specs.Prelude.{◌≡◌, ◌/◌, length, map};
    ghost use Rattle.std.specs.Simd.{first_chunks};

    fn of(bytes: &'a [u8]) -> Entries<'a, E, N>
        ensures value { result ≡ map E.of_bytes (first_chunks N (length bytes.now / N) bytes.now) }
        ensures len { length result ≡ length bytes.now / N }
    {
        let (chunks, _) = bytes.as_chunks();
        Entries {
            chunks,
            of: PhantomData,
        }
    }

    // The i-th of those that are left, in a time that does not depend on i.
    pub fn get(&self, i: usize) -> Option<E>
        ensures { result ≡ slice_get self.now i }
    {
        Some(E::from_bytes(self.chunks.get(i)?))
    }
}

// The branches of a CH. Bytes behind the last whole one count for nothing.
#[tactic(auto, using(crate::proofs::EntryLists::branches_of_chunks))]
pub fn branches(entries: &[u8]) -> Entries<'_, Branch, BRANCH_SIZE>
    ensures value { result ≡ branches entries.now }
    ensures len { length result ≡ length entries.now / BRANCH_SIZE }
{
    Entries::<Branch, BRANCH_SIZE>::of(entries)
}

// The portions of a WF, likewise.
#[tactic(auto, using(crate::proofs::EntryLists::portions_of_chunks))]
pub fn portions(entries: &[u8]) -> Entries<'_, Portion, PORTION_SIZE>
    ensures value { result ≡ portions entries.now }
    ensures len { length result ≡ length entries.now / PORTION_SIZE }
{
    Entries::<Portion, PORTION_SIZE>::of(entries)
}

// The i-th branch of a CH.
pub fn branch_at(entries: &[u8], i: usize) -> Option<Branch>
    ensures { result ≡ slice_get (branches entries.now) i }
{
    branches(entries).get(i)
}

// The i-th portion of a WF.
pub fn portion_at(entries: &[u8], i: usize) -> Option<Portion>
    ensures { result ≡ slice_get (portions entries.now) i }
{
    portions(entries).get(i)
}
