//! What short names stand for, by their numbers.

ghost use Rattle.std.specs.BTreeMap.{get};
ghost use Rattle.std.specs.Ordering.{nat_cmp};
ghost use Rattle.std.specs.Prelude.{IfOk, IfSome, IsTrue, OnOk, ◌<◌, ◌≡◌, ◌≤◌, Some, None, ℕ, slice_set};
ghost use Rattle.types.specs.Buckets as spec;
ghost use Rattle.types.specs.Buckets.{AreBuckets, Updates, found_short};

use crate::scope::Meaning;
use std::alloc::{AllocError, Global};
use std::collections::BTreeMap;

/// How far hashes of 32 bits are shifted where there is no bucket yet, in a table of 16,384 buckets, and in the largest table, which
/// has 32,768.
pub const NO_BUCKETS: u32 = 29;

const MANY_BUCKETS: u32 = 18;

pub const MOST_BUCKETS: u32 = 17;

/// What a bucket knows of the numbers that lead to it.
#[derive(Clone, Copy, Debug)]
pub enum Bucket {
    /// None of them stands for anything.
    Free,
    /// This one stands for this, and no other one for anything.
    Alone(u128, Meaning),
    /// This one stands for this, and the others are looked up in the map.
    First(u128, Meaning),
    /// They are looked up in the map.
    Shared,
}

/// What the numbers of short names stand for: a table of buckets, to one of which each number leads, and an ordered map of the numbers
/// that another one keeps from theirs. No choice of names makes looking them up slow: where many lead to one bucket, the map finds them.
#[derive(Drop)]
pub struct ShortNames {
    pub buckets: Vec<Bucket>,
    pub shift: u32,
    pub others: BTreeMap<u128, Meaning>,
    ghost placed: { AreBuckets shift buckets.items others },
}

/// The bucket that a number leads to in a table of 2^(32 - shift) buckets: the upper bits of a hash.
#[inline(always)]
fn bucket_of(number: u128, shift: u32) -> usize
    requires { shift ≤ NO_BUCKETS }
    ensures { result ≡ spec.bucket_of shift number }
{
    const WORD: u128 = 4294967296;
    let first = (number % WORD) as u64;
    let second = (number / WORD % WORD) as u64;
    let third = (number / WORD / WORD % WORD) as u64;
    let fourth = (number / WORD / WORD / WORD) as u64;
    let mixed = first * 1735445665 + second * 878098363 + third * 599068319 + fourth * 943391325;
    (mixed % 4294967296 >> shift) as usize
}

/// Sets a bucket, if the table has it.
fn set_bucket(buckets: &mut Vec<Bucket>, at: usize, bucket: Bucket)
    ensures { buckets.new.items ≡ slice_set buckets.old.items at bucket }
{
    if let Some(old) = buckets.get_mut(at) {
        *old = bucket;
    }
}

impl ShortNames {
    /// No number stands for anything.
    pub fn new(alloc: Global) -> ShortNames
        ensures { (number : ℕ) →
            found_short result.shift result.buckets.items result.others number ≡ None }
    {
        ShortNames {
            buckets: Vec::new(alloc),
            shift: NO_BUCKETS,
            others: BTreeMap::new(alloc),
        }
    }

    // No number stands for anything, by 2^(32 - shift) buckets.
    fn with_buckets(alloc: Global, shift: u32) -> Result<ShortNames, AllocError>
        requires { shift ≤ NO_BUCKETS }
        ensures { IfOk result (λ names. (number : ℕ) →
            found_short names.shift names.buckets.items names.others number ≡ None) }
    {
        let mut buckets = Vec::new(alloc);
        buckets.resize(1 << (32 - shift), Bucket::Free)?;
        Ok(ShortNames {
            buckets,
            shift,
            others: BTreeMap::new(alloc),
        })
    }

    // What the bucket of a number knows.
    #[inline(always)]
    fn bucket(&self, number: u128) -> &Bucket
        ensures { result.now ≡
            spec.bucket_at self.now.buckets.items (spec.bucket_of self.now.shift number) }
    {
        match self.buckets.get(bucket_of(number, self.shift)) {
            Some(bucket) => bucket,
            None => &Bucket::Shared,
        }
    }

    // What the map has of a number.
    #[inline(never)]
    fn look_up(&self, number: u128) -> Option<Meaning>
        ensures { result ≡ get nat_cmp self.now.others number }
    {
        self.others.get(&number).copied()
    }

    /// What a number stands for.
    #[inline(always)]
    pub fn find(&self, number: u128) -> Option<Meaning>
        ensures { result ≡
            found_short self.now.shift self.now.buckets.items self.now.others number }
    {
        match self.bucket(number) {
            Bucket::Free => None,
            Bucket::Alone(kept, meaning) => {
                if *kept == number {
                    Some(*meaning)
                } else {
                    None
                }
            }
            Bucket::First(kept, meaning) => {
                if *kept == number {
                    Some(*meaning)
                } else {
                    self.look_up(number)
                }
            }
            Bucket::Shared => self.look_up(number),
        }
    }

    /// What a number stands for that stands in its bucket, as most do.
    #[inline(always)]
    pub fn find_at_once(&self, number: u128) -> Option<&Meaning>
        ensures { IfSome result (λ meaning.
            found_short self.now.shift self.now.buckets.items self.now.others number ≡
            Some meaning.now) }
    {
        match self.bucket(number) {
            Bucket::Alone(kept, meaning) => { if *kept == number { Some(meaning) } else { None } }
            Bucket::First(kept, meaning) => { if *kept == number { Some(meaning) } else { None } }
            Bucket::Free | Bucket::Shared => None,
        }
    }

    /// Whether the bucket of a number alone tells that it stands for nothing.
    #[inline(always)]
    pub fn lacks_at_once(&self, number: u128) -> bool
        ensures { IsTrue result →
            found_short self.now.shift self.now.buckets.items self.now.others number ≡ None }
    {
        match self.bucket(number) {
            Bucket::Free => true,
            Bucket::Alone(kept, _) => *kept != number,
            Bucket::First(_, _) | Bucket::Shared => false,
        }
    }

    // Lets a number stand for this. Most lead to a bucket that is free.
    #[inline(always)]
    fn put(&mut self, number: u128, meaning: Meaning) -> Result<(), AllocError>
        ensures { OnOk result (Updates number (Some meaning)
            (found_short self.old.shift self.old.buckets.items self.old.others)
            (found_short self.new.shift self.new.buckets.items self.new.others)) }
    {
        let at = bucket_of(number, self.shift);
        match self.bucket(number) {
            Bucket::Free => {
                set_bucket(&mut self.buckets, at, Bucket::Alone(number, meaning));
                Ok(())
            }
            _ => self.put_beside(number, meaning),
        }
    }

    // The same whatever the bucket knows. Of two numbers that lead to one bucket the later one takes it.
    #[inline(never)]
    fn put_beside(&mut self, number: u128, meaning: Meaning) -> Result<(), AllocError>
        ensures { OnOk result (Updates number (Some meaning)
            (found_short self.old.shift self.old.buckets.items self.old.others)
            (found_short self.new.shift self.new.buckets.items self.new.others)) }
    {
        let at = bucket_of(number, self.shift);
        match *self.bucket(number) {
            Bucket::Free => {
                set_bucket(&mut self.buckets, at, Bucket::Alone(number, meaning));
                Ok(())
            }
            Bucket::Alone(kept, before) => {
                if kept == number {
                    set_bucket(&mut self.buckets, at, Bucket::Alone(number, meaning));
                    Ok(())
                } else {
                    self.others.insert(kept, before)?;
                    set_bucket(&mut self.buckets, at, Bucket::First(number, meaning));
                    Ok(())
                }
            }
            Bucket::First(kept, _) => {
                if kept == number {
                    set_bucket(&mut self.buckets, at, Bucket::First(number, meaning));
                    Ok(())
                } else {
                    self.others.insert(number, meaning)?;
                    Ok(())
                }
            }
            Bucket::Shared => {
                self.others.insert(number, meaning)?;
                Ok(())
            }
        }
    }

    // Lets the number that stands in a bucket of another table, if one does, stand for the same here.
    fn take_over(&mut self, bucket: &Bucket) -> Result<(), AllocError>
        ensures { OnOk result ((number : ℕ) →
            found_short self.new.shift self.new.buckets.items self.new.others number ≡
            spec.told_by bucket.now number
            (found_short self.old.shift self.old.buckets.items self.old.others number)) }
    {
        match bucket {
            Bucket::Free | Bucket::Shared => Ok(()),
            Bucket::Alone(kept, meaning) => self.put(*kept, *meaning),
            Bucket::First(kept, meaning) => self.put(*kept, *meaning),
        }
    }

    // How far hashes are shifted in a table of more buckets: of 16 at first, then of four times as many, and of twice as many where
    // there are many.
    fn next_shift(&self) -> u32
        requires { MOST_BUCKETS < self.now.shift }
        ensures { result ≤ NO_BUCKETS }
    {
        if self.buckets.is_empty() || self.shift <= MANY_BUCKETS {
            return self.shift - 1;
        }
        self.shift - 2
    }

    // Which part of the number of buckets the map may have: more where there are many, so that a table takes less memory.
    fn part(&self) -> usize
        ensures { 0 < result }
    {
        if self.shift <= MANY_BUCKETS { 4 } else { 8 }
    }

    // The same by a table of more buckets.
    #[inline(never)]
    fn spread(&self, alloc: Global) -> Result<ShortNames, AllocError>
        requires { MOST_BUCKETS < self.now.shift }
        ensures { IfOk result (λ names. (number : ℕ) →
            found_short names.shift names.buckets.items names.others number ≡
            found_short self.now.shift self.now.buckets.items self.now.others number) }
    {
        let mut names = ShortNames::with_buckets(alloc, self.next_shift())?;
        for bucket in &self.buckets {
            names.take_over(bucket)?;
        }
        for (number, meaning) in &self.others {
            names.put(*number, *meaning)?;
        }
        Ok(names)
    }

    // Takes a table of more buckets, by which the numbers stand for the same.
    #[inline(never)]
    fn widen(&mut self, alloc: Global) -> Result<(), AllocError>
        requires { MOST_BUCKETS < self.old.shift }
        ensures { OnOk result ((number : ℕ) →
            found_short self.new.shift self.new.buckets.items self.new.others number ≡
            found_short self.old.shift self.old.buckets.items self.old.others number) }
    {
        *self = self.spread(alloc)?;
        Ok(())
    }

    /// Lets a number stand for this from now on. There are more buckets where the map has an eighth as many numbers, or a
    /// quarter where there are many.
    ///
    /// # Errors
    ///
    /// Out of memory.
    pub fn insert(
        &mut self,
        alloc: Global,
        number: u128,
        meaning: Meaning,
    ) -> Result<(), AllocError>
        ensures { OnOk result (Updates number (Some meaning)
            (found_short self.old.shift self.old.buckets.items self.old.others)
            (found_short self.new.shift self.new.buckets.items self.new.others)) }
    {
        if self.buckets.len() / self.part() <= self.others.len() && MOST_BUCKETS < self.shift {
            self.widen(alloc)?;
        }
        self.put(number, meaning)
    }

    /// Lets a number stand for nothing from now on.
    pub fn remove(&mut self, number: u128)
        ensures { Updates number None
            (found_short self.old.shift self.old.buckets.items self.old.others)
            (found_short self.new.shift self.new.buckets.items self.new.others) }
    {
        let at = bucket_of(number, self.shift);
        match *self.bucket(number) {
            Bucket::Free => {}
            Bucket::Alone(kept, _) => {
                if kept == number {
                    set_bucket(&mut self.buckets, at, Bucket::Free);
                }
            }
            Bucket::First(kept, _) => {
                if kept == number {
                    set_bucket(&mut self.buckets, at, Bucket::Shared);
                } else {
                    self.others.remove(&number);
                }
            }
            Bucket::Shared => {
                self.others.remove(&number);
            }
        }
    }
}
