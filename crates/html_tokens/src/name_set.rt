//! A set of names for the attributes of one tag.
//!
//! A stranger chooses these names. An ordered set makes a logarithmic number of comparisons for each, whatever they are; a hash table
//! would need a secret seed. A name of up to fifteen bytes is held as one number, so that comparing it follows no pointer. Numbers that
//! come in rising order are kept in a `Vec`. Millions of names in another order cost several times as much, since the tree doesn't
//! fit a processor's cache.
ghost use Rattle.std.specs.Prelude.{◌≡◌, ℕ, ◌<◌, ◌≤◌, List, true, false, not, ◌||◌, ◌==◌, ◌↔◌, length, IsTrue, IfOk, OnOk, OnErr};
ghost use Rattle.std.specs.BTreeSet.{contains};
ghost use Rattle.std.specs.List.Sorted.{IsNonDecreasing};
ghost use Rattle.std.specs.Ordering.{nat_cmp};
ghost use Rattle.std.specs.Str.{bytes_eq};
ghost use Rattle.html_tokens.specs.PackedNames.{pack, ceiling};

use crate::Memory;
use std::alloc::Global;
use std::collections::BTreeSet;

/// The greatest length in bytes of a name that is held as a number.
const SHORT: usize = 15;

/// A set of names.
#[derive(Drop)]
pub struct NameSet {
    /// The numbers of short names that came in rising order, each greater than all before it.
    rising: Vec<u128>,
    /// The numbers of the other short names. Each is less than the last of `rising`.
    short: BTreeSet<u128>,
    /// The other names.
    long: BTreeSet<String>,
    ghost rises: { IsNonDecreasing rising.items },
    ghost below: { (n : ℕ) → contains nat_cmp short n ≡ true → n < ceiling rising.items },
}

/// Returns the number of a short name: the digit 1, and then each byte as a digit to base 256.
fn pack(name: &[u8]) -> u128
    requires { length name.now ≤ 15 }
    ensures { result ≡ pack name.now }
{
    let mut number: u128 = 1;
    for byte in name {
        number = number * 256 + u128::from(*byte);
    }
    number
}

impl NameSet {
    ghost use Rattle.html_tokens.specs.NameSets.{contains_name, contains_number};

    /// Returns the empty set.
    pub fn new(alloc: Global) -> NameSet
        ensures { (q : List ℕ) → contains_name result q ≡ false }
    {
        NameSet {
            rising: Vec::new(alloc),
            short: BTreeSet::new(alloc),
            long: BTreeSet::new(alloc),
        }
    }

    /// Whether the number is greater than each number of the set.
    fn is_greatest(&self, number: u128) -> bool
        ensures { IsTrue result ↔ ceiling self.now.rising.items ≤ number }
    {
        match self.rising.last() {
            Some(last) => *last < number,
            None => true,
        }
    }

    /// Adds the number of a short name, and returns whether it is new.
    fn insert_number(&mut self, number: u128) -> Result<bool, Memory>
        ensures is_new { IfOk result (λ is_new. is_new ≡ not (contains_number self.old number)) }
        ensures numbers { OnOk result ((q : ℕ) → contains_number self.new q ≡ (number == q || contains_number self.old q)) }
        ensures others { self.new.long ≡ self.old.long }
        ensures err { OnErr result ((q : ℕ) → contains_number self.new q ≡ contains_number self.old q) }
    {
        if self.is_greatest(number) {
            self.rising.push(number)?;
            return Ok(true);
        }
        if self.rising.binary_search(&number).is_ok() {
            return Ok(false);
        }
        let is_new = self.short.insert(number)?;
        Ok(is_new)
    }

    /// Adds a name, and returns whether it is new.
    pub fn insert(&mut self, alloc: Global, name: &str) -> Result<bool, Memory>
        ensures is_new { IfOk result (λ is_new. is_new ≡ not (contains_name self.old name.now)) }
        ensures names { OnOk result ((q : List ℕ) → contains_name self.new q ≡ (bytes_eq name.now q || contains_name self.old q)) }
        ensures err { OnErr result ((q : List ℕ) → contains_name self.new q ≡ contains_name self.old q) }
    {
        if name.len() <= SHORT {
            let number = pack(name.as_bytes());
            let is_new = self.insert_number(number)?;
            Ok(is_new)
        } else {
            let text = String::from_str(alloc, name)?;
            let is_new = self.long.insert(text)?;
            Ok(is_new)
        }
    }
}
