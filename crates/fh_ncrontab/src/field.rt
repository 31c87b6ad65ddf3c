ghost use Rattle.std.specs.Prelude.{◌≡◌, ℕ, ◌<◌, ◌≤◌, true, false, MatchOption, Some};
ghost use Rattle.fh_ncrontab.specs.Sets.{holds, is_mask, all_numbers};
ghost use Rattle.fh_ncrontab.specs.Search.{IsNextIn};
ghost use Rattle.fh_ncrontab.specs.Fields.{field_of};

use crate::FieldFault;
use crate::part::{Part, first_piece};
use std::marker::Model;

/// A set of numbers from `LO` to `HI`, never empty. Contracts see its mask.
#[derive(Clone, Copy, Debug, PartialEq, Eq)]
pub struct Field<const LO: u8, const HI: u8> {
    bits: u64,
}

impl<const LO: u8, const HI: u8> Model for Field<LO, HI> {
    ghost use Rattle.std.specs.Prelude.{ℕ};
    ghost use Rattle.fh_ncrontab.specs.Sets.{IsSetWithin};

    ghost Value = { ℕ };

    ghost view = { λ f. f.bits };

    ghost invariant = { λ f. IsSetWithin LO HI f.bits };

    ghost inverse = { λ n. record { bits = n } };
}

impl<const LO: u8, const HI: u8> Field<LO, HI> {
    /// Reads the text of a field: parts between commas, of which the first faulty one from the
    /// left decides the fault. A part is `*`, a value or a range `a-b`, maybe with a step `/n`.
    /// Takes no memory.
    pub fn read(text: &str) -> Result<Self, FieldFault>
        requires order { LO ≤ HI }
        requires high { HI < 64 }
        ensures { result ≡ field_of LO HI text.now }
    {
        let mut mask = 0;
        let mut rest = Some(text);
        while let Some(here) = rest {
            let (part, after) = first_piece(here, ',');
            mask = Part::read(part, LO, HI)?.added_to(mask);
            rest = after;
        }
        Ok(Field { bits: mask })
    }

    /// Whether `n` is in the set.
    pub fn holds(&self, n: u8) -> bool
        ensures { result ≡ holds self.now n }
    {
        has_bit(self.bits, n)
    }

    /// The set as a mask: bit n stands for the number n. Takes no memory.
    pub fn mask(&self) -> u64
        ensures value { result ≡ self.now }
        ensures mask { is_mask LO HI result ≡ true }
    {
        self.bits
    }

    /// The set with this mask, and `None` exactly where the mask is 0 or has a number outside the
    /// field. Takes no memory.
    pub fn of_mask(mask: u64) -> Option<Self>
        requires order { LO ≤ HI }
        requires high { HI < 64 }
        ensures { MatchOption result (is_mask LO HI mask ≡ false)
            (λ f. (is_mask LO HI mask ≡ true) × (f ≡ mask)) }
    {
        if mask == 0 || mask % (1 << LO) != 0 || mask >> HI > 1 {
            return None;
        }
        Some(Field { bits: mask })
    }

    /// The set of all numbers of the field, whose mask is the greatest one. Takes no memory.
    pub fn all() -> Self
        requires order { LO ≤ HI }
        requires high { HI < 63 }
        ensures { result ≡ all_numbers LO HI }
    {
        Field {
            bits: (1 << (HI + 1)) - (1 << LO),
        }
    }

    /// The least number of the set from `n` on.
    pub(crate) fn first_from(&self, n: u8) -> Option<u8>
        requires { n < 64 }
        ensures least { IsNextIn self.now n result }
        ensures within { (k : ℕ) → holds self.now k ≡ true → (LO ≤ k) × (k ≤ HI) }
    {
        let rest = self.bits >> n;
        if rest == 0 {
            return None;
        }
        Some(n + rest.trailing_zeros() as u8)
    }

    /// The least number of the set.
    pub(crate) fn least(&self) -> u8
        ensures least { IsNextIn self.now 0 (Some result) }
        ensures within { (k : ℕ) → holds self.now k ≡ true → (LO ≤ k) × (k ≤ HI) }
    {
        self.bits.trailing_zeros() as u8
    }
}

/// Whether bit `n` is 1.
fn has_bit(bits: u64, n: u8) -> bool
    ensures { result ≡ holds bits n }
{
    n < 64 && (bits >> n) & 1 == 1
}
