//! The numbers of payloads, all in one layout.
//!
//! An enum whose variants have numbers of different places is copied part by part, and the compiler then keeps a copy
//! on the stack for each step that passes one on. So a short number takes as much room as a long one.

ghost use Rattle.std.specs.Prelude.{◌≡◌};

use std::marker::Model;

/// A number of 128 bits, as an identifier, in two words. Contracts see the number.
#[derive(Debug, Clone, Copy, PartialEq, Eq)]
pub struct Long {
    low: u64,
    high: u64,
}

impl Model for Long {
    ghost use Rattle.std.specs.Prelude.{◌+◌, ◌*◌, ◌^◌, ◌/◌, ◌%◌, ◌<◌, ℕ};
    ghost use Rattle.std.proofs.lemmas.Nat.{div-mul-add, mod-mul-add};

    ghost Value = { ℕ };

    ghost view = { λ a. a.high * 2 ^ 64 + a.low };

    ghost invariant = { λ a. a.low < 2 ^ 64 };

    ghost inverse = { λ n. record { low = n % 2 ^ 64; high = n / 2 ^ 64 } };

    ghost inverse_ok = { λ a below i. record {
      low = mod-mul-add a.high (2 ^ 64) a.low below i;
      high = div-mul-add a.high (2 ^ 64) a.low below i;
    } };
}

impl Long {
    /// A number.
    #[inline(always)]
    pub fn new(number: u128) -> Long
        ensures number { result ≡ number }
    {
        Long {
            low: (number % (1 << 64)) as u64,
            high: (number / (1 << 64)) as u64,
        }
    }

    /// The same number, copied by machine words.
    #[inline(always)]
    pub fn by_words(self) -> Long
        ensures same { result ≡ self }
    {
        Long {
            low: self.low,
            high: self.high,
        }
    }

    /// The number.
    #[inline(always)]
    pub fn get(self) -> u128
        ensures number { result ≡ self }
    {
        u128::from(self.high) * (1 << 64) + u128::from(self.low)
    }
}

/// A number of 16 bits, as a forest or a chosen colour, in the place of a long one. Contracts see the number.
#[derive(Debug, Clone, Copy, PartialEq, Eq)]
pub struct Short {
    low: u64,
    high: u64,
}

impl Model for Short {
    ghost use Rattle.std.specs.Prelude.{◌≡◌, ◌<◌, ◌^◌, ℕ};
    ghost use Rattle.std.proofs.Common.{sym};

    ghost Value = { ℕ };

    ghost view = { λ a. a.low };

    ghost invariant = { λ a. (a.low < 2 ^ 16) × (a.high ≡ 0) };

    ghost inverse = { λ n. record { low = n; high = 0 } };

    ghost inverse_ok = { λ a small i. record { low = a.low; high = sym small.1 i } };
}

impl Short {
    /// A number.
    #[inline(always)]
    pub fn new(number: u16) -> Short
        ensures number { result ≡ number }
    {
        Short {
            low: u64::from(number),
            high: 0,
        }
    }

    /// The same number, copied by machine words.
    #[inline(always)]
    pub fn by_words(self) -> Short
        ensures same { result ≡ self }
    {
        Short {
            low: self.low,
            high: self.high,
        }
    }

    /// The number.
    #[inline(always)]
    pub fn get(self) -> u16
        ensures number { result ≡ self }
    {
        self.low as u16
    }
}
