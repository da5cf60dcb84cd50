//! Numbers of 24 bits, the `uint24` of RFC 8446, section 3.3.
ghost use Rattle.std.specs.Prelude.{◌≡◌, ◌<◌, ◌≤◌, ◌^◌, MatchResult};
ghost use Rattle.tls_codec_wire.specs.Digits.{Digits, value};
ghost use Rattle.tls_codec_wire.specs.declared.error.Error.TheVariants.{LibraryError};

use crate::error::Error;

/// A number of 24 bits.
#[derive(Clone, Copy, Debug, PartialEq, Eq)]
pub struct U24 {
    number: u32,
    ghost fits: { number < 2 ^ 24 },
}

impl U24 {
    ghost use Rattle.tls_codec_wire.specs.Uint24.{number_of};

    /// The least number, 0.
    pub const MIN: U24 = U24 { number: 0 };

    /// The greatest number, 16,777,215.
    pub const MAX: U24 = U24 { number: 0xff_ffff };

    /// The number.
    pub fn value(&self) -> u32
        ensures number { result ≡ number_of self.now }
        ensures within { result < 2 ^ 24 }
    {
        self.number
    }

    /// The number that the bytes stand for, the most significant first.
    pub fn from_be_bytes(bytes: [u8; 3]) -> U24
        ensures { number_of result ≡ value bytes }
    {
        U24 {
            number: u32::from_be_bytes([0, bytes[0], bytes[1], bytes[2]]),
        }
    }

    /// The number's bytes, the most significant first.
    pub fn to_be_bytes(self) -> [u8; 3]
        ensures { Digits 3 result (number_of self) }
    {
        let bytes = self.number.to_be_bytes();
        [bytes[1], bytes[2], bytes[3]]
    }
}

impl Default for U24 {
    ghost use Rattle.tls_codec_wire.specs.Uint24.{number_of};

    ghost is_default = { λ n. number_of n ≡ 0 };

    fn default() -> U24 {
        U24::MIN
    }
}

impl TryFrom<usize> for U24 {
    ghost use Rattle.tls_codec_wire.specs.Uint24.{number_of};

    type Error = Error;

    ghost try_from_gives = { λ n r. MatchResult r (λ u. (number_of u ≡ n) × (n < 2 ^ 24))
        (λ e. (e ≡ LibraryError) × (2 ^ 24 ≤ n)) };

    /// `LibraryError`: the number takes more than 24 bits.
    fn try_from(value: usize) -> Result<U24, Error> {
        if value > 0xff_ffff {
            return Err(Error::LibraryError);
        }
        Ok(U24 {
            number: value as u32,
        })
    }
}

impl From<U24> for usize {
    ghost use Rattle.tls_codec_wire.specs.Uint24.{number_of};

    ghost from_gives = { λ u n. (n ≡ number_of u) × (n < 2 ^ 24) };

    fn from(value: U24) -> usize {
        value.number as usize
    }
}
