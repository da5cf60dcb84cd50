//! Variable-length integers (varints; RFC 9000, section 16): the type of their numbers.
ghost use Rattle.std.specs.Prelude.{◌≡◌, ◌<◌, ◌≤◌, ◌^◌, MatchResult};
ghost use Rattle.tls_codec_wire.specs.declared.error.Error.TheVariants.{InvalidVectorLength};

use crate::error::Error;

/// A number below 2^62, which has an encoding as a variable-length integer.
#[derive(Clone, Copy, Debug, PartialEq, Eq, Hash, PartialOrd, Ord)]
pub struct TlsVarInt {
    number: u64,
    ghost fits: { number < 2 ^ 62 },
}

impl TlsVarInt {
    ghost use Rattle.tls_codec_wire.specs.VarintValue.{number_of};

    /// The greatest number, 2^62 - 1.
    pub const MAX: u64 = 0x3fff_ffff_ffff_ffff;

    /// The number.
    pub fn value(&self) -> u64
        ensures number { result ≡ number_of self.now }
        ensures within { result < 2 ^ 62 }
    {
        self.number
    }

    /// The value of a number that fits.
    pub(crate) fn new(number: u64) -> TlsVarInt
        requires { number < 2 ^ 62 }
        ensures { number_of result ≡ number }
    {
        TlsVarInt { number }
    }
}

impl TryFrom<u64> for TlsVarInt {
    ghost use Rattle.tls_codec_wire.specs.VarintValue.{number_of};

    type Error = Error;

    ghost try_from_gives = { λ n r. MatchResult r (λ v. (number_of v ≡ n) × (n < 2 ^ 62))
        (λ e. (e ≡ InvalidVectorLength) × (2 ^ 62 ≤ n)) };

    /// `InvalidVectorLength`: the number is above [`TlsVarInt::MAX`].
    fn try_from(value: u64) -> Result<TlsVarInt, Error> {
        if value > TlsVarInt::MAX {
            return Err(Error::InvalidVectorLength);
        }
        Ok(TlsVarInt::new(value))
    }
}

impl From<TlsVarInt> for u64 {
    ghost use Rattle.tls_codec_wire.specs.VarintValue.{number_of};

    ghost from_gives = { λ v n. (n ≡ number_of v) × (n < 2 ^ 62) };

    fn from(value: TlsVarInt) -> u64 {
        value.number
    }
}
