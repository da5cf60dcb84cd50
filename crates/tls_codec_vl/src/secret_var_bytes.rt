//! [`SecretVarBytes`], bytes that are cleared when they are dropped, under two names: [`SecretVLBytes`] and
//! [`SecretVLByteVec`]. Freed memory may still hold them: see [`Zeroize`].
ghost use Rattle.std.specs.Prelude.{◌≡◌, [], ◌∷◌, ◌++◌, is_ok, if◌then◌else◌, length, IfErr, IfOk, IsOk, MatchOption, Some};
ghost use Rattle.tls_codec_wire.specs.declared.error.Error.TheVariants.{OutOfMemory};
ghost use Rattle.tls_codec_grammar.specs.Tree.{number_trees};
ghost use Rattle.tls_codec_grammar.specs.Field.{variable_field};
ghost use Rattle.tls_codec_grammar.specs.Format.{bytes_format};
ghost use Rattle.tls_codec_grammar.specs.laws.FormatLaws.{bytes_meets};
ghost use Rattle.tls_codec_grammar.specs.Opaque.{OpaqueCopyRefused, OpaqueSourceRefused};
ghost use Rattle.tls_codec_vl.specs.Contents.{secret_bytes_of};
ghost use Rattle.tls_codec_vl.specs.Shown.{debug_text};

use crate::names::{SecretVLByteVecName, SecretVLBytesName, TypeName};
use crate::{VarBytes, Zeroize, show};
use std::alloc::Global;
use std::fmt;
use tls_codec_base::{Deserialize, DeserializeBytes, Serialize, Size};
use tls_codec_wire::{Error, Sink, Source};

/// Bytes as key material: a [`VarBytes`] that sets them to 0 and empties itself when it is dropped. It gives
/// no `Vec<u8>`.
///
/// Their encoding is their number as a variable-length integer, and then the bytes. They are
/// compared, ordered and hashed as the list of them is.
///
/// **`{:?}` PRINTS THE SECRET BYTES**, as the Rust crate's does: keep it out of logs. Comparing takes as long
/// as the bytes agree: it isn't constant-time. An encoder's output is a copy that nothing clears. So is what
/// a push leaves in memory if it made the vector move.
///
/// ```rust
/// let key = SecretVLBytes::from_array(alloc, &[0x00, 0xaa])?;
/// assert_eq!(rt; key.tls_serialize_detached(alloc)?.as_slice(), [0x02, 0x00, 0xaa].as_slice());
/// ```
#[derive_where(PartialEq, Eq, PartialOrd, Ord, Hash)]
pub struct SecretVarBytes<N>(VarBytes<N>);

/// A [`VLBytes`](crate::VLBytes) as key material.
pub type SecretVLBytes = SecretVarBytes<SecretVLBytesName>;

/// A [`SecretVLBytes`] under another name, and another type, as in the Rust crate. Only `{:?}` differs.
pub type SecretVLByteVec = SecretVarBytes<SecretVLByteVecName>;

impl<N> SecretVarBytes<N> {
    /// These bytes, which aren't copied.
    pub fn new(content: Vec<u8>) -> SecretVarBytes<N>
        ensures { secret_bytes_of result ≡ content.items }
    {
        SecretVarBytes(VarBytes::new(content))
    }

    /// A copy of these bytes, which are left as they are.
    ///
    /// `OutOfMemory`: there was no memory for it. If there are no bytes, nothing is allocated.
    pub fn from_slice(alloc: Global, content: &[u8]) -> Result<SecretVarBytes<N>, Error>
        ensures ok { IfOk result (λ v. secret_bytes_of v ≡ content.now) }
        ensures err { IfErr result (λ e. e ≡ OutOfMemory) }
        ensures none { length content.now ≡ 0 → IsOk result }
    {
        let copy = VarBytes::from_slice(alloc, content)?;
        Ok(SecretVarBytes(copy))
    }

    /// A copy of the bytes of an array. `OutOfMemory` is as in
    /// [`from_slice`](SecretVarBytes::from_slice).
    pub fn from_array<const LEN: usize>(
        alloc: Global,
        content: &[u8; LEN],
    ) -> Result<SecretVarBytes<N>, Error>
        ensures ok { IfOk result (λ v. secret_bytes_of v ≡ content.now) }
        ensures err { IfErr result (λ e. e ≡ OutOfMemory) }
        ensures none { LEN ≡ 0 → IsOk result }
    {
        SecretVarBytes::from_slice(alloc, content)
    }

    /// A copy, which is a secret too, by the allocator that these bytes were made with. `OutOfMemory` is as
    /// in [`from_slice`](SecretVarBytes::from_slice).
    pub fn clone(&self) -> Result<SecretVarBytes<N>, Error>
        ensures ok { IfOk result (λ v. secret_bytes_of v ≡ secret_bytes_of self.now) }
        ensures err { IfErr result (λ e. e ≡ OutOfMemory) }
        ensures none { length (secret_bytes_of self.now) ≡ 0 → IsOk result }
    {
        let copy = self.0.clone()?;
        Ok(SecretVarBytes(copy))
    }

    /// The bytes.
    pub fn as_slice(&self) -> &[u8]
        ensures { result.now ≡ secret_bytes_of self.now }
    {
        self.0.as_slice()
    }

    /// Appends a byte. `OutOfMemory`: there was no memory for it, and the bytes are as they were.
    pub fn push(&mut self, byte: u8) -> Result<(), Error>
        ensures content { secret_bytes_of self.new
            ≡ (if is_ok result then secret_bytes_of self.old
            ++ byte
            ∷ [] else secret_bytes_of self.old) }
        ensures err { IfErr result (λ e. e ≡ OutOfMemory) }
    {
        self.0.push(byte)
    }

    /// Takes the last byte, if there is one.
    pub fn pop(&mut self) -> Option<u8>
        ensures { MatchOption result
            ((secret_bytes_of self.old ≡ []) × (secret_bytes_of self.new ≡ []))
            (λ byte. secret_bytes_of self.old ≡ secret_bytes_of self.new ++ byte ∷ []) }
    {
        self.0.pop()
    }
}

impl<N> From<Vec<u8>> for SecretVarBytes<N> {
    ghost from_gives = { λ content v. secret_bytes_of v ≡ content.items };

    fn from(content: Vec<u8>) -> SecretVarBytes<N> {
        SecretVarBytes::new(content)
    }
}

impl<N> Zeroize for SecretVarBytes<N> {
    ghost cleared = { λ v. secret_bytes_of v ≡ [] };

    /// The bytes are set to 0, and then there are none.
    fn zeroize(&mut self) {
        self.0.zeroize();
    }
}

impl<N> Drop for SecretVarBytes<N> {
    fn drop(mut self) {
        self.zeroize();
        let SecretVarBytes(_) = self;
    }
}

impl<N: TypeName> fmt::Debug for SecretVarBytes<N> {
    ghost debug_output = { λ v. Some (debug_text N.text (secret_bytes_of v)) };

    /// **Prints the secret bytes.**
    fn fmt<W: fmt::Write>(&self, f: &mut fmt::Formatter<W>) -> fmt::Result {
        show::debug(N::name(), self.as_slice(), f)
    }
}

impl<N> Size for SecretVarBytes<N> {
    ghost plain = { λ v. number_trees (secret_bytes_of v) };

    ghost format = { bytes_format };

    fn tls_serialized_len(&self) -> usize {
        self.0.tls_serialized_len()
    }

    ghost lawful = { bytes_meets };
}

impl<N> Serialize for SecretVarBytes<N> {
    /// `InvalidVectorLength`: there are more bytes than the greatest length, and nothing was sent.
    /// Every other error is the sink's.
    fn tls_serialize<W: Sink>(&self, writer: &mut W) -> Result<usize, Error> {
        self.0.tls_serialize(writer)
    }

    /// `InvalidVectorLength`: there are more bytes than the greatest length. `OutOfMemory`:
    /// allocation failed.
    fn tls_serialize_into(&self, out: &mut Vec<u8>) -> Result<usize, Error> {
        self.0.tls_serialize_into(out)
    }
}

impl<N> Deserialize for SecretVarBytes<N> {
    ghost names = { OpaqueSourceRefused variable_field };

    /// `EndOfStream`: there is no whole length, or fewer bytes come than it declares.
    /// `InvalidVectorLength`: the length has more bytes than it needs, or more than 30 bits.
    /// Every other error is the source's, or `OutOfMemory`.
    fn tls_deserialize<R: Source>(alloc: Global, src: &mut R) -> Result<SecretVarBytes<N>, Error> {
        let read = VarBytes::tls_deserialize(alloc, src)?;
        Ok(SecretVarBytes(read))
    }
}

impl<N> DeserializeBytes for SecretVarBytes<N> {
    ghost names = { OpaqueCopyRefused variable_field };

    /// `InvalidVectorLength`: the length has more bytes than it needs, or more than 30 bits.
    /// `EndOfStream`: there is no whole length. `DecodingError("declared content is not there")`:
    /// fewer bytes come after it than it declares. `OutOfMemory`: allocation failed.
    fn tls_deserialize_bytes(
        alloc: Global,
        whole: &[u8],
    ) -> Result<(SecretVarBytes<N>, &[u8]), Error> {
        let (read, rest) = VarBytes::tls_deserialize_bytes(alloc, whole)?;
        Ok((SecretVarBytes(read), rest))
    }
}
