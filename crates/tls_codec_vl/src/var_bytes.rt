//! [`VarBytes`], owned bytes, under two names: [`VLBytes`] and [`VLByteVec`].
ghost use Rattle.std.specs.Prelude.{◌≡◌, [], ◌∷◌, ◌++◌, is_ok, if◌then◌else◌, length, IfErr, IfOk, IsOk, MatchOption, Some};
ghost use Rattle.tls_codec_wire.specs.declared.error.Error.TheVariants.{OutOfMemory};
ghost use Rattle.tls_codec_grammar.specs.Tree.{number_trees};
ghost use Rattle.tls_codec_grammar.specs.Field.{variable_field};
ghost use Rattle.tls_codec_grammar.specs.Format.{bytes_format};
ghost use Rattle.tls_codec_grammar.specs.laws.FormatLaws.{bytes_meets};
ghost use Rattle.tls_codec_grammar.specs.Opaque.{OpaqueCopyRefused, OpaqueSourceRefused};
ghost use Rattle.tls_codec_vl.specs.Contents.{bytes_of};
ghost use Rattle.tls_codec_vl.specs.Shown.{debug_text};

use crate::names::{TypeName, VLByteVecName, VLBytesName};
use crate::zeroize::wipe;
use crate::{Zeroize, show};
use std::alloc::{AllocError, Global};
use std::fmt;
use std::marker::PhantomData;
use tls_codec_base::{Deserialize, DeserializeBytes, Serialize, SerializeBytes, Size, opaque};
use tls_codec_wire::{Error, Sink, Source, TlsVarInt};

/// Bytes. Their encoding is their number as a variable-length integer, and then the bytes.
///
/// They are compared, ordered and hashed as the list of them is. `N` is the name that `{:?}` prints.
///
/// ```rust
/// let key = VLBytes::from_array(alloc, &[0x00, 0xaa])?;
/// assert_eq!(rt; key.tls_serialize_detached(alloc)?.as_slice(), [0x02, 0x00, 0xaa].as_slice());
/// ```
#[derive(Drop)]
#[derive_where(PartialEq, Eq, PartialOrd, Ord, Hash)]
pub struct VarBytes<N> {
    vec: Vec<u8>,
    #[derive_where(skip)]
    name: PhantomData<N>,
}

/// Bytes after a variable-length length.
pub type VLBytes = VarBytes<VLBytesName>;

/// A [`VLBytes`] under another name, and another type, as in the Rust crate. Only `{:?}` differs.
pub type VLByteVec = VarBytes<VLByteVecName>;

impl<N> VarBytes<N> {
    /// These bytes, which aren't copied.
    pub fn new(content: Vec<u8>) -> VarBytes<N>
        ensures { bytes_of result ≡ content.items }
    {
        VarBytes {
            vec: content,
            name: PhantomData,
        }
    }

    /// A copy of these bytes.
    ///
    /// `OutOfMemory`: there was no memory for it. If there are no bytes, nothing is allocated.
    pub fn from_slice(alloc: Global, content: &[u8]) -> Result<VarBytes<N>, Error>
        ensures ok { IfOk result (λ v. bytes_of v ≡ content.now) }
        ensures err { IfErr result (λ e. e ≡ OutOfMemory) }
        ensures none { length content.now ≡ 0 → IsOk result }
    {
        let copy = opaque::copied(alloc, content)?;
        Ok(VarBytes::new(copy))
    }

    /// A copy of the bytes of an array. `OutOfMemory` is as in [`from_slice`](VarBytes::from_slice).
    pub fn from_array<const LEN: usize>(
        alloc: Global,
        content: &[u8; LEN],
    ) -> Result<VarBytes<N>, Error>
        ensures ok { IfOk result (λ v. bytes_of v ≡ content.now) }
        ensures err { IfErr result (λ e. e ≡ OutOfMemory) }
        ensures none { LEN ≡ 0 → IsOk result }
    {
        VarBytes::from_slice(alloc, content)
    }

    /// A copy, by the allocator that these bytes were made with. `OutOfMemory` is as in
    /// [`from_slice`](VarBytes::from_slice).
    pub fn clone(&self) -> Result<VarBytes<N>, Error>
        ensures ok { IfOk result (λ v. bytes_of v ≡ bytes_of self.now) }
        ensures err { IfErr result (λ e. e ≡ OutOfMemory) }
        ensures none { length (bytes_of self.now) ≡ 0 → IsOk result }
    {
        let copy = Clone::clone(self)?;
        Ok(copy)
    }

    /// The bytes.
    pub fn as_slice(&self) -> &[u8]
        ensures { result.now ≡ bytes_of self.now }
    {
        self.vec.as_slice()
    }

    /// Appends a byte. `OutOfMemory`: there was no memory for it, and the bytes are as they were.
    pub fn push(&mut self, byte: u8) -> Result<(), Error>
        ensures content { bytes_of self.new
            ≡ (if is_ok result then bytes_of self.old ++ byte ∷ [] else bytes_of self.old) }
        ensures err { IfErr result (λ e. e ≡ OutOfMemory) }
    {
        opaque::push(&mut self.vec, byte)
    }

    /// Takes the last byte, if there is one.
    pub fn pop(&mut self) -> Option<u8>
        ensures { MatchOption result ((bytes_of self.old ≡ []) × (bytes_of self.new ≡ []))
            (λ byte. bytes_of self.old ≡ bytes_of self.new ++ byte ∷ []) }
    {
        self.vec.pop()
    }
}

impl<N> Clone for VarBytes<N> {
    ghost is_clone = { λ v copy. bytes_of copy ≡ bytes_of v };

    ghost is_infallible = { λ v. length (bytes_of v) ≡ 0 };

    /// The same copy, for code that is generic over `Clone`, and for `derive`.
    fn clone(&self) -> Result<VarBytes<N>, AllocError> {
        match VarBytes::from_slice(*self.vec.allocator(), self.as_slice()) {
            Ok(copy) => Ok(copy),
            Err(_) => Err(AllocError),
        }
    }
}

impl<N> From<Vec<u8>> for VarBytes<N> {
    ghost from_gives = { λ content v. bytes_of v ≡ content.items };

    fn from(content: Vec<u8>) -> VarBytes<N> {
        VarBytes::new(content)
    }
}

impl<N> From<VarBytes<N>> for Vec<u8> {
    ghost from_gives = { λ v content. content.items ≡ bytes_of v };

    fn from(value: VarBytes<N>) -> Vec<u8> {
        value.vec
    }
}

impl<N: TypeName> fmt::Debug for VarBytes<N> {
    ghost debug_output = { λ v. Some (debug_text N.text (bytes_of v)) };

    fn fmt<W: fmt::Write>(&self, f: &mut fmt::Formatter<W>) -> fmt::Result {
        show::debug(N::name(), self.as_slice(), f)
    }
}

impl<N> Zeroize for VarBytes<N> {
    ghost cleared = { λ v. bytes_of v ≡ [] };

    /// The bytes are set to 0, and then there are none.
    fn zeroize(&mut self) {
        wipe(self.vec.as_mut_slice());
        self.vec.clear();
    }
}

impl<N> Size for VarBytes<N> {
    ghost plain = { λ v. number_trees (bytes_of v) };

    ghost format = { bytes_format };

    fn tls_serialized_len(&self) -> usize {
        opaque::announced_len::<TlsVarInt>(self.as_slice())
    }

    ghost lawful = { bytes_meets };
}

impl<N> Serialize for VarBytes<N> {
    /// `InvalidVectorLength`: there are more bytes than the greatest length, and nothing was sent.
    /// Every other error is the sink's.
    fn tls_serialize<W: Sink>(&self, writer: &mut W) -> Result<usize, Error> {
        opaque::write::<TlsVarInt, W>(writer, self.as_slice())
    }

    /// `InvalidVectorLength`: there are more bytes than the greatest length. `OutOfMemory`:
    /// allocation failed.
    #[inline(always)]
    fn tls_serialize_into(&self, out: &mut Vec<u8>) -> Result<usize, Error> {
        opaque::append::<TlsVarInt>(out, self.as_slice())
    }
}

impl<N> SerializeBytes for VarBytes<N> {
    fn tls_serialize_bytes(&self, alloc: Global) -> Result<Vec<u8>, Error> {
        opaque::to_vec::<TlsVarInt>(alloc, self.as_slice())
    }
}

impl<N> Deserialize for VarBytes<N> {
    ghost names = { OpaqueSourceRefused variable_field };

    /// `EndOfStream`: there is no whole length, or fewer bytes come than it declares.
    /// `InvalidVectorLength`: the length has more bytes than it needs, or more than 30 bits.
    /// Every other error is the source's, or `OutOfMemory`.
    #[inline(always)]
    fn tls_deserialize<R: Source>(alloc: Global, src: &mut R) -> Result<VarBytes<N>, Error> {
        let read = opaque::read::<TlsVarInt, R>(alloc, src)?;
        Ok(VarBytes::new(read))
    }
}

impl<N> DeserializeBytes for VarBytes<N> {
    ghost names = { OpaqueCopyRefused variable_field };

    /// `InvalidVectorLength`: the length has more bytes than it needs, or more than 30 bits.
    /// `EndOfStream`: there is no whole length. `DecodingError("declared content is not there")`:
    /// fewer bytes come after it than it declares. `OutOfMemory`: allocation failed.
    #[inline(always)]
    fn tls_deserialize_bytes(alloc: Global, whole: &[u8]) -> Result<(VarBytes<N>, &[u8]), Error> {
        let (copy, rest) = opaque::split_copied::<TlsVarInt>(alloc, whole)?;
        Ok((VarBytes::new(copy), rest))
    }
}

impl<N> Size for &VarBytes<N> {
    ghost plain = { λ v. number_trees (bytes_of v.now) };

    ghost format = { bytes_format };

    fn tls_serialized_len(&self) -> usize {
        (**self).tls_serialized_len()
    }

    ghost lawful = { bytes_meets };
}

impl<N> Serialize for &VarBytes<N> {
    fn tls_serialize<W: Sink>(&self, writer: &mut W) -> Result<usize, Error> {
        (**self).tls_serialize(writer)
    }

    fn tls_serialize_into(&self, out: &mut Vec<u8>) -> Result<usize, Error> {
        (**self).tls_serialize_into(out)
    }
}

impl<N> SerializeBytes for &VarBytes<N> {
    fn tls_serialize_bytes(&self, alloc: Global) -> Result<Vec<u8>, Error> {
        (**self).tls_serialize_bytes(alloc)
    }
}
