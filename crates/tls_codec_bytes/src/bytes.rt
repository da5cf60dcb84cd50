//! [`TlsByteVec`], owned bytes, and its own calls.
ghost use Rattle.std.specs.Prelude.{◌≡◌, ◌<◌, ◌^◌, ◌↔◌, ℕ, [], ◌∷◌, ◌++◌, is_ok, if◌then◌else◌, length, IfErr, IfOk, IsOk, IsTrue, MatchOption, Some, option_copied, slice_get};
ghost use Rattle.std.specs.Borrow.{sem};
ghost use Rattle.std.specs.Fn.{CalledAt};
ghost use Rattle.std.specs.Iterator.{Drains, IsFinite};
ghost use Rattle.std.specs.Iterator.Adapters.{IterYieldsInOrder, IterYieldsInReverse};
ghost use Rattle.std.specs.List.{remove};
ghost use Rattle.std.specs.List.Retain.{IsFiltered};
ghost use Rattle.std.specs.Slice.Iter.{iter_rest};
ghost use Rattle.tls_codec_wire.specs.declared.error.Error.TheVariants.{OutOfMemory};
ghost use Rattle.tls_codec_bytes.specs.Contents.{bytes_of};
ghost use Rattle.tls_codec_bytes.specs.Lends.{lends_byte};

use std::alloc::{AllocError, Global};
use std::marker::PhantomData;
use std::ops::{Index, IndexMut};
use std::{fmt, slice};
use tls_codec_base::{LengthField, opaque};
use tls_codec_vec::collecting::collected;
use tls_codec_wire::{Error, U24};

/// Bytes. Their encoding is their number as the length field `F`, and then the bytes.
///
/// They are compared and hashed as a list of bytes is.
///
/// ```rust
/// let id = TlsByteVecU16::from_slice(alloc, &[0x00, 0xaa])?;
/// assert_eq!(rt; id.tls_serialize_detached(alloc)?.as_slice(), [0x00, 0x02, 0x00, 0xaa].as_slice());
/// ```
#[derive(Drop)]
#[derive_where(PartialEq, Eq, Hash)]
pub struct TlsByteVec<F> {
    vec: Vec<u8>,
    #[derive_where(skip)]
    field: PhantomData<F>,
}

/// At most 255 bytes, after a length of one byte.
pub type TlsByteVecU8 = TlsByteVec<u8>;

/// At most 65,535 bytes, after a length of two bytes.
pub type TlsByteVecU16 = TlsByteVec<u16>;

/// At most 16,777,215 bytes, after a length of three bytes.
pub type TlsByteVecU24 = TlsByteVec<U24>;

/// At most 4,294,967,295 bytes, after a length of four bytes.
pub type TlsByteVecU32 = TlsByteVec<u32>;

impl<F> TlsByteVec<F> {
    /// These bytes, which aren't copied. If the length field doesn't hold their number, they are
    /// rejected when they are written.
    pub fn new(vec: Vec<u8>) -> TlsByteVec<F>
        ensures { bytes_of result ≡ vec.items }
    {
        TlsByteVec {
            vec,
            field: PhantomData,
        }
    }

    /// No bytes. It allocates nothing until the first one is pushed.
    pub fn default(alloc: Global) -> TlsByteVec<F>
        ensures { bytes_of result ≡ [] }
    {
        TlsByteVec::new(Vec::new(alloc))
    }

    /// A copy of these bytes.
    ///
    /// `OutOfMemory`: there was no memory for it. If there are no bytes, nothing is allocated.
    pub fn from_slice(alloc: Global, content: &[u8]) -> Result<TlsByteVec<F>, Error>
        ensures ok { IfOk result (λ v. bytes_of v ≡ content.now) }
        ensures err { IfErr result (λ e. e ≡ OutOfMemory) }
        ensures none { length content.now ≡ 0 → IsOk result }
    {
        let copy = opaque::copied(alloc, content)?;
        Ok(TlsByteVec::new(copy))
    }

    /// The bytes that an iterator gives, in its order. It has to end.
    ///
    /// `OutOfMemory`: there was no memory for them, and they are dropped.
    pub fn try_from_iter<I: IntoIterator<Item = u8>>(
        alloc: Global,
        iter: I,
    ) -> Result<TlsByteVec<F>, Error>
        requires { (it : I.IntoIter)
            → I.into_iter_gives iter it
            → I.IntoIter.can_next it × IsFinite (I.IntoIter.remaining it) }
        ensures ok { IfOk result
            (λ v. (it : I.IntoIter)
            × I.into_iter_gives iter it
            × Drains I.IntoIter.next_gives it (bytes_of v)) }
        ensures err { IfErr result (λ e. e ≡ OutOfMemory) }
    {
        let vec = collected(alloc, iter)?;
        Ok(TlsByteVec::new(vec))
    }

    /// A copy, by the allocator that these bytes were made with. `OutOfMemory` is as in
    /// [`from_slice`](TlsByteVec::from_slice).
    pub fn clone(&self) -> Result<TlsByteVec<F>, Error>
        ensures ok { IfOk result (λ v. bytes_of v ≡ bytes_of self.now) }
        ensures err { IfErr result (λ e. e ≡ OutOfMemory) }
        ensures none { length (bytes_of self.now) ≡ 0 → IsOk result }
    {
        let copy = Clone::clone(self)?;
        Ok(copy)
    }

    /// The number of bytes.
    pub fn len(&self) -> usize
        ensures { result ≡ length (bytes_of self.now) }
    {
        self.vec.len()
    }

    /// Whether there are no bytes.
    pub fn is_empty(&self) -> bool
        ensures { IsTrue result ↔ (bytes_of self.now ≡ []) }
    {
        self.vec.is_empty()
    }

    /// The bytes.
    pub fn as_slice(&self) -> &[u8]
        ensures { result.now ≡ bytes_of self.now }
    {
        self.vec.as_slice()
    }

    /// The bytes as a vector. They aren't copied.
    pub fn into_vec(self) -> Vec<u8>
        ensures { result.items ≡ bytes_of self }
    {
        Vec::from(self)
    }

    /// The byte at a place, if there is one.
    pub fn get(&self, index: usize) -> Option<&u8>
        ensures { option_copied result ≡ slice_get (bytes_of self.now) index }
    {
        self.vec.get(index)
    }

    /// The bytes one by one, from either end.
    pub fn iter(&self) -> slice::Iter<'_, u8>
        ensures rest { iter_rest result ≡ bytes_of self.now }
        ensures bound { length (iter_rest result) < 2 ^ 64 }
        ensures runs { IterYieldsInOrder ℕ }
        ensures runs_back { IterYieldsInReverse ℕ }
    {
        self.as_slice().iter()
    }

    /// Appends a byte. `OutOfMemory`: there was no memory for it, and the bytes are as they were.
    pub fn push(&mut self, byte: u8) -> Result<(), Error>
        ensures content { bytes_of self.new
            ≡ (if is_ok result then bytes_of self.old ++ byte ∷ [] else bytes_of self.old) }
        ensures err { IfErr result (λ e. e ≡ OutOfMemory) }
    {
        opaque::push(&mut self.vec, byte)
    }

    /// Takes the last byte, if there is one.
    pub fn pop(&mut self) -> Option<u8>
        ensures { MatchOption result ((bytes_of self.old ≡ []) × (bytes_of self.new ≡ []))
            (λ byte. bytes_of self.old ≡ bytes_of self.new ++ byte ∷ []) }
    {
        self.vec.pop()
    }

    /// Takes the byte at a place, and moves the later ones down. The place is below
    /// [`len`](TlsByteVec::len).
    pub fn remove(&mut self, index: usize) -> u8
        requires { index < length (bytes_of self.old) }
        ensures value { slice_get (bytes_of self.old) index ≡ Some result }
        ensures content { bytes_of self.new ≡ remove (bytes_of self.old) index }
    {
        self.vec.remove(index)
    }

    /// Keeps the bytes at which `keep` returns true, in their order. It is called once for each
    /// byte, from the first on.
    pub fn retain<K: FnMut(&u8) -> bool>(&mut self, keep: K)
        requires { K.IsAlwaysCallable keep }
        ensures { IsFiltered (CalledAt K.FnMut) keep (bytes_of self.old) (bytes_of self.new) }
    {
        self.vec.retain(keep);
    }
}

impl<F> Clone for TlsByteVec<F> {
    ghost is_clone = { λ v copy. bytes_of copy ≡ bytes_of v };

    ghost is_infallible = { λ v. length (bytes_of v) ≡ 0 };

    /// The same copy, for code that is generic over `Clone`, and for `derive`.
    fn clone(&self) -> Result<TlsByteVec<F>, AllocError> {
        match TlsByteVec::from_slice(*self.vec.allocator(), self.as_slice()) {
            Ok(copy) => Ok(copy),
            Err(_) => Err(AllocError),
        }
    }
}

impl<F: LengthField> TlsByteVec<F> {
    /// How many bytes the length field has: 1, 2, 3 or 4 for the types above.
    pub fn len_len() -> usize
        ensures { result ≡ F.field.width 0 }
    {
        F::width(0)
    }
}

impl<F> Index<usize> for TlsByteVec<F> {
    type Output = u8;

    ghost can_index = { λ v i. i < length (bytes_of v) };

    ghost index_gives = { λ v i x. slice_get (bytes_of v) i ≡ Some x };

    /// The place is below [`len`](TlsByteVec::len).
    fn index(&self, index: usize) -> &u8 {
        &self.vec[index]
    }
}

impl<F> IndexMut<usize> for TlsByteVec<F> {
    /// The place is below [`len`](TlsByteVec::len).
    fn index_mut(&mut self, index: usize) -> &mut u8
        requires { index < length (bytes_of self.old) }
        ensures* writes_back { sem 𝓛 (lends_byte F.row self.entry index result) }
        ensures value { slice_get (bytes_of self.old) index ≡ Some result.now }
    {
        &mut self.vec[index]
    }
}

impl<F> From<Vec<u8>> for TlsByteVec<F> {
    ghost from_gives = { λ content v. bytes_of v ≡ content.items };

    fn from(content: Vec<u8>) -> TlsByteVec<F> {
        TlsByteVec::new(content)
    }
}

impl<F> From<TlsByteVec<F>> for Vec<u8> {
    ghost from_gives = { λ v content. content.items ≡ bytes_of v };

    fn from(value: TlsByteVec<F>) -> Vec<u8> {
        value.vec
    }
}

impl<F> fmt::Debug for TlsByteVec<F> {
    fn fmt<W: fmt::Write>(&self, f: &mut fmt::Formatter<W>) -> fmt::Result {
        f.debug_struct("TlsByteVec")
            .field("vec", &self.vec)
            .finish()
    }
}
