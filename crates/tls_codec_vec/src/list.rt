//! [`TlsVec`], a list of elements, and what is done with it.
ghost use Rattle.std.specs.Prelude.{◌≡◌, ◌==◌, ◌<◌, ◌^◌, [], ◌∷◌, ◌++◌, is_ok, if◌then◌else◌, length, slice_get, slice_index_or, option_copied, IfErr, IfOk, IsOk, MatchOption};
ghost use Rattle.std.specs.Fn.{CalledAt};
ghost use Rattle.std.specs.Iterator.{Drains, IsFiniteIterable};
ghost use Rattle.std.specs.Iterator.Adapters.{IterYieldsInOrder, IterYieldsInReverse};
ghost use Rattle.std.specs.List.{AllZip, remove};
ghost use Rattle.std.specs.List.Retain.{IsFiltered};
ghost use Rattle.std.specs.Slice.Iter.{iter_rest};
ghost use Rattle.tls_codec_wire.specs.declared.error.Error.TheVariants.{OutOfMemory};
ghost use Rattle.tls_codec_vec.specs.Contents.{ClonesAreEqual, elements_of};

use crate::collecting::collected;
use std::alloc::{AllocError, Global};
use std::marker::PhantomData;
use std::slice::Iter;
use tls_codec_base::LengthField;
use tls_codec_wire::{Error, U24};

mod indexing;
mod show;

/// A list of elements. Its encoding is the number of its bytes, in the form `F`, and then the
/// elements.
///
/// It is compared and hashed as the list is. If `F` doesn't hold the number of its bytes, each encoder
/// returns `InvalidVectorLength`.
///
/// ```rust
/// let suites = TlsVecU16::from_slice(alloc, &[0x1301u16, 0x1302])?;
/// let form = suites.tls_serialize_detached(alloc)?;
/// assert_eq!(rt; form.as_slice(), [0, 4, 0x13, 0x01, 0x13, 0x02].as_slice());
/// ```
#[derive(Drop)]
#[derive_where(PartialEq, Eq, Hash; T)]
pub struct TlsVec<F, T> {
    vec: Vec<T>,
    #[derive_where(skip)]
    field: PhantomData<F>,
}

/// A list of up to 255 bytes, `<0..2^8-1>` in the presentation language.
pub type TlsVecU8<T> = TlsVec<u8, T>;

/// A list of up to 65,535 bytes, `<0..2^16-1>`.
pub type TlsVecU16<T> = TlsVec<u16, T>;

/// A list of up to 16,777,215 bytes, `<0..2^24-1>`.
pub type TlsVecU24<T> = TlsVec<U24, T>;

/// A list of up to 4,294,967,295 bytes, `<0..2^32-1>`.
pub type TlsVecU32<T> = TlsVec<u32, T>;

impl<F, T> TlsVec<F, T> {
    /// These elements, which aren't copied.
    pub fn new(vec: Vec<T>) -> TlsVec<F, T>
        ensures { elements_of result ≡ vec.items }
    {
        TlsVec {
            vec,
            field: PhantomData,
        }
    }

    /// No elements. It allocates nothing.
    pub fn default(alloc: Global) -> TlsVec<F, T>
        ensures { elements_of result ≡ [] }
    {
        TlsVec::new(Vec::new(alloc))
    }

    /// The number of elements.
    pub fn len(&self) -> usize
        ensures { result ≡ length (elements_of self.now) }
    {
        self.vec.len()
    }

    /// Whether there are none.
    pub fn is_empty(&self) -> bool
        ensures { result ≡ (length (elements_of self.now) == 0) }
    {
        self.vec.is_empty()
    }

    /// The elements.
    pub fn as_slice(&self) -> &[T]
        ensures { result.now ≡ elements_of self.now }
    {
        self.vec.as_slice()
    }

    /// The elements as a vector, which isn't a copy.
    pub fn into_vec(self) -> Vec<T>
        ensures { result.items ≡ elements_of self }
    {
        self.vec
    }

    /// The element at a place, if there is one.
    pub fn get(&self, index: usize) -> Option<&T>
        ensures { option_copied result ≡ slice_get (elements_of self.now) index }
    {
        self.vec.get(index)
    }

    /// The elements one by one, from either end.
    pub fn iter(&self) -> Iter<'_, T>
        ensures rest { iter_rest result ≡ elements_of self.now }
        ensures bound { length (iter_rest result) < 2 ^ 64 }
        ensures runs { IterYieldsInOrder T }
        ensures runs_back { IterYieldsInReverse T }
    {
        self.vec.iter()
    }

    /// Takes the last element, if there is one.
    pub fn pop(&mut self) -> Option<T>
        ensures { MatchOption result ((elements_of self.old ≡ []) × (elements_of self.new ≡ []))
            (λ element. elements_of self.old ≡ elements_of self.new ++ element ∷ []) }
    {
        self.vec.pop()
    }

    /// Takes the element at a place, which is below [`len`](TlsVec::len). Those after it move one place
    /// to the front.
    pub fn remove(&mut self, index: usize) -> T
        requires { index < length (elements_of self.old) }
        ensures value { slice_get (elements_of self.old) index ≡ Some result }
        ensures rest { elements_of self.new ≡ remove (elements_of self.old) index }
    {
        self.vec.remove(index)
    }
}

impl<F, T: Drop> TlsVec<F, T> {
    /// Appends an element. `OutOfMemory`: there was no memory for it, the list is as it was, and the
    /// element is dropped.
    pub fn push(&mut self, value: T) -> Result<(), Error>
        ensures elements { elements_of self.new
            ≡ (if is_ok result then elements_of self.old ++ value ∷ [] else elements_of self.old) }
        ensures err { IfErr result (λ e. e ≡ OutOfMemory) }
    {
        self.vec.push(value)?;
        Ok(())
    }

    /// Keeps the elements for which the closure returns true, in their order. It is called once for
    /// each element, from the first to the last.
    pub fn retain<P: FnMut(&T) -> bool>(&mut self, f: P)
        requires { P.IsAlwaysCallable f }
        ensures { IsFiltered (CalledAt P.FnMut) f (elements_of self.old) (elements_of self.new) }
    {
        self.vec.retain(f);
    }

    /// The elements that an iterator gives, in its order. It has to end. `OutOfMemory`: there was no
    /// memory for them, and those that it gave are dropped.
    pub fn try_from_iter<I: IntoIterator<Item = T>>(
        alloc: Global,
        iter: I,
    ) -> Result<TlsVec<F, T>, Error>
        requires ends { IsFiniteIterable I.into_iter_gives I.IntoIter.can_next I.IntoIter.remaining
            iter }
        ensures ok { IfOk result
            (λ v. (it : I.IntoIter)
            × I.into_iter_gives iter it
            × Drains I.IntoIter.next_gives it (elements_of v)) }
        ensures err { IfErr result (λ e. e ≡ OutOfMemory) }
    {
        let vec = collected(alloc, iter)?;
        Ok(TlsVec::new(vec))
    }
}

impl<F, T: Clone> TlsVec<F, T> {
    /// A clone of each of these elements. `OutOfMemory`: there was no memory for them. If there are no
    /// elements, nothing is allocated.
    pub fn from_slice(alloc: Global, elements: &[T]) -> Result<TlsVec<F, T>, Error>
        requires { ClonesAreEqual T.is_clone elements.now }
        ensures ok { IfOk result (λ v. elements_of v ≡ elements.now) }
        ensures err { IfErr result (λ e. e ≡ OutOfMemory) }
        ensures none { length elements.now ≡ 0 → IsOk result }
    {
        let mut vec = Vec::new(alloc);
        if elements.is_empty() {
            return Ok(TlsVec::new(vec));
        }
        vec.extend_with_clones(elements)?;
        Ok(TlsVec::new(vec))
    }

    /// A clone of each element, by the allocator that the list was made with. `OutOfMemory` is as in
    /// [`from_slice`](TlsVec::from_slice).
    pub fn clone(&self) -> Result<TlsVec<F, T>, Error>
        requires { ClonesAreEqual T.is_clone (elements_of self.now) }
        ensures ok { IfOk result (λ v. elements_of v ≡ elements_of self.now) }
        ensures err { IfErr result (λ e. e ≡ OutOfMemory) }
        ensures none { length (elements_of self.now) ≡ 0 → IsOk result }
    {
        TlsVec::from_slice(*self.vec.allocator(), self.as_slice())
    }
}

impl<F, T: Clone> Clone for TlsVec<F, T> {
    ghost is_clone = { λ v copy. AllZip T.is_clone (elements_of v) (elements_of copy) };

    /// The same clones, for code that is generic over `Clone`, and for `derive`.
    fn clone(&self) -> Result<TlsVec<F, T>, AllocError> {
        let vec = self.vec.clone()?;
        Ok(TlsVec::new(vec))
    }
}

impl<F: LengthField, T> TlsVec<F, T> {
    /// The number of bytes of the length before the elements: 1, 2, 3 or 4 for the names by width.
    pub fn len_len() -> usize
        ensures { result ≡ F.field.width 0 }
    {
        F::width(0)
    }
}
