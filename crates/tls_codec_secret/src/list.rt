//! [`SecretTlsVec`], a list of elements that are cleared when it is dropped.
ghost use Rattle.std.specs.Prelude.{◌≡◌, ◌==◌, ◌<◌, ◌^◌, [], ◌∷◌, ◌++◌, is_ok, if◌then◌else◌, length, slice_get, slice_index_or, option_copied, IfErr, IfOk, IsOk, MatchOption};
ghost use Rattle.std.specs.Fn.{CalledAt};
ghost use Rattle.std.specs.Iterator.{Drains, IsFiniteIterable};
ghost use Rattle.std.specs.Iterator.Adapters.{IterYieldsInOrder, IterYieldsInReverse};
ghost use Rattle.std.specs.List.{remove};
ghost use Rattle.std.specs.List.Retain.{IsFiltered};
ghost use Rattle.std.specs.Slice.Iter.{iter_rest};
ghost use Rattle.tls_codec_wire.specs.declared.error.Error.TheVariants.{OutOfMemory};
ghost use Rattle.tls_codec_vec.specs.Contents.{ClonesAreEqual};
ghost use Rattle.tls_codec_secret.specs.Contents.{elements_of};

use std::alloc::Global;
use std::marker::PhantomData;
use std::slice::Iter;
use tls_codec_base::LengthField;
use tls_codec_vec::TlsVec;
use tls_codec_vec::collecting::collected;
use tls_codec_vl::Zeroize;
use tls_codec_wire::{Error, U24};

mod indexing;
mod show;

/// A list of key material. Its encoding is the number of its bytes, in the form `F`, and then the
/// elements.
///
/// Dropping it clears each element, and then drops them. [`into_vec`](SecretTlsVec::into_vec), `pop`,
/// `remove` and the conversion to a `Vec` give elements away as they are; then their owner has to clear
/// them.
///
/// It is compared and hashed as the list is. If `F` doesn't hold the number of its bytes, each encoder
/// returns `InvalidVectorLength`. **`{:?}` prints its elements.** An encoder's output is a copy that nothing
/// clears. So is what a `push` leaves in memory if it made the list move.
///
/// ```rust
/// let mut shares = SecretTlsVecU8::from_slice(alloc, &[1u16, 2])?;
/// assert_eq!(rt; shares.tls_serialize_detached(alloc)?.as_slice(), [4, 0, 1, 0, 2].as_slice());
/// shares.zeroize();
/// assert!(rt; shares.is_empty());
/// ```
#[derive_where(PartialEq, Eq, Hash; T)]
pub struct SecretTlsVec<F, T: Zeroize> {
    vec: Vec<T>,
    #[derive_where(skip)]
    field: PhantomData<F>,
}

/// A list of up to 255 bytes, `<0..2^8-1>` in the presentation language.
pub type SecretTlsVecU8<T> = SecretTlsVec<u8, T>;

/// A list of up to 65,535 bytes, `<0..2^16-1>`.
pub type SecretTlsVecU16<T> = SecretTlsVec<u16, T>;

/// A list of up to 16,777,215 bytes, `<0..2^24-1>`.
pub type SecretTlsVecU24<T> = SecretTlsVec<U24, T>;

/// A list of up to 4,294,967,295 bytes, `<0..2^32-1>`.
pub type SecretTlsVecU32<T> = SecretTlsVec<u32, T>;

impl<F, T: Zeroize> Zeroize for SecretTlsVec<F, T> {
    ghost cleared = { λ v. elements_of v ≡ [] };

    /// Clears each element, and then the list is emptied.
    fn zeroize(&mut self) {
        self.vec.zeroize();
    }
}

impl<F, T: Zeroize> Drop for SecretTlsVec<F, T> {
    fn drop(mut self) {
        self.zeroize();
        let SecretTlsVec { vec: _, field: _ } = self;
    }
}

impl<F, T: Zeroize> SecretTlsVec<F, T> {
    /// These elements, which aren't copied.
    pub fn new(vec: Vec<T>) -> SecretTlsVec<F, T>
        ensures { elements_of result ≡ vec.items }
    {
        SecretTlsVec {
            vec,
            field: PhantomData,
        }
    }

    /// No elements. It allocates nothing.
    pub fn default(alloc: Global) -> SecretTlsVec<F, T>
        ensures { elements_of result ≡ [] }
    {
        SecretTlsVec::new(Vec::new(alloc))
    }

    /// The number of elements.
    pub fn len(&self) -> usize
        ensures { result ≡ length (elements_of self.now) }
    {
        self.vec.len()
    }

    /// Whether there are none.
    pub fn is_empty(&self) -> bool
        ensures { result ≡ (length (elements_of self.now) == 0) }
    {
        self.vec.is_empty()
    }

    /// The elements.
    pub fn as_slice(&self) -> &[T]
        ensures { result.now ≡ elements_of self.now }
    {
        self.vec.as_slice()
    }

    /// The elements as a vector, which isn't a copy. None of them is cleared, neither now nor when the
    /// vector is dropped.
    pub fn into_vec(self) -> Vec<T>
        ensures { result.items ≡ elements_of self }
    {
        let SecretTlsVec { vec, field: _ } = self;
        vec
    }

    /// The element at a place, if there is one.
    pub fn get(&self, index: usize) -> Option<&T>
        ensures { option_copied result ≡ slice_get (elements_of self.now) index }
    {
        self.vec.get(index)
    }

    /// The elements one by one, from either end.
    pub fn iter(&self) -> Iter<'_, T>
        ensures rest { iter_rest result ≡ elements_of self.now }
        ensures bound { length (iter_rest result) < 2 ^ 64 }
        ensures runs { IterYieldsInOrder T }
        ensures runs_back { IterYieldsInReverse T }
    {
        self.vec.iter()
    }

    /// Takes the last element, if there is one. It isn't cleared.
    pub fn pop(&mut self) -> Option<T>
        ensures { MatchOption result ((elements_of self.old ≡ []) × (elements_of self.new ≡ []))
            (λ element. elements_of self.old ≡ elements_of self.new ++ element ∷ []) }
    {
        self.vec.pop()
    }

    /// Takes the element at a place, which is below [`len`](SecretTlsVec::len). It isn't cleared. Those
    /// after it move one place to the front.
    pub fn remove(&mut self, index: usize) -> T
        requires { index < length (elements_of self.old) }
        ensures value { slice_get (elements_of self.old) index ≡ Some result }
        ensures rest { elements_of self.new ≡ remove (elements_of self.old) index }
    {
        self.vec.remove(index)
    }

    /// Appends an element. `OutOfMemory`: there was no memory for it, and the list is as it was. The
    /// element is dropped then, and isn't cleared before.
    pub fn push(&mut self, value: T) -> Result<(), Error>
        ensures elements { elements_of self.new
            ≡ (if is_ok result then elements_of self.old ++ value ∷ [] else elements_of self.old) }
        ensures err { IfErr result (λ e. e ≡ OutOfMemory) }
    {
        self.vec.push(value)?;
        Ok(())
    }

    /// Keeps the elements for which the closure returns true, in their order. It is called once for
    /// each element, from the first to the last. The others are dropped, and aren't cleared before.
    pub fn retain<P: FnMut(&T) -> bool>(&mut self, f: P)
        requires { P.IsAlwaysCallable f }
        ensures { IsFiltered (CalledAt P.FnMut) f (elements_of self.old) (elements_of self.new) }
    {
        self.vec.retain(f);
    }

    /// The elements that an iterator gives, in its order. It has to end. `OutOfMemory`: there was no memory
    /// for them, and those that it gave are dropped, and aren't cleared before.
    pub fn try_from_iter<I: IntoIterator<Item = T>>(
        alloc: Global,
        iter: I,
    ) -> Result<SecretTlsVec<F, T>, Error>
        requires ends { IsFiniteIterable I.into_iter_gives I.IntoIter.can_next I.IntoIter.remaining
            iter }
        ensures ok { IfOk result
            (λ v. (it : I.IntoIter)
            × I.into_iter_gives iter it
            × Drains I.IntoIter.next_gives it (elements_of v)) }
        ensures err { IfErr result (λ e. e ≡ OutOfMemory) }
    {
        let vec = collected(alloc, iter)?;
        Ok(SecretTlsVec::new(vec))
    }
}

impl<F, T: Zeroize + Clone> SecretTlsVec<F, T> {
    /// A clone of each of these elements. `OutOfMemory`: there was no memory for them. If there are no
    /// elements, nothing is allocated.
    pub fn from_slice(alloc: Global, elements: &[T]) -> Result<SecretTlsVec<F, T>, Error>
        requires { ClonesAreEqual T.is_clone elements.now }
        ensures ok { IfOk result (λ v. elements_of v ≡ elements.now) }
        ensures err { IfErr result (λ e. e ≡ OutOfMemory) }
        ensures none { length elements.now ≡ 0 → IsOk result }
    {
        let copy: TlsVec<F, T> = TlsVec::from_slice(alloc, elements)?;
        Ok(SecretTlsVec::new(copy.into_vec()))
    }

    /// A clone of each element, by the allocator that the list was made with. `OutOfMemory` is as in
    /// [`from_slice`](SecretTlsVec::from_slice).
    pub fn clone(&self) -> Result<SecretTlsVec<F, T>, Error>
        requires { ClonesAreEqual T.is_clone (elements_of self.now) }
        ensures ok { IfOk result (λ v. elements_of v ≡ elements_of self.now) }
        ensures err { IfErr result (λ e. e ≡ OutOfMemory) }
        ensures none { length (elements_of self.now) ≡ 0 → IsOk result }
    {
        SecretTlsVec::from_slice(*self.vec.allocator(), self.as_slice())
    }
}

impl<F: LengthField, T: Zeroize> SecretTlsVec<F, T> {
    /// The number of bytes of the length before the elements: 1, 2, 3 or 4 for the names by width.
    pub fn len_len() -> usize
        ensures { result ≡ F.field.width 0 }
    {
        F::width(0)
    }
}
