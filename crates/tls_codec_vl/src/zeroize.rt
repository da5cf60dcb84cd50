//! [`Zeroize`]: values that empty themselves.
ghost use Rattle.std.specs.Prelude.{◌≡◌, [], length, replicate};
ghost use Rattle.std.specs.List.{All};

/// A value that can be cleared in place, as key material is before it is dropped.
///
/// Each type says what "cleared" is: an integer is 0, an array holds zeros, a list is empty. A list clears
/// its elements first, which is tested, and not part of its contract. A type of your own says it too.
///
/// Nothing is promised of freed memory, since the compiler may leave out stores that nothing reads. Nor is
/// it of copies that were made before.
///
/// ```rust
/// let mut key = [7u8; 3];
/// key.zeroize();
/// assert_eq!(rt; key, [0, 0, 0]);
/// ```
pub trait Zeroize: Drop {
    // What holds of a value that was cleared.
    ghost cleared: { Self → Type 0 };

    /// Clears the value.
    fn zeroize(&mut self)
        ensures { cleared self.new };
}

impl Zeroize for u8 {
    ghost cleared = { λ number. number ≡ 0 };

    fn zeroize(&mut self) {
        *self = 0u8;
    }
}

impl Zeroize for u16 {
    ghost cleared = { λ number. number ≡ 0 };

    fn zeroize(&mut self) {
        *self = 0u16;
    }
}

impl Zeroize for u32 {
    ghost cleared = { λ number. number ≡ 0 };

    fn zeroize(&mut self) {
        *self = 0u32;
    }
}

impl Zeroize for u64 {
    ghost cleared = { λ number. number ≡ 0 };

    fn zeroize(&mut self) {
        *self = 0u64;
    }
}

impl<const LEN: usize> Zeroize for [u8; LEN] {
    ghost cleared = { λ bytes. bytes ≡ replicate LEN 0 };

    fn zeroize(&mut self) {
        wipe(self);
    }
}

impl<T: Zeroize> Zeroize for Vec<T> {
    ghost cleared = { λ list. list.items ≡ [] };

    /// Clears each element, and then the list is emptied.
    fn zeroize(&mut self) {
        clear_each(self.as_mut_slice());
        self.clear();
    }
}

/// Sets each byte to 0.
pub(crate) fn wipe(bytes: &mut [u8])
    ensures { bytes.new ≡ replicate (length bytes.old) 0 }
{
    bytes.fill(0);
}

// Clears each element.
fn clear_each<T: Zeroize>(elements: &mut [T])
    ensures { All T.cleared elements.new }
{
    for element in elements.iter_mut() {
        element.zeroize();
    }
}
