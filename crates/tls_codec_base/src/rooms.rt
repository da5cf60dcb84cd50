//! [`reserve_encoding`], room for a whole encoding in a vector that has none yet.
ghost use Rattle.std.specs.Prelude.{◌≡◌, ◌≤◌, vec_capacity, max, OnOk};

use crate::traits::Size;
use std::alloc::AllocError;

/// Requests room for a value's encoding at once, if the vector has no room at all. So the encoding of
/// a message of many fields doesn't grow a new vector field by field.
///
/// An error: the allocation failed, and the vector is as before.
///
/// ```rust
/// let mut out = Vec::new(alloc);
/// reserve_encoding(&(7u16, 8u32), &mut out)?;
/// assert_eq!(rt; out.capacity(), 6);
/// ```
#[inline(always)]
pub fn reserve_encoding<T: Size>(value: &T, out: &mut Vec<u8>) -> Result<(), AllocError>
    ensures same { out.new.items ≡ out.old.items }
    ensures room { vec_capacity out.old ≡ 0
        → OnOk result (T.format.announced (T.plain value.now) ≤ vec_capacity out.new) }
    ensures most { vec_capacity out.new
        ≤ max (vec_capacity out.old) (T.format.announced (T.plain value.now)) }
{
    if out.capacity() > 0 {
        return Ok(());
    }
    out.reserve_exact(value.tls_serialized_len())
}
