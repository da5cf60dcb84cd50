//! What an iterator gives, as a list.
ghost use Rattle.std.specs.Prelude.{◌≡◌, IfErr, IfOk};
ghost use Rattle.std.specs.Iterator.{Drains, IsFiniteIterable};
ghost use Rattle.tls_codec_wire.specs.declared.error.Error.TheVariants.{OutOfMemory};

use std::alloc::Global;
use tls_codec_wire::Error;

/// The elements that an iterator gives, in its order. It has to end.
///
/// They are pushed one by one. No room is requested by the iterator's hint: if such an allocation
/// fails, std goes on. `OutOfMemory`: there was no memory for them, and those that it gave are
/// dropped.
pub fn collected<T: Drop, I: IntoIterator<Item = T>>(
    alloc: Global,
    iter: I,
) -> Result<Vec<T>, Error>
    requires ends { IsFiniteIterable I.into_iter_gives I.IntoIter.can_next I.IntoIter.remaining
        iter }
    ensures ok { IfOk result
        (λ vec. (it : I.IntoIter)
        × I.into_iter_gives iter it
        × Drains I.IntoIter.next_gives it vec.items) }
    ensures err { IfErr result (λ e. e ≡ OutOfMemory) }
{
    let mut vec = Vec::new(alloc);
    for element in iter {
        vec.push(element)?;
    }
    Ok(vec)
}
