//! What a caller's own contract says of a list, by the contracts of the calls.
ghost use Rattle.std.specs.Prelude.{◌≡◌, ◌<◌, ◌≤◌, nat_lt, filter, length, slice_set, IfOk};
ghost use Rattle.tls_codec.specs.Contents.{elements_of};

use crate::tests::same;
use std::alloc::Global;
use std::test::Fail;
use tls_codec::{Error, TlsVecU8, TlsVecU16, TlsVecU24, TlsVecU32};

fn widths() -> (usize, usize, usize, usize)
    ensures { result ≡ (1, 2, 3, 4) }
{
    (
        TlsVecU8::<u16>::len_len(),
        TlsVecU16::<u16>::len_len(),
        TlsVecU24::<u16>::len_len(),
        TlsVecU32::<u16>::len_len(),
    )
}

fn copied(alloc: Global, elements: &[u16]) -> Result<TlsVecU8<u16>, Error>
    ensures { IfOk result (λ v. elements_of v ≡ elements.now) }
{
    let list = TlsVecU8::from_slice(alloc, elements)?;
    list.clone()
}

fn put(list: &mut TlsVecU8<u16>, at: usize, element: u16)
    requires { at < length (elements_of list.old) }
    ensures { elements_of list.new ≡ slice_set (elements_of list.old) at element }
{
    list[at] = element;
}

fn keep_above(list: &mut TlsVecU8<u16>, least: u16)
    ensures { elements_of list.new
        ≡ filter (λ element. nat_lt least element) (elements_of list.old) }
{
    list.retain(|element| *element > least);
}

#[test]
fn callers_know_the_list(rt: HostRuntime) -> Result<(), Fail> {
    same(&rt, widths(), (1, 2, 3, 4));
    let mut list = copied(rt.alloc(), &[5, 6, 7])?;
    if list.len() > 1 {
        put(&mut list, 1, 1);
    }
    keep_above(&mut list, 5);
    same(&rt, list.as_slice(), [7].as_slice());
    Ok(())
}
