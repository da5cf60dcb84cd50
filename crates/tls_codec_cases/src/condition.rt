//! [`Is`] and [`AnyOf`]: what is there for some values of a tag alone, as
//! `case commit: MAC confirmation_tag;` of RFC 9420, section 6.1. As `When<Is<3>, T>` it is
//! optional, and no byte shows whether it is there.
ghost use Rattle.std.specs.Prelude.{◌==◌, ◌||◌};

use crate::chosen::Selector;
use std::marker::PhantomData;
use tls_codec_base::{Condition, Size};

/// The tag is this number.
#[derive(Drop)]
pub struct Is<const TAG: u64>;

impl<K: Selector, const TAG: u64> Condition<K> for Is<TAG> {
    ghost holds = { λ c. K.selected c == TAG };

    #[inline(always)]
    fn test(context: &K) -> bool {
        context.selects() == TAG
    }
}

/// One of two conditions holds.
#[derive(Drop)]
pub struct AnyOf<A, B>(PhantomData<(A, B)>);

impl<K: Size, A: Condition<K>, B: Condition<K>> Condition<K> for AnyOf<A, B> {
    ghost holds = { λ c. A.holds c || B.holds c };

    #[inline(always)]
    fn test(context: &K) -> bool {
        A::test(context) || B::test(context)
    }
}
