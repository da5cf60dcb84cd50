//! A copy of a wrapper equals what it was made of.
//!
//! The functions do nothing. Their contracts state this, and so are proved.
ghost use Rattle.std.specs.Prelude.{◌≡◌, ◌↔◌};
ghost use Rattle.tls_codec_slice.specs.declared.bytes.TlsByteSliceU8.{TlsByteSliceU8};
ghost use Rattle.tls_codec_slice.specs.declared.bytes.TlsByteSliceU16.{TlsByteSliceU16};
ghost use Rattle.tls_codec_slice.specs.declared.bytes.TlsByteSliceU24.{TlsByteSliceU24};
ghost use Rattle.tls_codec_slice.specs.declared.bytes.TlsByteSliceU32.{TlsByteSliceU32};
ghost use Rattle.tls_codec_slice.specs.declared.elements.TlsSliceU8.{TlsSliceU8};
ghost use Rattle.tls_codec_slice.specs.declared.elements.TlsSliceU16.{TlsSliceU16};
ghost use Rattle.tls_codec_slice.specs.declared.elements.TlsSliceU24.{TlsSliceU24};
ghost use Rattle.tls_codec_slice.specs.declared.elements.TlsSliceU32.{TlsSliceU32};

use crate::{
    TlsByteSliceU8, TlsByteSliceU16, TlsByteSliceU24, TlsByteSliceU32, TlsSliceU8, TlsSliceU16,
    TlsSliceU24, TlsSliceU32,
};

/// A copy of a wrapper equals it.
pub fn copies_are_equal<'a, T: 'a>()
    ensures one { (v copy : TlsSliceU8 T)
        → ⟦<TlsSliceU8<'a, T> as Clone>⟧.is_clone v copy
        ↔ (copy ≡ v) }
    ensures two { (v copy : TlsSliceU16 T)
        → ⟦<TlsSliceU16<'a, T> as Clone>⟧.is_clone v copy
        ↔ (copy ≡ v) }
    ensures three { (v copy : TlsSliceU24 T)
        → ⟦<TlsSliceU24<'a, T> as Clone>⟧.is_clone v copy
        ↔ (copy ≡ v) }
    ensures four { (v copy : TlsSliceU32 T)
        → ⟦<TlsSliceU32<'a, T> as Clone>⟧.is_clone v copy
        ↔ (copy ≡ v) }
    ensures one_bytes { (v copy : TlsByteSliceU8)
        → ⟦<TlsByteSliceU8<'a> as Clone>⟧.is_clone v copy
        ↔ (copy ≡ v) }
    ensures two_bytes { (v copy : TlsByteSliceU16)
        → ⟦<TlsByteSliceU16<'a> as Clone>⟧.is_clone v copy
        ↔ (copy ≡ v) }
    ensures three_bytes { (v copy : TlsByteSliceU24)
        → ⟦<TlsByteSliceU24<'a> as Clone>⟧.is_clone v copy
        ↔ (copy ≡ v) }
    ensures four_bytes { (v copy : TlsByteSliceU32)
        → ⟦<TlsByteSliceU32<'a> as Clone>⟧.is_clone v copy
        ↔ (copy ≡ v) }
{}
