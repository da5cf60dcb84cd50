//! What is read of an encoding where it lies.
ghost use Rattle.std.specs.Prelude.{IfOk};
ghost use Rattle.tls_codec_bench.specs.Calls.{IsEndOf};

use mls::{KeyPackage, PrivateMessage, PrivateMessageView, UpdatePath, Welcome};
use mls_group::{UpdatePathView, WelcomeView};
use mls_tree::KeyPackageView;
use tls_codec_base::LengthField;
use tls_codec_bytes::TlsByteVec;
use tls_codec_validate::{Rejected, Validate};
use tls_codec_vec::TlsVec;
use tls_codec_vectors::Log;
use tls_codec_views::Encoded;
use tls_codec_vl::VarBytes;

/// A type whose encoding is taken apart where it lies, one level deep.
pub trait InPlace: Validate {
    /// The last part of the encoding that the bytes are: what a length counts, or the last field of a message.
    fn last_part(bytes: &[u8]) -> Result<&[u8], Rejected<'_>>
        ensures { IfOk result (λ part. IsEndOf bytes.now part.now) };
}

impl<T: Validate> InPlace for Vec<T> {
    fn last_part(bytes: &[u8]) -> Result<&[u8], Rejected<'_>> {
        let encoded = Encoded::<Vec<T>>::new(bytes)?;
        Ok(encoded.elements().as_bytes())
    }
}

impl<F: LengthField, T: Validate> InPlace for TlsVec<F, T> {
    fn last_part(bytes: &[u8]) -> Result<&[u8], Rejected<'_>> {
        let encoded = Encoded::<TlsVec<F, T>>::new(bytes)?;
        Ok(encoded.elements().as_bytes())
    }
}

impl<N> InPlace for VarBytes<N> {
    fn last_part(bytes: &[u8]) -> Result<&[u8], Rejected<'_>> {
        let encoded = Encoded::<VarBytes<N>>::new(bytes)?;
        Ok(encoded.content())
    }
}

impl<F: LengthField> InPlace for TlsByteVec<F> {
    fn last_part(bytes: &[u8]) -> Result<&[u8], Rejected<'_>> {
        let encoded = Encoded::<TlsByteVec<F>>::new(bytes)?;
        Ok(encoded.content())
    }
}

impl InPlace for String {
    fn last_part(bytes: &[u8]) -> Result<&[u8], Rejected<'_>> {
        let encoded = Encoded::<String>::new(bytes)?;
        Ok(encoded.as_str().as_bytes())
    }
}

// It is written by hand and has no view: it is its last part.
impl InPlace for Log {
    fn last_part(bytes: &[u8]) -> Result<&[u8], Rejected<'_>> {
        let encoded = Encoded::<Log>::new(bytes)?;
        Ok(encoded.as_bytes())
    }
}

impl InPlace for KeyPackage {
    fn last_part(bytes: &[u8]) -> Result<&[u8], Rejected<'_>> {
        let encoded = Encoded::<KeyPackage>::new(bytes)?;
        Ok(KeyPackageView::from(encoded).signature.as_bytes())
    }
}

impl InPlace for Welcome {
    fn last_part(bytes: &[u8]) -> Result<&[u8], Rejected<'_>> {
        let encoded = Encoded::<Welcome>::new(bytes)?;
        Ok(WelcomeView::from(encoded).encrypted_group_info.as_bytes())
    }
}

impl InPlace for PrivateMessage {
    fn last_part(bytes: &[u8]) -> Result<&[u8], Rejected<'_>> {
        let encoded = Encoded::<PrivateMessage>::new(bytes)?;
        Ok(PrivateMessageView::from(encoded).ciphertext.as_bytes())
    }
}

impl InPlace for UpdatePath {
    fn last_part(bytes: &[u8]) -> Result<&[u8], Rejected<'_>> {
        let encoded = Encoded::<UpdatePath>::new(bytes)?;
        Ok(UpdatePathView::from(encoded).nodes.as_bytes())
    }
}
