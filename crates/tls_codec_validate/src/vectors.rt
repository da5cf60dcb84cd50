//! Lists after a length field, whatever the field.
ghost use Rattle.tls_codec_grammar.specs.Field.{variable_field};
ghost use Rattle.tls_codec_validate.specs.Places.{counted_list_places};

use crate::elements::skip_list;
use crate::rejected::Rejected;
use crate::traits::Validate;
use tls_codec_base::LengthField;
use tls_codec_secret::SecretTlsVec;
use tls_codec_vec::TlsVec;
use tls_codec_vl::Zeroize;
use tls_codec_wire::TlsVarInt;

impl<T: Validate> Validate for Vec<T> {
    ghost places = { counted_list_places variable_field T.format T.places };

    fn tls_validate_prefix(bytes: &[u8]) -> Result<&[u8], Rejected<'_>> {
        skip_list::<TlsVarInt, T>(bytes)
    }
}

impl<F: LengthField, T: Validate> Validate for TlsVec<F, T> {
    ghost places = { counted_list_places F.field T.format T.places };

    fn tls_validate_prefix(bytes: &[u8]) -> Result<&[u8], Rejected<'_>> {
        skip_list::<F, T>(bytes)
    }
}

impl<F: LengthField, T: Validate + Zeroize> Validate for SecretTlsVec<F, T> {
    ghost places = { counted_list_places F.field T.format T.places };

    fn tls_validate_prefix(bytes: &[u8]) -> Result<&[u8], Rejected<'_>> {
        skip_list::<F, T>(bytes)
    }
}
