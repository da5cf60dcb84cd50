//! `String`: bytes after their length that are UTF-8.
ghost use Rattle.tls_codec_validate.specs.Places.{here};

use crate::rejected::Rejected;
use crate::traits::Validate;
use tls_codec_base::error_texts::INVALID_UTF8;
use tls_codec_base::{DeserializeBytes, opaque};
use tls_codec_wire::TlsVarInt;

impl Validate for String {
    ghost places = { here ⟦<String as DeserializeBytes>⟧.names };

    fn tls_validate_prefix(bytes: &[u8]) -> Result<&[u8], Rejected<'_>> {
        let (content, rest) = match opaque::split::<TlsVarInt>(bytes) {
            Ok(found) => found,
            Err(error) => return Err(Rejected { error, rest: bytes }),
        };
        let Ok(_text) = std::str::from_utf8(content) else {
            return Err(Rejected {
                error: INVALID_UTF8,
                rest: bytes,
            });
        };
        Ok(rest)
    }
}
