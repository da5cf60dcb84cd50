//! A check at a border: bytes from outside are validated in place, before memory is requested.
ghost use Rattle.tls_codec.specs.OwnMessages.{bytes_format, list_format, number_format, pair_format};
ghost use Rattle.tls_codec_validate.specs.Validated.{ValidatesWhole};

use tls_codec::VLBytes;
use tls_codec_validate::Rejected;
use tls_codec_views::Encoded;

/// The data of the first extension of a type, if all of the bytes are a list of extensions of MLS and one has the type.
pub fn find(bytes: &[u8], wanted: u16) -> Result<Option<&[u8]>, Rejected<'_>>
    ensures { ValidatesWhole (list_format (pair_format (number_format 2) bytes_format)) bytes.now
        result }
{
    let list = Encoded::<Vec<(u16, VLBytes)>>::new(bytes)?;
    for extension in list.elements() {
        let (extension_type, data) = extension.split();
        if extension_type.get() == wanted {
            return Ok(Some(data.content()));
        }
    }
    Ok(None)
}
