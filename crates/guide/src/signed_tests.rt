// The message with a part that its content type decides, read and written.
use crate::auth_data::AuthData;
use crate::signed::Signed;
use std::test::Fail;
use tls_codec::{Deserialize, DeserializeFor, Error, Serialize, VLBytes};

#[test]
fn a_content_type_decides_what_signs(rt: HostRuntime) -> Result<(), Fail> {
    let alloc = rt.alloc();
    let mut signed = Signed {
        content_type: 3,
        data: VLBytes::from_array(alloc, &[0x61])?,
        auth: AuthData {
            signature: VLBytes::from_array(alloc, &[9, 9])?,
            confirmation_tag: Some(VLBytes::from_array(alloc, &[7])?),
        },
    };
    let bytes = [3, 1, 0x61, 2, 9, 9, 1, 7];
    assert_eq!(rt;
        signed.tls_serialize_detached(alloc)?.as_slice(),
        bytes.as_slice()
    );
    let again = Signed::tls_deserialize_exact(alloc, &bytes)?;
    assert_eq!(rt; again.auth.confirmation_tag, signed.auth.confirmation_tag);
    let auth = AuthData::tls_deserialize_exact_for(&1, alloc, &bytes[3..6])?;
    assert_eq!(rt; auth.confirmation_tag, None);
    signed.content_type = 1;
    assert_eq!(rt;
        signed.tls_serialize_detached(alloc).err(),
        Some(Error::EncodingError("value does not fit its context"))
    );
    Ok(())
}
