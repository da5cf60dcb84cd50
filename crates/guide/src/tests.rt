// What no contract says: that the calls succeed, over a source that ends anywhere within the message.
use crate::aad::PrivateContentAad;
use crate::chained::Chained;
use crate::rewrite::rewrite;
use std::test::Fail;
use tls_codec::{Deserialize, Error, Serialize, Size, VLBytes};

#[test]
fn an_extension_is_rewritten(rt: HostRuntime) -> Result<(), Fail> {
    let alloc = rt.alloc();
    let bytes = [0, 1, 3, 0x61, 0x62, 0x63, 0xee];
    for at in 0..bytes.len() {
        let (first, second) = bytes.split_at(at);
        let mut out = Vec::new(alloc);
        assert_eq!(rt;
            rewrite(alloc, &mut Chained::new(first, second), &mut out),
            Ok(6)
        );
        assert_eq!(rt; out.as_slice(), [0, 1, 3, 0x61, 0x62, 0x63].as_slice());
        let mut out = Vec::new(alloc);
        let cut_off = if at < 6 {
            Err(Error::EndOfStream)
        } else {
            Ok(6)
        };
        assert_eq!(rt;
            rewrite(alloc, &mut Chained::new(first, &[]), &mut out),
            cut_off
        );
    }
    Ok(())
}

#[test]
fn four_fields_in_a_row(rt: HostRuntime) -> Result<(), Fail> {
    let alloc = rt.alloc();
    let aad = PrivateContentAad {
        group_id: VLBytes::from_array(alloc, &[0x0a, 0x14])?,
        epoch: 5,
        content_type: 1,
        authenticated_data: VLBytes::from_array(alloc, &[])?,
    };
    let bytes = [2, 0x0a, 0x14, 0, 0, 0, 0, 0, 0, 0, 5, 1, 0];
    assert_eq!(rt; aad.tls_serialized_len(), bytes.len());
    assert_eq!(rt;
        aad.tls_serialize_detached(alloc)?.as_slice(),
        bytes.as_slice()
    );
    let read = PrivateContentAad::tls_deserialize_exact(alloc, &bytes)?;
    assert_eq!(rt; read.group_id.as_slice(), [0x0a, 0x14].as_slice());
    assert_eq!(rt; read.epoch, 5);
    assert_eq!(rt; read.content_type, 1);
    assert_eq!(rt; read.authenticated_data.as_slice(), [].as_slice());
    Ok(())
}
