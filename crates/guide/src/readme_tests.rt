// README's first lines of code: what they print and assert.
use std::test::Fail;
use tls_codec::{Deserialize, DeserializeBytes, Error, Serialize, TlsVecU16, VLBytes};

#[test]
fn first_lines_of_the_readme(rt: HostRuntime) -> Result<(), Fail> {
    let alloc = rt.alloc();
    // a list after a length of two bytes
    let suites = TlsVecU16::from_slice(alloc, &[0x1301u16, 0x1302])?;
    let bytes = suites.tls_serialize_detached(alloc)?; // 00 04 13 01 13 02
    assert_eq!(rt; bytes.as_slice(), [0, 4, 0x13, 1, 0x13, 2].as_slice());

    // from a slice, with the rest of it, and from any source of bytes
    let (list, rest) = <TlsVecU16<u16>>::tls_deserialize_bytes(alloc, bytes.as_slice())?;
    assert!(rt; rest.is_empty());
    for suite in list.iter() {
        println!(rt; "{suite}")?; // 4865, then 4866
    }
    let mut source = bytes.as_slice();
    let same = <TlsVecU16<u16>>::tls_deserialize(alloc, &mut source)?;
    assert!(rt; same == list);

    // one byte too many, and a length that isn't canonical
    let exact = <(u8, u16)>::tls_deserialize_exact_bytes(alloc, &[5, 0, 7, 9]);
    assert_eq!(rt; exact, Err(Error::TrailingData));
    let wide = VLBytes::tls_deserialize_exact_bytes(alloc, &[0x40, 1, 0xaa]);
    assert_eq!(rt; wide, Err(Error::InvalidVectorLength));
    Ok(())
}
