// What no contract says: which extension is found.
use crate::border::find;
use tls_codec::Error;

// Two extensions: type 1 with a byte, type 2 with two (RFC 9420, section 7.2).
static LIST: [u8; 10] = [9, 0, 1, 1, 0xaa, 0, 2, 2, 0xbb, 0xcc];

#[test]
fn an_extension_is_found(rt: HostRuntime) {
    assert_eq!(rt; find(&LIST, 2), Ok(Some([0xbbu8, 0xcc].as_slice())));
    assert_eq!(rt; find(&LIST, 3), Ok(None));
}

#[test]
fn the_place_of_what_is_rejected(rt: HostRuntime) {
    let cut = [8, 0, 1, 1, 0xaa, 0, 2, 2, 0xbb];
    let Err(rejected) = find(&cut, 2) else {
        panic!(rt; "an extension was found");
    };
    assert_eq!(rt;
        rejected.error,
        Error::DecodingError("declared content is not there")
    );
    assert_eq!(rt; rejected.at(&cut), 7);
}
