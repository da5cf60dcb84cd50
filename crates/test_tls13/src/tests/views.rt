//! A handshake message by its case, where it lies.

use tls_codec_views::Encoded;
use tls13::{Handshake, HandshakeView, KeyUpdateRequest, KeyUpdateView};

// A key update that asks for another (RFC 8446, section 4.6.3).
#[test]
fn what_fills_the_length_of_a_handshake(rt: HostRuntime) {
    let Ok(message) = Encoded::<Handshake>::new(&[24, 0, 0, 1, 1]) else {
        panic!(rt; "no handshake message");
    };
    let HandshakeView::KeyUpdate(body) = HandshakeView::from(message) else {
        panic!(rt; "no key update");
    };
    assert_eq!(rt; body.as_bytes(), [0u8, 0, 1, 1].as_slice());
    let update = KeyUpdateView::from(body.payload());
    assert_eq!(rt;
        update.request_update.get(),
        KeyUpdateRequest::UpdateRequested
    );
}
