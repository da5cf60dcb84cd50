//! What is signed of a message, written from parts by hand.
use mls_signed::framed_content_tbs;
use tls_codec_outcome::Outcome;

// An application message of two bytes, from the member at leaf 2.
const CONTENT: [u8; 21] = [
    0x01, 0xfa, 0, 0, 0, 0, 0, 0, 0, 7, 1, 0, 0, 0, 2, 0x01, 0xfb, 1, 0x02, 0xd1, 0xd2,
];

const CONTEXT: [u8; 19] = [
    0, 1, 0, 1, 0x01, 0xfa, 0, 0, 0, 0, 0, 0, 0, 7, 0x01, 0xc1, 0x01, 0xc2, 0,
];

// The version, the wire format of a private message, the content and the context, with two bytes of the buffer after them.
const SIGNED: [u8; 46] = [
    0, 1, 0, 2, 0x01, 0xfa, 0, 0, 0, 0, 0, 0, 0, 7, 1, 0, 0, 0, 2, 0x01, 0xfb, 1, 0x02, 0xd1, 0xd2,
    0, 1, 0, 1, 0x01, 0xfa, 0, 0, 0, 0, 0, 0, 0, 7, 0x01, 0xc1, 0x01, 0xc2, 0, 0xa5, 0xa5,
];

#[test]
fn what_a_member_signs(rt: HostRuntime) {
    let mut out = [0xa5u8; 46];
    let outcome = framed_content_tbs(2, &CONTENT, &CONTEXT, &mut out);
    let accepted = Outcome {
        status: 0,
        taken: 44,
        at: 0,
        detail: 0,
    };
    assert_eq!(rt; outcome, Some(accepted));
    assert_eq!(rt; out, SIGNED);
}

#[test]
fn too_little_room_is_left_alone(rt: HostRuntime) {
    let mut out = [0xa5u8; 43];
    let outcome = framed_content_tbs(2, &CONTENT, &CONTEXT, &mut out);
    assert_eq!(rt; outcome, None);
    assert_eq!(rt; out, [0xa5; 43]);
}
