//! The run `tls12`: TLS 1.2 on both sides.
use crate::tests::captured::{Rejected, Row};
use tls_codec::Error;

pub(in crate::tests) static ROWS: [Row; 4] = [
    Row {
        name: "tls12-01-c-ClientHello",
        digits: &[
            "010000c503030e3c72f7e6d41eac74f889ef04d9683e2013d7084d11ac924ccdbe22b52c7acb0000",
            "38c02cc030009fcca9cca8ccaac02bc02f009ec024c028006bc023c0270067c00ac0140039c009c0",
            "130033009d009c003d003c0035002f00ff010000640000000e000c0000096c6f63616c686f737400",
            "0b000403000102000a000c000a001d0017001e00190018002300000016000000170000000d002a00",
            "28040305030603080708080809080a080b0804080508060401050106010303030103020402050206",
            "02",
        ],
        extensions: &[0, 11, 10, 35, 22, 23, 13],
        opened: &[10, 13],
    },
    Row {
        name: "tls12-02-s-ServerHello",
        digits: &[
            "0200003d0303b4f788564fda743c87507def9171823ff89e09b19363e76d5ad5db0f530bba5500c0",
            "2c000015ff01000100000b0004030001020023000000170000",
        ],
        extensions: &[65281, 11, 35, 23],
        opened: &[],
    },
    Row {
        name: "tls12-07-c-Finished",
        digits: &["1400000cc50b74fc886c2690d9170607"],
        extensions: &[],
        opened: &[],
    },
    Row {
        name: "tls12-09-s-Finished",
        digits: &["1400000caadb77cb7720c29bf47839ed"],
        extensions: &[],
        opened: &[],
    },
];

// Read as TLS 1.3's, the certificate begins with a list of 99,584 bytes: 388 of them are there. The
// ticket has a nonce of 86 bytes and then 8,839 bytes: 85 of these are there. The other types are
// reserved.
pub(in crate::tests) static REJECTED: [Rejected; 5] = [
    Rejected {
        name: "tls12-03-s-Certificate",
        digits: &[
            "0b0001880001850001823082017e30820123a0030201020214553cb1f34f259ca2bf3947872be2a9",
            "6126c7f21f300a06082a8648ce3d04030230143112301006035504030c096c6f63616c686f737430",
            "1e170d3236313132373039303535335a170d3236313232373039303535335a301431123010060355",
            "04030c096c6f63616c686f73743059301306072a8648ce3d020106082a8648ce3d03010703420004",
            "1cde6e534939bc54551452e387a7e9c42c621a4d9da85d9eac4479e0c52a2a950a05574d4aebcd68",
            "343b47454335c23ad6db4a79c7a3ec90697dc79ca8e53556a3533051301d0603551d0e04160414dd",
            "de1c84a4e71c35ab7a15772b2d4600bf4c6441301f0603551d23041830168014ddde1c84a4e71c35",
            "ab7a15772b2d4600bf4c6441300f0603551d130101ff040530030101ff300a06082a8648ce3d0403",
            "020349003046022100dfba4f3658fdbc5a6bf11daa2b22b0ca3d49ff6762f8262f4d4845b2271e92",
            "190221009abc6a29b82a2e8d55a8ba00c0c299030248dd1ac3264aa015356a730564ad6f",
        ],
        error: Error::EndOfStream,
    },
    Rejected {
        name: "tls12-04-s-ServerKeyExchange",
        digits: &[
            "0c00006f03001d20756efdbace6344f3e0bcd43017ec6ed8739a6d1475d54555d3c537266ca9c026",
            "04030047304502210094f106cc7dca57cb297ae4b2ba6d059a5d9135177280b682381b2a2f6b49cc",
            "7b02206462c718462b3f24341527e3e17f9ce78f481b01b4deaffc195e3a5f24c6cb98",
        ],
        error: Error::UnknownValue(12),
    },
    Rejected {
        name: "tls12-05-s-ServerHelloDone",
        digits: &["0e000000"],
        error: Error::UnknownValue(14),
    },
    Rejected {
        name: "tls12-06-c-ClientKeyExchange",
        digits: &["10000021205d7092d6b6f899399de5d9bfdf737915aa6499fcabb4d1e18f40266020925b08"],
        error: Error::UnknownValue(16),
    },
    Rejected {
        name: "tls12-08-s-NewSessionTicket",
        digits: &[
            "040000b600001c2000b051b4567473bddc16f27ed72e9a8f52629becc3c7a5f1b059cdb8d9a2ae2b",
            "66e686ae6c524809f4b2a59a4567f43d7388d0e4858b0fa5c6ff679f8e006cba43eb1690462d064e",
            "bab4aab4da94eae048ded858b5b07a6b4fd9d022877dd5e78819877f5060eb71a91e1cabe74d06da",
            "06e266a25520f8f0ae9223922ea27ea18335f34891fb5fc400fdb95978b1000484d63456db9707be",
            "095047bb5226b2f5865da3a703dd5b9430b98d47779a0cf2da5e",
        ],
        error: Error::EndOfStream,
    },
];
