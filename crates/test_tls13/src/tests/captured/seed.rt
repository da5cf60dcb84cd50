//! The run `seed`: tickets that allow early data.
use crate::tests::captured::Row;

pub(in crate::tests) static ROWS: [Row; 9] = [
    Row {
        name: "seed-01-c-ClientHello",
        digits: &[
            "010000ea0303a377354d05ea6db5ce53f95e030edc2a3a613786e7063f37bce2585ad29cbaa3201a",
            "6c48aa8931173eb0048d2d168dd9088cb525f9808deeb73b3df6e677b7c3b8000813021303130100",
            "ff010000990000000e000c0000096c6f63616c686f7374000b000403000102000a00160014001d00",
            "17001e0019001801000101010201030104002300000016000000170000000d001e001c0403050306",
            "03080708080809080a080b080408050806040105010601002b0003020304002d0002010100330026",
            "0024001d002057525720a7ca56c57575978a3549965c0e4b9bd1896f3da25b64104a03b6cb2a",
        ],
        extensions: &[0, 11, 10, 35, 22, 23, 13, 43, 45, 51],
        opened: &[10, 13, 43, 45, 51],
    },
    Row {
        name: "seed-02-s-ServerHello",
        digits: &[
            "020000760303dbb4f4da69494cd1a9013dcc46bf8962eb451835215a4354d6bf074d7b274269201a",
            "6c48aa8931173eb0048d2d168dd9088cb525f9808deeb73b3df6e677b7c3b8130200002e002b0002",
            "030400330024001d002087a55100f0d4aac17f93c6fcc71115dab9aceb142e4c087fd8fc2732e83e",
            "c538",
        ],
        extensions: &[43, 51],
        opened: &[43, 51],
    },
    Row {
        name: "seed-03-s-EncryptedExtensions",
        digits: &["080000020000"],
        extensions: &[],
        opened: &[],
    },
    Row {
        name: "seed-04-s-Certificate",
        digits: &[
            "0b00018b000001870001823082017e30820123a0030201020214553cb1f34f259ca2bf3947872be2",
            "a96126c7f21f300a06082a8648ce3d04030230143112301006035504030c096c6f63616c686f7374",
            "301e170d3236313132373039303535335a170d3236313232373039303535335a3014311230100603",
            "5504030c096c6f63616c686f73743059301306072a8648ce3d020106082a8648ce3d030107034200",
            "041cde6e534939bc54551452e387a7e9c42c621a4d9da85d9eac4479e0c52a2a950a05574d4aebcd",
            "68343b47454335c23ad6db4a79c7a3ec90697dc79ca8e53556a3533051301d0603551d0e04160414",
            "ddde1c84a4e71c35ab7a15772b2d4600bf4c6441301f0603551d23041830168014ddde1c84a4e71c",
            "35ab7a15772b2d4600bf4c6441300f0603551d130101ff040530030101ff300a06082a8648ce3d04",
            "03020349003046022100dfba4f3658fdbc5a6bf11daa2b22b0ca3d49ff6762f8262f4d4845b2271e",
            "92190221009abc6a29b82a2e8d55a8ba00c0c299030248dd1ac3264aa015356a730564ad6f0000",
        ],
        extensions: &[],
        opened: &[],
    },
    Row {
        name: "seed-05-s-CertificateVerify",
        digits: &[
            "0f00004c040300483046022100d9e3f866f0294a5cb82b18b557aca65df6423619024c438d41ca2d",
            "a80dec8039022100acbd3244f16ceb0b1ab7ee7197c71053d4e7f90dd148c87269f036ddeb3b6b68",
        ],
        extensions: &[],
        opened: &[],
    },
    Row {
        name: "seed-06-s-Finished",
        digits: &[
            "14000030dd29b68aaad1b4c04c8f522ae51b808d63fbaa041ddea53deaf304a26482c212ae00e096",
            "136e741d621be1416232bcb6",
        ],
        extensions: &[],
        opened: &[],
    },
    Row {
        name: "seed-07-c-Finished",
        digits: &[
            "140000307ce4d2db11a04fc70e79cb338d65cd6fd32ba2be1e3911bb545b6026924ce236cd208ff0",
            "92339a5d9fca3cb6d13e5728",
        ],
        extensions: &[],
        opened: &[],
    },
    Row {
        name: "seed-08-s-NewSessionTicket",
        digits: &[
            "0400003d00001c20a626ab9f0800000000000000000020dc38a3ada13396ced927c1bf1951f03593",
            "a01b43e89910838037bb70f1cd06770008002a0004000003e8",
        ],
        extensions: &[42],
        opened: &[42],
    },
    Row {
        name: "seed-09-s-NewSessionTicket",
        digits: &[
            "0400003d00001c205951f35e0800000000000000010020ac165b67102f7d6e16db65a88f4c7f6630",
            "ed23958bae2c95c0c1b47b9b1868c10008002a0004000003e8",
        ],
        extensions: &[42],
        opened: &[42],
    },
];
