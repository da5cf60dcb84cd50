//! The run `resume`: a ticket of the run `seed`, with early data.
use crate::tests::captured::Row;

pub(in crate::tests) static ROWS: [Row; 7] = [
    Row {
        name: "resume-01-c-ClientHello",
        digits: &[
            "0100014d0303baea664e3f036232cacc88adae33c1a969daffdfdce4a8eb8c493bb5c485cdf420d7",
            "3a50e11b0186af97417fd704c540f79f7e76c1fe5362bdb40223ac4c28032d000813021303130100",
            "ff010000fc0000000e000c0000096c6f63616c686f7374000b000403000102000a00160014001d00",
            "17001e0019001801000101010201030104002300000016000000170000000d001e001c0403050306",
            "03080708080809080a080b080408050806040105010601002b0003020304002d0002010100330026",
            "0024001d0020f08cf9ed20448b55281a846a6ad1a5ef93f4419058645625d2d68271305a031b002a",
            "00000029005b00260020772edea700b08ac6d09863040befb6792bbad6f3598b99236bc2fa61049e",
            "e6a24959c72400313069b732c6ab5e9df9a4d0c73d3d00d92ec5b9ed467e5d78e2775c48c094e4d6",
            "7f059b900350fd40df34fcb369b01b15c2",
        ],
        extensions: &[0, 11, 10, 35, 22, 23, 13, 43, 45, 51, 42, 41],
        opened: &[10, 13, 43, 45, 51, 42, 41],
    },
    Row {
        name: "resume-02-s-ServerHello",
        digits: &[
            "0200007c03038273bb9e86f737bb597e07502273ceeef60efbf1e8c5f16413da351e52fbd81920d7",
            "3a50e11b0186af97417fd704c540f79f7e76c1fe5362bdb40223ac4c28032d1302000034002b0002",
            "030400330024001d0020859518dc1915817c04a4acfffd1f9cce90e7dfe9c3e8e6d068f04aba2ba1",
            "691e002900020000",
        ],
        extensions: &[43, 51, 41],
        opened: &[43, 51, 41],
    },
    Row {
        name: "resume-03-s-EncryptedExtensions",
        digits: &["080000060004002a0000"],
        extensions: &[42],
        opened: &[42],
    },
    Row {
        name: "resume-04-s-Finished",
        digits: &[
            "140000303b49085ac29684157c275f3c7c672530e731523b7515573b6d1aee8aec8b643417b3c06b",
            "7261731d519845f2683a3358",
        ],
        extensions: &[],
        opened: &[],
    },
    Row {
        name: "resume-05-c-EndOfEarlyData",
        digits: &["05000000"],
        extensions: &[],
        opened: &[],
    },
    Row {
        name: "resume-06-c-Finished",
        digits: &[
            "14000030f31f994c8c574812399be6671bcd76d6d276a9032011991728d1109d26ee8e292271ab32",
            "260005f09e0d01863669eff7",
        ],
        extensions: &[],
        opened: &[],
    },
    Row {
        name: "resume-07-s-NewSessionTicket",
        digits: &[
            "0400003d00001c204474439d0800000000000000000020991271f1df42146b58986f9aea658700fa",
            "3c713eef61b8880dd3e4d9613709710008002a0004000003e8",
        ],
        extensions: &[42],
        opened: &[42],
    },
];
