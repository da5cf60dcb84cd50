//! The run `basic`: ALPN, and a status request that no one answers.
use crate::tests::captured::Row;

pub(in crate::tests) static ROWS: [Row; 9] = [
    Row {
        name: "basic-01-c-ClientHello",
        digits: &[
            "01000105030380a2470e494c5b9409b8c2ba908cbf06342e7fa2a5094ba26a9557809045f5b32011",
            "d2d23c10c4531ac099a6d86f4fdf97bb4c4a4b1472a7fd14c5fba4f19deea9000813021303130100",
            "ff010000b40000000e000c0000096c6f63616c686f7374000b000403000102000a00160014001d00",
            "17001e0019001801000101010201030104002300000005000501000000000010000e000c02683208",
            "687474702f312e310016000000170000000d001e001c040305030603080708080809080a080b0804",
            "08050806040105010601002b0003020304002d00020101003300260024001d0020828d284cfe3907",
            "81b98eefce9e578a754df68ab34afa60b1eca9515097a8a328",
        ],
        extensions: &[0, 11, 10, 35, 5, 16, 22, 23, 13, 43, 45, 51],
        opened: &[10, 13, 43, 45, 51],
    },
    Row {
        name: "basic-02-s-ServerHello",
        digits: &[
            "02000076030382dc30b5b4b6bc59f81fc56d90e1b7cba9afb2ec71711e95bb7ae64dfec957172011",
            "d2d23c10c4531ac099a6d86f4fdf97bb4c4a4b1472a7fd14c5fba4f19deea9130200002e002b0002",
            "030400330024001d0020a2e0dfb755df4d527a801923c48d6640d5027e81eb05f092754ba7d1f3f6",
            "bb6e",
        ],
        extensions: &[43, 51],
        opened: &[43, 51],
    },
    Row {
        name: "basic-03-s-EncryptedExtensions",
        digits: &["0800000b0009001000050003026832"],
        extensions: &[16],
        opened: &[],
    },
    Row {
        name: "basic-04-s-Certificate",
        digits: &[
            "0b00018b000001870001823082017e30820123a0030201020214553cb1f34f259ca2bf3947872be2",
            "a96126c7f21f300a06082a8648ce3d04030230143112301006035504030c096c6f63616c686f7374",
            "301e170d3236313132373039303535335a170d3236313232373039303535335a3014311230100603",
            "5504030c096c6f63616c686f73743059301306072a8648ce3d020106082a8648ce3d030107034200",
            "041cde6e534939bc54551452e387a7e9c42c621a4d9da85d9eac4479e0c52a2a950a05574d4aebcd",
            "68343b47454335c23ad6db4a79c7a3ec90697dc79ca8e53556a3533051301d0603551d0e04160414",
            "ddde1c84a4e71c35ab7a15772b2d4600bf4c6441301f0603551d23041830168014ddde1c84a4e71c",
            "35ab7a15772b2d4600bf4c6441300f0603551d130101ff040530030101ff300a06082a8648ce3d04",
            "03020349003046022100dfba4f3658fdbc5a6bf11daa2b22b0ca3d49ff6762f8262f4d4845b2271e",
            "92190221009abc6a29b82a2e8d55a8ba00c0c299030248dd1ac3264aa015356a730564ad6f0000",
        ],
        extensions: &[],
        opened: &[],
    },
    Row {
        name: "basic-05-s-CertificateVerify",
        digits: &[
            "0f00004a040300463044022015c26a1a3cc067babf952e96f49c7f74a7ec40e909a24abbb7ac8052",
            "6dc1afe002206a0632eadc2ff1c1cd849d224c7dae0944e0771aa76701785a3fff0250a9ccf6",
        ],
        extensions: &[],
        opened: &[],
    },
    Row {
        name: "basic-06-s-Finished",
        digits: &[
            "14000030ad7c2aa072d4539f147397cdcd751040f94ecdd9bc3727334a52cc15ff5c8dd93f0fa7b3",
            "5d9b48c019a740eab862f1a1",
        ],
        extensions: &[],
        opened: &[],
    },
    Row {
        name: "basic-07-c-Finished",
        digits: &[
            "14000030f332de87c96b0cfcf9a8e21021c558f255216aa717f418478accbc4d2133b6f0271e1468",
            "b8278634eede0b068c0d9ee7",
        ],
        extensions: &[],
        opened: &[],
    },
    Row {
        name: "basic-08-s-NewSessionTicket",
        digits: &[
            "040000e500001c204e5b8dd408000000000000000000d0f27df24c2bac21715bee6219aa2bc5364c",
            "e6ab20b71abb579efd1b28f8ce51ca9e015cf2431be8c42d4d5979ec2cc51757ead5e3d71ac69445",
            "045fc3003bee72d233c2784416a2cab4e3348cf3cdaa70c16f8ae777548124033ad5ed5cc96a5a02",
            "3d813bc3c2aae427199610753b4d1154fbce16f5064d0c0cc6fedf41f84262e605fe2a0fe2548f8f",
            "b935802c83b4cc32ce811e1bb49e2b90875ae3d6a922151ba6272876fd1d5d4b826997e1ea38b108",
            "8b6f53c9148e791f4372d864485c5b45d69dcc7be66fa862365058d79ff3510000",
        ],
        extensions: &[],
        opened: &[],
    },
    Row {
        name: "basic-09-s-NewSessionTicket",
        digits: &[
            "040000e500001c2018d0e88508000000000000000100d0f27df24c2bac21715bee6219aa2bc53610",
            "200b66990e2c5751e857ce2d6f2fd753d2cb7f7fd136e8465c5bc495daad489238400de988675c5f",
            "36b80ebefd0f79972fbdbe3b2fe77dcc3cdb6af5843e1e5c9dcb1302a2995f1827af06c953840595",
            "b0440710ad2ca88e54fc0535cffe037c169f51e74746c37d100fcac8d6c9019eca0fc074227a8221",
            "cffa92407c03cd187a521b62c90d83fb89251aaf5fd070978172b4658c2a2b7aa32d7dfbc811baf6",
            "0d06a3f7c5c8e102591c4fb8260e2f3332f118fc93d39ab7052bfcd96d28cd0000",
        ],
        extensions: &[],
        opened: &[],
    },
];
