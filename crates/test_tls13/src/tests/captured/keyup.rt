//! The run `keyup`: nothing but what TLS 1.3 needs.
use crate::tests::captured::Row;

pub(in crate::tests) static ROWS: [Row; 9] = [
    Row {
        name: "keyup-01-c-ClientHello",
        digits: &[
            "010000d80303971f4a9885b33cfd662a6c68331e095c5b8b8bbeb8c1194934457aa7b189278620c2",
            "8f82fa2c64b11a4a0729ec51a9cd7003b67afaa05d2f1ed7865c653d19c4e3000813021303130100",
            "ff01000087000b000403000102000a00160014001d0017001e001900180100010101020103010400",
            "2300000016000000170000000d001e001c040305030603080708080809080a080b08040805080604",
            "0105010601002b0003020304002d00020101003300260024001d00209857be508c9ecc3ad6754eac",
            "970be21f490d371150e3e303bc51c6166b019c0e",
        ],
        extensions: &[11, 10, 35, 22, 23, 13, 43, 45, 51],
        opened: &[10, 13, 43, 45, 51],
    },
    Row {
        name: "keyup-02-s-ServerHello",
        digits: &[
            "020000760303efa74e09643e99439d2995209f4e33a4f104cebd0928829c5f0263c1847a0e7e20c2",
            "8f82fa2c64b11a4a0729ec51a9cd7003b67afaa05d2f1ed7865c653d19c4e3130200002e002b0002",
            "030400330024001d00209a1df130f9528bf3950ab34b050bde8449ef027f06b185e2aa597d4a5af4",
            "e234",
        ],
        extensions: &[43, 51],
        opened: &[43, 51],
    },
    Row {
        name: "keyup-03-s-EncryptedExtensions",
        digits: &["080000020000"],
        extensions: &[],
        opened: &[],
    },
    Row {
        name: "keyup-04-s-Certificate",
        digits: &[
            "0b00018b000001870001823082017e30820123a0030201020214553cb1f34f259ca2bf3947872be2",
            "a96126c7f21f300a06082a8648ce3d04030230143112301006035504030c096c6f63616c686f7374",
            "301e170d3236313132373039303535335a170d3236313232373039303535335a3014311230100603",
            "5504030c096c6f63616c686f73743059301306072a8648ce3d020106082a8648ce3d030107034200",
            "041cde6e534939bc54551452e387a7e9c42c621a4d9da85d9eac4479e0c52a2a950a05574d4aebcd",
            "68343b47454335c23ad6db4a79c7a3ec90697dc79ca8e53556a3533051301d0603551d0e04160414",
            "ddde1c84a4e71c35ab7a15772b2d4600bf4c6441301f0603551d23041830168014ddde1c84a4e71c",
            "35ab7a15772b2d4600bf4c6441300f0603551d130101ff040530030101ff300a06082a8648ce3d04",
            "03020349003046022100dfba4f3658fdbc5a6bf11daa2b22b0ca3d49ff6762f8262f4d4845b2271e",
            "92190221009abc6a29b82a2e8d55a8ba00c0c299030248dd1ac3264aa015356a730564ad6f0000",
        ],
        extensions: &[],
        opened: &[],
    },
    Row {
        name: "keyup-05-s-CertificateVerify",
        digits: &[
            "0f00004c040300483046022100b0812229762e71e576cbdb306a1ecf662d92cef646908a21adf5dc",
            "4308949a18022100b579b2d7955bfd4817443736c829f5a18fc2fff33061040a9da091d37fb116ef",
        ],
        extensions: &[],
        opened: &[],
    },
    Row {
        name: "keyup-06-s-Finished",
        digits: &[
            "140000301816e701548669edb4216451cec4d01a340a48c1792bbb2b13224856d3574544c2f9db96",
            "ea0354282f485d543d2700f1",
        ],
        extensions: &[],
        opened: &[],
    },
    Row {
        name: "keyup-07-c-Finished",
        digits: &[
            "14000030059f4a4b7240e4f3946557136b923397af0aab210671bf58552292fb0277aeaee672e045",
            "98ccdf89d78b948fb03c49b0",
        ],
        extensions: &[],
        opened: &[],
    },
    Row {
        name: "keyup-08-s-NewSessionTicket",
        digits: &[
            "040000e500001c207633068c08000000000000000000d0d1d9f89aade4010c639c7426a04a009adb",
            "e9635daaf1adf27432821158ce9d11bc82592bca95ecac4e075a03576c8a212d70f6cf7ac102ad17",
            "17bf55367b111ccb5d204e5375bf67845085683df1ee5a02b5b24ced07d5bb4058e50c3317f47a6b",
            "f4c80bc6478a86245819c106cd8d8e1fe19ccd7788d054a8f7df26b6a76144d46510c06ee07aca2f",
            "f05bb6de52c44fcca8b645323a1d5a9575c380c71638cc2b50661c3993da7fa7588b170c32db0c8f",
            "5758905faa7c4b094168fc22ee4e5d3d2ed36d71dbf45a1455ccbe5ed0bf5b0000",
        ],
        extensions: &[],
        opened: &[],
    },
    Row {
        name: "keyup-09-s-NewSessionTicket",
        digits: &[
            "040000e500001c20cf8a611408000000000000000100d0d1d9f89aade4010c639c7426a04a009a8d",
            "95ba14b3ed5ff1dc42bb226745a93c77cd62486d78ec5ee667b562c93817a1bd9b421f89cec47a8e",
            "5030c920d89fea9d72addbd3742a57aa19394def03dc11ebecdef91fb9f03beb7ecd618c743b5f99",
            "946637c422e8990f169828fa6969765ecbb78467ef04f9751ad57fa166213a48e2fc46d4af6d27a2",
            "62a6f13c486778ec2e2af288dc47d08fc59b75c6d6097a83d3dbb7c31416cb8d39aa295dd9e35edf",
            "f91fbbaf78f8b99101ef36ca5a4d203e1c9124def088e5ed0a88a8e4c2db7b0000",
        ],
        extensions: &[],
        opened: &[],
    },
];
