//! The run `hrr`: `hrr-02` is a HelloRetryRequest.
use crate::tests::captured::Row;

pub(in crate::tests) static ROWS: [Row; 11] = [
    Row {
        name: "hrr-01-c-ClientHello",
        digits: &[
            "010000da030364c213d568eb837ad35c768c3d13142ceb076203093cdf10ba448aa55c2c3dbe201b",
            "7399b7dc543ceec26e126121a88eee7a854edf6f94b4a1a83b21ee1f81d907000813021303130100",
            "ff010000890000000e000c0000096c6f63616c686f7374000b000403000102000a00060004001d00",
            "18002300000016000000170000000d001e001c040305030603080708080809080a080b0804080508",
            "06040105010601002b0003020304002d00020101003300260024001d0020161b06f6077ee01c9b8a",
            "e36c208938b1bc86737f5e83ad9d60939f9a7284e741",
        ],
        extensions: &[0, 11, 10, 35, 22, 23, 13, 43, 45, 51],
        opened: &[10, 13, 43, 45, 51],
    },
    Row {
        name: "hrr-02-s-ServerHello",
        digits: &[
            "020000540303cf21ad74e59a6111be1d8c021e65b891c2a211167abb8c5e079e09e2c8a8339c201b",
            "7399b7dc543ceec26e126121a88eee7a854edf6f94b4a1a83b21ee1f81d907130200000c002b0002",
            "0304003300020018",
        ],
        extensions: &[43, 51],
        opened: &[43, 51],
    },
    Row {
        name: "hrr-03-c-ClientHello",
        digits: &[
            "0100011b030364c213d568eb837ad35c768c3d13142ceb076203093cdf10ba448aa55c2c3dbe201b",
            "7399b7dc543ceec26e126121a88eee7a854edf6f94b4a1a83b21ee1f81d907000813021303130100",
            "ff010000ca0000000e000c0000096c6f63616c686f7374000b000403000102000a00060004001d00",
            "18002300000016000000170000000d001e001c040305030603080708080809080a080b0804080508",
            "06040105010601002b0003020304002d00020101003300670065001800610426f783818c6b47e015",
            "ab1a3f72d02c729abffcb3db848d0860a2b41a7a59e72b411ded93ce9d2a6415654504837fe863fb",
            "a6687fc80c0a1c0635f84beeac23d8ae8f48f215ab91e937295dae5a21b6b3252031ca8cddf0c72e",
            "5a1c877cdb9045",
        ],
        extensions: &[0, 11, 10, 35, 22, 23, 13, 43, 45, 51],
        opened: &[10, 13, 43, 45, 51],
    },
    Row {
        name: "hrr-04-s-ServerHello",
        digits: &[
            "020000b70303776bd68f91a82b0bd0dacea1d373a64c610d9a6a5b789544a2504aad46055dc6201b",
            "7399b7dc543ceec26e126121a88eee7a854edf6f94b4a1a83b21ee1f81d907130200006f002b0002",
            "0304003300650018006104a2d45d52b47656d77792a1a944615eec6165f2e7980d36811b56ffdd90",
            "64e862c4610da5c8107f86281c10a42dbecaffa81882ef556cd78d4e5407aa4ca3847d603915c90d",
            "993e0f5f73f7eec0f375f3d8debfed49d347fafbef73222935df2a",
        ],
        extensions: &[43, 51],
        opened: &[43, 51],
    },
    Row {
        name: "hrr-05-s-EncryptedExtensions",
        digits: &["080000020000"],
        extensions: &[],
        opened: &[],
    },
    Row {
        name: "hrr-06-s-Certificate",
        digits: &[
            "0b00018b000001870001823082017e30820123a0030201020214553cb1f34f259ca2bf3947872be2",
            "a96126c7f21f300a06082a8648ce3d04030230143112301006035504030c096c6f63616c686f7374",
            "301e170d3236313132373039303535335a170d3236313232373039303535335a3014311230100603",
            "5504030c096c6f63616c686f73743059301306072a8648ce3d020106082a8648ce3d030107034200",
            "041cde6e534939bc54551452e387a7e9c42c621a4d9da85d9eac4479e0c52a2a950a05574d4aebcd",
            "68343b47454335c23ad6db4a79c7a3ec90697dc79ca8e53556a3533051301d0603551d0e04160414",
            "ddde1c84a4e71c35ab7a15772b2d4600bf4c6441301f0603551d23041830168014ddde1c84a4e71c",
            "35ab7a15772b2d4600bf4c6441300f0603551d130101ff040530030101ff300a06082a8648ce3d04",
            "03020349003046022100dfba4f3658fdbc5a6bf11daa2b22b0ca3d49ff6762f8262f4d4845b2271e",
            "92190221009abc6a29b82a2e8d55a8ba00c0c299030248dd1ac3264aa015356a730564ad6f0000",
        ],
        extensions: &[],
        opened: &[],
    },
    Row {
        name: "hrr-07-s-CertificateVerify",
        digits: &[
            "0f00004a04030046304402203b2a2298ed3eb0d02de6b56a2749959f2b5214d050de2895d8ce560e",
            "8a75e1b5022075f362aa09ccfb6689c8f6d00c8f43994debd222516c55101af1c618bbcd133a",
        ],
        extensions: &[],
        opened: &[],
    },
    Row {
        name: "hrr-08-s-Finished",
        digits: &[
            "140000301121d000a8a57c12591804196a59e929b84feb179a617e2ba9930b9a6f52f896a5ee8e50",
            "0c4af08809af44411ec4a80f",
        ],
        extensions: &[],
        opened: &[],
    },
    Row {
        name: "hrr-09-c-Finished",
        digits: &[
            "14000030ba7b2e9b8e2f491ac59a2402c15da8cb5222231fa6cfc2889c5360bda8a6581e3bdcbdf1",
            "cb867ea49925629df51d0f2f",
        ],
        extensions: &[],
        opened: &[],
    },
    Row {
        name: "hrr-10-s-NewSessionTicket",
        digits: &[
            "040000e500001c2023531b0908000000000000000000d0351a95893c933c2616f794f6f29535dd7c",
            "2ae4ba8a5dcef1ca1f2658372ab14151478f3b896987b9c3e896b0af32fa3528ed1b96504946c2f2",
            "73376495ebe7031c40e5f5bd94eb296cdec051654c71e8789816a8f7c2c770523f0b00dd6961e5d9",
            "bf1606e5f9d5bd3b70750c8c844af693f4a737942476e103eda16a3ee57143968efb51b45ff9a01b",
            "49335e734de44890838c70179211433f5287e7e75f329ba27265d9c773513f793481dcb3b0de61d1",
            "bb23c0e436d583e8b53ec21ccbd12582c2fd51eca4c48b6ce6df81f1aa345e0000",
        ],
        extensions: &[],
        opened: &[],
    },
    Row {
        name: "hrr-11-s-NewSessionTicket",
        digits: &[
            "040000e500001c203409f24d08000000000000000100d0351a95893c933c2616f794f6f29535ddc9",
            "f1eb105a6b5731968f12402c989433b13ebc0deb626fc517f0f7bf9d95223e3a879705396de2e656",
            "be0ae56937039a7d6921eb78acdf0e44cb1aa4b9e005fda86c93039cde46599047f34a4fabbacc2f",
            "8541c03f050c9aace2458e7c1c0d2d304102243a185ffbb0a11a70d321dbde81cd32e1aa18e53611",
            "4e155abd580479d608cbe2db6487fd186ad70a407b14c7ea04e05ce088eb6f525293d64b750cb754",
            "c83c41d0d293806c631dc5796ffe261bd613d51a25d52d8bbb1743354085a40000",
        ],
        extensions: &[],
        opened: &[],
    },
];
