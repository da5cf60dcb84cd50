//! Messages whose parts are on a tag in a field before them.
use crate::tests::{expect_does_not_fit, one_byte};
use messages_of_each_shape::{
    Bearer, BodyKind, BodyKindData, ByVersion, Carrier, Header, KindBody, NameType, NameTypeData,
    Named, Versioned,
};
use std::alloc::Global;
use std::test::Fail;
use test_support::each_call::{expect_encoded_as, expect_encoded_as_vl, expect_rejected};
use tls_codec::{Error, TlsVecU16, VLBytes};

fn chat(first: u8, code: u16) -> KindBody {
    KindBody {
        first,
        body: BodyKindData::Chat(code),
    }
}

fn carrier(alloc: Global, one: KindBody) -> Result<Carrier, Fail> {
    let many = Vec::from_array(alloc, [chat(3, 4), chat(5, 6)])?;
    Ok(Carrier {
        body_kind: BodyKind::Chat,
        one,
        count: 2,
        many: TlsVecU16::new(many),
        more: Vec::from_array(alloc, [chat(7, 8)])?,
    })
}

static CARRIER: [u8; 17] = [
    1, // body_kind: chat
    9, 1, 2, // one
    2, // count
    0, 6, 3, 0, 4, 5, 0, 6, // many
    3, 7, 0, 8, // more
];

// The tag itself decides a struct and two lists after it.
#[test]
fn a_tag_before_what_it_decides(rt: HostRuntime) -> Result<(), Fail> {
    let alloc = rt.alloc();
    let chats = carrier(alloc, chat(9, 0x0102))?;
    expect_encoded_as(alloc, "chats", &chats, &CARRIER)?;
    let file = KindBody {
        first: 9,
        body: BodyKindData::File(one_byte(alloc, 1)?),
    };
    expect_does_not_fit(&rt, alloc, &carrier(alloc, file)?);
    expect_rejected::<Carrier>(alloc, "3", &[3, 9], Error::UnknownValue(3))?;
    Ok(())
}

fn bearer(alloc: Global, number: u8, body: NameTypeData) -> Result<Bearer, Error> {
    Ok(Bearer {
        level: 5,
        named: Named {
            before: 1,
            name_type: NameType(number),
        },
        body,
        last: one_byte(alloc, 0xaa)?,
    })
}

// A struct holds the tag, of an enum that keeps numbers without a name.
#[test]
fn a_struct_before_what_its_tag_decides(rt: HostRuntime) -> Result<(), Fail> {
    let alloc = rt.alloc();
    let host = bearer(alloc, 0, NameTypeData::HostName(8))?;
    expect_encoded_as_vl(alloc, "a host", &host, &[5, 1, 0, 8, 1, 0xaa])?;
    let other = bearer(alloc, 7, NameTypeData::Case7(one_byte(alloc, 0xb1)?))?;
    expect_encoded_as_vl(alloc, "another", &other, &[5, 1, 7, 1, 0xb1, 1, 0xaa])?;
    expect_does_not_fit(&rt, alloc, &bearer(alloc, 7, NameTypeData::HostName(8))?);
    expect_rejected::<Bearer>(alloc, "9", &[5, 1, 9, 8, 1, 0xaa], Error::UnknownValue(9))?;
    Ok(())
}

// The tag is a number of two bytes.
#[test]
fn a_number_before_what_it_decides(rt: HostRuntime) -> Result<(), Fail> {
    let alloc = rt.alloc();
    let value = Versioned {
        header: Header {
            version: 2,
            rest_: VLBytes::new(Vec::new(alloc)),
        },
        parts_: ByVersion::Case2 {
            long: 1,
            tail: one_byte(alloc, 0xb1)?,
            last: 6,
        },
    };
    expect_encoded_as_vl(alloc, "2", &value, &[0, 2, 0, 0, 0, 0, 1, 1, 0xb1, 6])?;
    expect_rejected::<Versioned>(alloc, "4", &[0, 4, 0], Error::UnknownValue(4))?;
    Ok(())
}
