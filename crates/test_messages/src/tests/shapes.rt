//! Messages of shapes that those of TLS 1.3 and of MLS lack.
use crate::tests::one_byte;
use messages_of_each_shape::{
    Bounded, ContentTypeData, Framed, Identity, Level, Lists, NameType, NodeTBS, NodeTBSOrigin,
    Wide,
};
use std::test::Fail;
use test_support::each_call::{
    expect_encoded_as, expect_encoded_as_vl, expect_rejected, expect_written_and_cloned,
};
use tls_codec::{
    Error, TlsByteVec, TlsByteVecU8, TlsByteVecU16, TlsByteVecU24, TlsByteVecU32, TlsVec, TlsVecU8,
    TlsVecU16, TlsVecU24, TlsVecU32, U24,
};

#[test]
fn values(rt: HostRuntime) -> Result<(), Fail> {
    let alloc = rt.alloc();
    expect_encoded_as(alloc, "low", &Level::Low, &[0, 1])?;
    expect_encoded_as(alloc, "middle", &Level::Middle, &[1, 0])?;
    expect_encoded_as(alloc, "high", &Level::High, &[0xff, 0xff])?;
    expect_rejected::<Level>(alloc, "2", &[0, 2], Error::UnknownValue(2))?;
    expect_encoded_as(alloc, "host_name", &NameType::HOST_NAME, &[0])?;
    expect_encoded_as(alloc, "no name", &NameType(6), &[6])?;
    Ok(())
}

#[test]
fn tags(rt: HostRuntime) -> Result<(), Fail> {
    let alloc = rt.alloc();
    let full = Identity::Full {
        name_type: NameType(2),
        level: Level::Middle,
        key: one_byte(alloc, 0xaa)?,
        since: 9,
        last: Some(one_byte(alloc, 0xbb)?),
    };
    expect_encoded_as_vl(
        alloc,
        "full",
        &full,
        &[0, 4, 2, 1, 0, 1, 0xaa, 0, 0, 0, 9, 1, 1, 0xbb],
    )?;
    expect_encoded_as(alloc, "anonymous", &Identity::Anonymous, &[0, 5])?;
    expect_rejected::<Identity>(alloc, "0", &[0, 0], Error::UnknownValue(0))?;
    expect_rejected::<Identity>(alloc, "6", &[0, 6, 1, 9], Error::UnknownValue(6))?;
    Ok(())
}

#[test]
fn selects(rt: HostRuntime) -> Result<(), Fail> {
    let alloc = rt.alloc();
    let framed = Framed {
        epoch: 1,
        content_type: ContentTypeData::Application {
            authenticated_data: one_byte(alloc, 0xa)?,
            application_data: one_byte(alloc, 0xb)?,
        },
        signature: one_byte(alloc, 0xc)?,
    };
    expect_encoded_as_vl(
        alloc,
        "application",
        &framed,
        &[0, 0, 0, 1, 1, 1, 0xa, 1, 0xb, 1, 0xc],
    )?;
    let framed = Framed {
        epoch: 1,
        content_type: ContentTypeData::Proposal {
            authenticated_data: one_byte(alloc, 0xa)?,
            proposal: one_byte(alloc, 0xd)?,
            level: 3,
        },
        signature: one_byte(alloc, 0xc)?,
    };
    expect_encoded_as_vl(
        alloc,
        "proposal",
        &framed,
        &[0, 0, 0, 1, 2, 1, 0xa, 1, 0xd, 3, 1, 0xc],
    )?;
    Ok(())
}

#[test]
fn twelve_fields(rt: HostRuntime) -> Result<(), Fail> {
    let alloc = rt.alloc();
    let wide = Wide {
        a: 1,
        b: U24::from_be_bytes([2, 3, 4]),
        c: 5,
        d: 6,
        e: [7; 16],
        f: TlsByteVecU8::from_slice(alloc, &[8])?,
        g: TlsByteVecU16::from_slice(alloc, &[9])?,
        h: TlsByteVecU24::from_slice(alloc, &[10])?,
        i: TlsByteVecU32::from_slice(alloc, &[11])?,
        j: TlsVecU16::new(Vec::from_array(alloc, [one_byte(alloc, 12)?])?),
        k: String::from_str(alloc, "hi")?,
        l: Some(13),
    };
    let spelled = [
        1, 2, 3, 4, 0, 0, 0, 5, 0, 0, 0, 0, 0, 0, 0, 6, 7, 7, 7, 7, 7, 7, 7, 7, 7, 7, 7, 7, 7, 7,
        7, 7, 1, 8, 0, 1, 9, 0, 0, 1, 10, 0, 0, 0, 1, 11, 0, 2, 1, 12, 2, 0x68, 0x69, 1, 0, 13,
    ];
    expect_encoded_as_vl(alloc, "twelve", &wide, &spelled)
}

#[test]
fn lists(rt: HostRuntime) -> Result<(), Fail> {
    let alloc = rt.alloc();
    let lists = Lists {
        octets: TlsVecU8::new(Vec::from_array(alloc, [1, 2])?),
        levels: TlsVecU16::new(Vec::from_array(alloc, [Level::Low, Level::Middle])?),
        keys: TlsVecU24::new(Vec::from_array(alloc, [one_byte(alloc, 3)?])?),
        identities: TlsVecU32::new(Vec::from_array(alloc, [Identity::Anonymous])?),
        rows: Vec::from_array(alloc, [Vec::from_array(alloc, [4])?, Vec::new(alloc)])?,
        kind: 5,
        names: Vec::from_array(alloc, [NameType(6), NameType(0)])?,
        row: Vec::from_array(alloc, [7])?,
    };
    let spelled = [
        4, 0, 1, 0, 2, 0, 4, 0, 1, 1, 0, 0, 0, 2, 1, 3, 0, 0, 0, 2, 0, 5, 4, 2, 0, 4, 0, 0, 5, 2,
        6, 0, 2, 0, 7,
    ];
    expect_encoded_as_vl(alloc, "lists", &lists, &spelled)
}

#[test]
fn bounds(rt: HostRuntime) -> Result<(), Fail> {
    let alloc = rt.alloc();
    let bounded = Bounded {
        session: TlsByteVec::from_slice(alloc, &[9])?,
        suites: TlsVec::new(Vec::from_array(alloc, [3])?),
    };
    expect_encoded_as(alloc, "within", &bounded, &[1, 9, 0, 2, 0, 3])?;
    for bytes in [[33].as_slice(), &[0, 0, 0], &[0, 0, 1, 3], &[0, 0xff, 0xff]] {
        let row = format!(in alloc; "{bytes:?}")?;
        expect_rejected::<Bounded>(alloc, &row, bytes, Error::InvalidVectorLength)?;
    }
    Ok(())
}

#[test]
fn borrowed_structs(rt: HostRuntime) -> Result<(), Fail> {
    let alloc = rt.alloc();
    let key = one_byte(alloc, 7)?;
    let parent_hash = one_byte(alloc, 9)?;
    for (row, node_source, expected) in [
        ("update", NodeTBSOrigin::Update, [1, 7, 2, 0].as_slice()),
        (
            "commit",
            NodeTBSOrigin::Commit {
                parent_hash: &parent_hash,
                level: &4,
            },
            &[1, 7, 3, 1, 9, 4, 0],
        ),
        (
            "a hash",
            NodeTBSOrigin::from(&parent_hash),
            &[1, 7, 4, 1, 9, 0],
        ),
    ] {
        let node = NodeTBS {
            key: &key,
            node_source,
            last: &None,
        };
        expect_written_and_cloned(alloc, row, &node, expected)?;
    }
    Ok(())
}
