//! Messages with a select in its length, or with one case alone; and names that a type or a field can't have.
use crate::tests::{END, NOT_FILLED, NOT_THERE, TRAILING, one_byte};
use messages_of_each_shape::{
    CertificateType, EmptyType, FormX04, Header, MagicX0102, NameTypeHostName, Point, ServerName,
    SessionTicket, SizedType, Trees, VersionData, VersionXfefd,
};
use std::test::Fail;
use test_support::each_call::{
    expect_encoded_as, expect_encoded_as_vl, expect_rejected, expect_rejected_by,
};
use tls_codec::{Error, TlsByteVec};

// `before`, the tag, the length of the case's fields, these, and `after`.
#[test]
fn cases_in_their_lengths(rt: HostRuntime) -> Result<(), Fail> {
    let alloc = rt.alloc();
    let two = VersionData::Case7 {
        short: 5,
        long: one_byte(alloc, 6)?,
    };
    let one = VersionData::Case11(one_byte(alloc, 6)?);
    for (row, contents, spelled) in [
        ("two fields", two, [1, 0, 7, 0, 3, 5, 1, 6, 9].as_slice()),
        ("no field", VersionData::Case9, &[1, 0, 9, 0, 0, 9]),
        ("one field", one, &[1, 0, 11, 0, 2, 1, 6, 9]),
    ] {
        let sized = SizedType {
            before: 1,
            contents,
            after: 9,
        };
        expect_encoded_as_vl(alloc, row, &sized, spelled)?;
    }
    Ok(())
}

// Of each case its length one less, one more, and 0; and tags without a case. Where the length passes the end, a slice
// has too few bytes for it, and a source reads the case first.
static SIZED: [(&[u8], Error, Error); 11] = [
    (&[1, 0, 7, 0, 2, 5, 1, 6, 9], NOT_THERE, END),
    (&[1, 0, 7, 0, 4, 5, 1, 6, 9], TRAILING, TRAILING),
    (&[1, 0, 7, 0, 5, 5, 1, 6, 9], END, TRAILING),
    (&[1, 0, 7, 0, 0, 5, 1, 6, 9], END, END),
    (&[1, 0, 9, 0, 1, 9], TRAILING, TRAILING),
    (&[1, 0, 9, 0, 2, 9], END, TRAILING),
    (&[1, 0, 11, 0, 1, 1, 6, 9], NOT_THERE, END),
    (&[1, 0, 11, 0, 3, 1, 6, 9], TRAILING, TRAILING),
    (&[1, 0, 11, 0, 0, 1, 6, 9], END, END),
    (
        &[1, 0, 8, 0, 0, 9],
        Error::UnknownValue(8),
        Error::UnknownValue(8),
    ),
    (
        &[1, 7, 0, 0, 0, 9],
        Error::UnknownValue(0x0700),
        Error::UnknownValue(0x0700),
    ),
];

#[test]
fn cases_in_other_lengths(rt: HostRuntime) -> Result<(), Fail> {
    let alloc = rt.alloc();
    for (bytes, of_slice, of_source) in SIZED {
        let row = format!(in alloc; "{bytes:?}")?;
        expect_rejected_by::<SizedType>(alloc, &row, bytes, of_slice, of_source)?;
    }
    Ok(())
}

// The tag is a constant, and the case's field has the select's name.
#[test]
fn one_case_of_one_field(rt: HostRuntime) -> Result<(), Fail> {
    let alloc = rt.alloc();
    let name = ServerName {
        name_type: NameTypeHostName::HostName,
        name: TlsByteVec::from_slice(alloc, b"hi")?,
    };
    expect_encoded_as(alloc, "a host", &name, &[0, 0, 2, 0x68, 0x69])?;
    for (bytes, error) in [
        ([1, 0, 2, 0x68, 0x69].as_slice(), Error::UnknownValue(1)),
        (&[0, 0, 0], Error::InvalidVectorLength),
        (&[0, 0, 3, 0x68, 0x69], END),
        (&[0, 0, 1, 0x68, 0x69], TRAILING),
    ] {
        let row = format!(in alloc; "{bytes:?}")?;
        expect_rejected::<ServerName>(alloc, &row, bytes, error)?;
    }
    Ok(())
}

#[test]
fn one_case_of_two_fields(rt: HostRuntime) -> Result<(), Fail> {
    let alloc = rt.alloc();
    let point = Point {
        form: FormX04::X04,
        x: one_byte(alloc, 7)?,
        y: one_byte(alloc, 8)?,
    };
    expect_encoded_as_vl(alloc, "a point", &point, &[4, 1, 7, 1, 8])?;
    for (bytes, of_slice, of_source) in [
        (
            [3, 1, 7, 1, 8].as_slice(),
            Error::UnknownValue(3),
            Error::UnknownValue(3),
        ),
        (&[4, 2, 7, 1, 8], NOT_THERE, END),
        (&[4, 0, 7, 1, 8], NOT_THERE, END),
        (&[4, 1, 7, 2, 8], NOT_THERE, END),
        (&[4, 1, 7, 0, 8], TRAILING, TRAILING),
    ] {
        let row = format!(in alloc; "{bytes:?}")?;
        expect_rejected_by::<Point>(alloc, &row, bytes, of_slice, of_source)?;
    }
    Ok(())
}

// `a.1`, `type`, which has a number without a name, the constants `version` and `magic`, and `wide`.
#[test]
fn names_and_constants(rt: HostRuntime) -> Result<(), Fail> {
    let alloc = rt.alloc();
    let ticket = SessionTicket {
        a_1: one_byte(alloc, 7)?,
        kind: EmptyType(3),
        version: VersionXfefd::Xfefd,
        magic: MagicX0102::X0102,
        wide: 0x0809,
    };
    expect_encoded_as_vl(alloc, "a ticket", &ticket, &[1, 7, 3, 254, 253, 1, 2, 8, 9])?;
    // Other constants; then a length one less and one more, after which other bytes are there for the constants.
    for (bytes, value) in [
        ([1, 7, 3, 253, 254, 1, 2, 8, 9].as_slice(), 0xfdfe),
        (&[1, 7, 3, 254, 253, 1, 3, 8, 9], 0x0103),
        (&[0, 7, 3, 254, 253, 1, 2, 8, 9], 0x03fe),
        (&[2, 7, 3, 254, 253, 1, 2, 8, 9], 0xfd01),
    ] {
        let row = format!(in alloc; "{bytes:?}")?;
        expect_rejected::<SessionTicket>(alloc, &row, bytes, Error::UnknownValue(value))?;
    }
    Ok(())
}

#[test]
fn lists_of_options_of_lists(rt: HostRuntime) -> Result<(), Fail> {
    let alloc = rt.alloc();
    let row = Vec::from_array(alloc, [5])?;
    let trees = Trees {
        tree: Vec::from_array(alloc, [Some(row), None])?,
    };
    expect_encoded_as(alloc, "a list", &trees, &[5, 1, 2, 0, 5, 0])?;
    let option = Error::DecodingError("option tag is not 0 or 1");
    for (bytes, of_slice, of_source) in [
        ([4, 1, 2, 0, 5, 0].as_slice(), TRAILING, TRAILING),
        (&[6, 1, 2, 0, 5, 0], END, END),
        (&[5, 1, 1, 0, 5, 0], NOT_FILLED, END),
        (&[5, 1, 3, 0, 5, 0], END, END),
        (&[5, 2, 2, 0, 5, 0], option, option),
    ] {
        let row = format!(in alloc; "{bytes:?}")?;
        expect_rejected_by::<Trees>(alloc, &row, bytes, of_slice, of_source)?;
    }
    Ok(())
}

// A number that is a tag elsewhere, and values with a number between them that no value has.
#[test]
fn headers_and_types(rt: HostRuntime) -> Result<(), Fail> {
    let alloc = rt.alloc();
    let header = Header {
        version: 0x0102,
        rest_: one_byte(alloc, 7)?,
    };
    expect_encoded_as_vl(alloc, "a header", &header, &[1, 2, 1, 7])?;
    expect_rejected_by::<Header>(alloc, "one more", &[1, 2, 2, 7], NOT_THERE, END)?;
    expect_rejected::<Header>(alloc, "one less", &[1, 2, 0, 7], TRAILING)?;
    expect_encoded_as(alloc, "X509", &CertificateType::X509, &[0])?;
    expect_encoded_as(alloc, "RawPublicKey", &CertificateType::RawPublicKey, &[2])?;
    expect_rejected::<CertificateType>(alloc, "1", &[1], Error::UnknownValue(1))?;
    Ok(())
}
