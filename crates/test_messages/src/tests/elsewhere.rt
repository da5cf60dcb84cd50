//! Messages in a context: their tag is a number or a name of another struct.
use crate::tests::{END, LENGTH, NOT_FILLED, NOT_THERE, TRAILING};
use messages_of_each_shape::{ByVersion, CertificateType, CertificateTypeData, Entries, Entry};
use std::alloc::Global;
use std::test::Fail;
use test_support::in_context::{
    expect_does_not_fit_in, expect_encoded_as_in, expect_rejected_in_by,
};
use tls_codec::{Error, TlsByteVec, TlsVecU24, VLBytes};

const X509: CertificateType = CertificateType::X509;

const RAW: CertificateType = CertificateType::RawPublicKey;

#[test]
fn by_a_number(rt: HostRuntime) -> Result<(), Fail> {
    let alloc = rt.alloc();
    let long = ByVersion::Case2 {
        long: 1,
        tail: VLBytes::from_array(alloc, &[7])?,
        last: 8,
    };
    for (version, value, bytes, others) in [
        (1u16, ByVersion::Case1(9), [9].as_slice(), [2u16, 3, 4]),
        (2, long, &[0, 0, 0, 1, 1, 7, 8], [1, 3, 0x0102]),
        (3, ByVersion::Case3, &[], [1, 2, 0]),
    ] {
        let row = format!(in alloc; "{bytes:?}")?;
        expect_encoded_as_in(alloc, &row, &version, &value, bytes)?;
        for other in others {
            expect_does_not_fit_in(alloc, &row, &other, &value)?;
        }
    }
    Ok(())
}

// A tag without a case, a byte after each case, and a length of `tail` that is one too great and
// one too small.
#[test]
fn rejected_by_a_number(rt: HostRuntime) -> Result<(), Fail> {
    let alloc = rt.alloc();
    for (version, bytes, of_slice, of_source) in [
        (
            4u16,
            [9].as_slice(),
            Error::UnknownValue(4),
            Error::UnknownValue(4),
        ),
        (
            0x0102,
            &[9],
            Error::UnknownValue(258),
            Error::UnknownValue(258),
        ),
        (1, &[9, 9], TRAILING, TRAILING),
        (3, &[0], TRAILING, TRAILING),
        (2, &[0, 0, 0, 1, 1, 7, 8, 9], TRAILING, TRAILING),
        (2, &[0, 0, 0, 1, 2, 7, 8], END, END),
        (2, &[0, 0, 0, 1, 0, 7, 8], TRAILING, TRAILING),
        (2, &[0, 0, 0, 1, 3, 7, 8], NOT_THERE, END),
    ] {
        let row = format!(in alloc; "{bytes:?}")?;
        expect_rejected_in_by::<_, ByVersion>(alloc, &row, &version, bytes, of_slice, of_source)?;
    }
    Ok(())
}

fn x509(alloc: Global, cert_data: &[u8]) -> Result<CertificateTypeData, Error> {
    Ok(CertificateTypeData::X509(TlsByteVec::from_slice(alloc, cert_data)?))
}

fn raw(alloc: Global, key: &[u8]) -> Result<CertificateTypeData, Error> {
    Ok(CertificateTypeData::RawPublicKey(VLBytes::from_slice(alloc, key)?))
}

fn entry(alloc: Global, first: u8, body: CertificateTypeData, last: &[u8]) -> Result<Entry, Error> {
    Ok(Entry {
        first,
        body,
        second: 3,
        last: VLBytes::from_slice(alloc, last)?,
    })
}

#[test]
fn by_a_name(rt: HostRuntime) -> Result<(), Fail> {
    let alloc = rt.alloc();
    for (kind, other, body, bytes) in [
        (
            X509,
            RAW,
            x509(alloc, &[10, 11])?,
            [0, 0, 2, 10, 11].as_slice(),
        ),
        (RAW, X509, raw(alloc, &[10, 11])?, &[2, 10, 11]),
        (RAW, X509, raw(alloc, &[])?, &[0]),
    ] {
        let row = format!(in alloc; "{bytes:?}")?;
        expect_encoded_as_in(alloc, &row, &kind, &body, bytes)?;
        expect_does_not_fit_in(alloc, &row, &other, &body)?;
    }
    Ok(())
}

#[test]
fn among_fields(rt: HostRuntime) -> Result<(), Fail> {
    let alloc = rt.alloc();
    for (kind, other, entry, bytes) in [
        (
            X509,
            RAW,
            entry(alloc, 1, x509(alloc, &[10, 11])?, &[4])?,
            [1, 0, 0, 2, 10, 11, 0, 3, 1, 4].as_slice(),
        ),
        (
            RAW,
            X509,
            entry(alloc, 1, raw(alloc, &[10, 11])?, &[4])?,
            &[1, 2, 10, 11, 0, 3, 1, 4],
        ),
    ] {
        let row = format!(in alloc; "{bytes:?}")?;
        expect_encoded_as_in(alloc, &row, &kind, &entry, bytes)?;
        expect_does_not_fit_in(alloc, &row, &other, &entry)?;
    }
    Ok(())
}

// A certificate of no bytes; then lengths of the select's field that are one too great and one too small, so that what
// comes after it isn't `second` and `last`; the bytes of the other case; and a byte after all.
#[test]
fn rejected_among_fields(rt: HostRuntime) -> Result<(), Fail> {
    let alloc = rt.alloc();
    for (kind, bytes, of_slice, of_source) in [
        (X509, [1, 0, 0, 0, 0, 3, 1, 4].as_slice(), LENGTH, LENGTH),
        (X509, &[1, 0, 0, 3, 10, 11, 0, 3, 1, 4], NOT_THERE, END),
        (X509, &[1, 0, 0, 1, 10, 11, 0, 3, 1, 4], NOT_THERE, END),
        (X509, &[1, 0, 0, 9, 10, 11, 0, 3, 1, 4], END, END),
        (RAW, &[1, 3, 10, 11, 0, 3, 1, 4], NOT_THERE, END),
        (RAW, &[1, 1, 10, 11, 0, 3, 1, 4], NOT_THERE, END),
        (RAW, &[1, 0, 0, 2, 10, 11, 0, 3, 1, 4], NOT_THERE, END),
        (X509, &[1, 2, 10, 11, 0, 3, 1, 4], END, END),
        (
            X509,
            &[1, 0, 0, 2, 10, 11, 0, 3, 1, 4, 5],
            TRAILING,
            TRAILING,
        ),
    ] {
        let row = format!(in alloc; "{bytes:?}")?;
        expect_rejected_in_by::<_, Entry>(alloc, &row, &kind, bytes, of_slice, of_source)?;
    }
    Ok(())
}

#[test]
fn lists(rt: HostRuntime) -> Result<(), Fail> {
    let alloc = rt.alloc();
    let certificates = [
        entry(alloc, 1, x509(alloc, &[10])?, &[])?,
        entry(alloc, 4, x509(alloc, &[11])?, &[])?,
    ];
    let keys = [entry(alloc, 1, raw(alloc, &[10])?, &[])?];
    for (kind, other, entries, bytes) in [
        (
            X509,
            RAW,
            Vec::from_array(alloc, certificates)?,
            [
                2, 0, 0, 16, 1, 0, 0, 1, 10, 0, 3, 0, 4, 0, 0, 1, 11, 0, 3, 0,
            ]
            .as_slice(),
        ),
        (
            RAW,
            X509,
            Vec::from_array(alloc, keys)?,
            &[2, 0, 0, 6, 1, 1, 10, 0, 3, 0],
        ),
    ] {
        let entries = Entries {
            count: 2,
            entries: TlsVecU24::new(entries),
        };
        let row = format!(in alloc; "{bytes:?}")?;
        expect_encoded_as_in(alloc, &row, &kind, &entries, bytes)?;
        expect_does_not_fit_in(alloc, &row, &other, &entries)?;
    }
    Ok(())
}

// No entry fits each context, and entries of two cases fit none.
#[test]
fn no_entry_and_entries_of_two_cases(rt: HostRuntime) -> Result<(), Fail> {
    let alloc = rt.alloc();
    let none = Entries {
        count: 0,
        entries: TlsVecU24::new(Vec::new(alloc)),
    };
    let both = [
        entry(alloc, 1, x509(alloc, &[10])?, &[])?,
        entry(alloc, 1, raw(alloc, &[10])?, &[])?,
    ];
    let both = Entries {
        count: 2,
        entries: TlsVecU24::new(Vec::from_array(alloc, both)?),
    };
    for kind in [X509, RAW] {
        expect_encoded_as_in(alloc, "no entry", &kind, &none, &[0, 0, 0, 0])?;
        expect_does_not_fit_in(alloc, "two cases", &kind, &both)?;
    }
    Ok(())
}

// A list that ends within its entry, one that goes on after it, and none, with bytes after it; then
// the first two of keys, and bytes of the other case.
#[test]
fn rejected_lists(rt: HostRuntime) -> Result<(), Fail> {
    let alloc = rt.alloc();
    for (kind, bytes, of_slice, of_source) in [
        (
            X509,
            [1, 0, 0, 7, 1, 0, 0, 1, 10, 0, 3, 0].as_slice(),
            NOT_FILLED,
            END,
        ),
        (X509, &[1, 0, 0, 9, 1, 0, 0, 1, 10, 0, 3, 0], END, END),
        (
            X509,
            &[1, 0, 0, 0, 1, 0, 0, 1, 10, 0, 3, 0],
            TRAILING,
            TRAILING,
        ),
        (RAW, &[1, 0, 0, 5, 1, 1, 10, 0, 3, 0], NOT_FILLED, END),
        (RAW, &[1, 0, 0, 7, 1, 1, 10, 0, 3, 0], END, END),
        (X509, &[1, 0, 0, 6, 1, 1, 10, 0, 3, 0], END, END),
    ] {
        let row = format!(in alloc; "{bytes:?}")?;
        expect_rejected_in_by::<_, Entries>(alloc, &row, &kind, bytes, of_slice, of_source)?;
    }
    Ok(())
}
