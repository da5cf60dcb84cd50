// Where two sources differ in more than layout, and how the fields of a borrowed struct are written in a row.
use super::same_at;
use std::test::Fail;
use tlsgen_model::borrowed::runs_of;
use tlsgen_model::layout::first_difference;

#[test]
fn lines_that_differ(rt: HostRuntime) -> Result<(), Fail> {
    for (ours, theirs, wanted) in [
        ("struct { a: u8 }", "struct {\n    a: u8,\n}", None),
        ("struct { a: u8 }", "struct {\n    b: u8,\n}", Some(2)),
        ("F<A, B>", "F<\n    A,\n    B,\n>", None),
        ("a\nb\n", "a\n\nc", Some(3)),
        ("a b", "a\n", Some(2)),
        ("a", "a\nb", Some(2)),
        ("", "a", Some(1)),
    ] {
        let found = first_difference(ours.as_bytes(), theirs.as_bytes());
        same_at(&rt, theirs, found, wanted);
    }
    Ok(())
}

#[test]
fn runs_of_fields(rt: HostRuntime) -> Result<(), Fail> {
    for (are_borrowed, wanted) in [
        ([].as_slice(), [].as_slice()),
        (&[false, false], &[2]),
        (&[true, true], &[1, 1]),
        (&[false, true, false, false], &[1, 1, 2]),
        (&[false; 10], &[9, 1]),
    ] {
        let found = runs_of(rt.alloc(), are_borrowed)?;
        same_at(&rt, are_borrowed, found.as_slice(), wanted);
    }
    Ok(())
}
