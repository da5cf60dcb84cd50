//! `From` of a struct for one that lends fields of it.

/// What is borrowed of a value.
pub static FROM: &str = "
/// The part of a `$whole$` that is signed.
impl<'a> From<&'a $whole$> for $name$<'a> {
    ghost from_gives = { λ whole borrowed.
$said$ };

    fn from(whole: &'a $whole$) -> $name$<'a> {
        $name$ { $lends$ }
    }
}
";

/// That the first field is the value's.
pub static CLAUSE: &str = "        (borrowed.$field$.now ≡ whole.now.$field$)";

/// That a field after it is.
pub static NEXT_CLAUSE: &str = "\n        × (borrowed.$field$.now ≡ whole.now.$field$)";

/// A field as it is borrowed.
pub static FIELD: &str = "$field$: &whole.$field$, ";
