//! What has fields in a row, and how each field is declared there.

use tlsgen_model::plan::{Decided, Member};

/// What has the fields.
#[derive(Clone, Copy)]
pub enum Owner {
    Struct,
    /// A struct. A context decides some of its fields.
    StructInContext,
    /// The fields of a struct after one that holds tags. Some of these fields depend on the tags.
    AfterTags,
    /// A variant, whose tag is in a row with its fields.
    Variant,
    /// A case of a sum, whose fields are one value.
    Case,
}

static DECLARED_IN_STRUCT: &str = "    /// `$declared$`
$comment$    pub $name$: $type$,
";

static DECLARED_IN_VARIANT: &str = "        /// `$declared$`
$comment$        $name$: $type$,
";

// A field of a value, and of two that are compared.
static IN_STRUCT: [(&str, &str); 3] = [
    ("v", "v.$name$$now$"),
    ("left", "x.$name$$now$"),
    ("right", "y.$name$$now$"),
];

static IN_VARIANT: [(&str, &str); 3] = [
    ("v", "a$at$$now$"),
    ("left", "a$at$$now$"),
    ("right", "b$at$$now$"),
];

// A field's type as it is read and as it is borrowed, its pattern, and how it is borrowed: where a context decides others, those are
// marked that it doesn't decide, those on a tag that it holds, and those that are there for some of its values alone.
static ALONE: [(&str, &str); 4] = [
    ("part", "$type$"),
    ("borrowed_part", "ByRef<'a, $rust$>"),
    ("bound", "$name$"),
    ("lend", "ByRef($own$)"),
];

static IN_CONTEXT: [(&str, &str); 4] = [
    ("part", "$type$"),
    ("borrowed_part", "ByRefIn<'a, $rust$>"),
    ("bound", "$name$"),
    ("lend", "ByRefIn($own$)"),
];

static PRESENT: [(&str, &str); 4] = [
    ("part", "When<$condition$, $payload$>"),
    ("borrowed_part", "ByRefWhen<'a, $condition$, $payload$>"),
    ("bound", "When { value: $name$, .. }"),
    (
        "lend",
        "ByRefWhen { value: $own$, condition: PhantomData::<$condition$> }",
    ),
];

static BESIDE: [(&str, &str); 4] = [
    ("part", "Always<$type$>"),
    ("borrowed_part", "ByRef<'a, $rust$>"),
    ("bound", "Always($name$)"),
    ("lend", "ByRef($own$)"),
];

static ON_TAG: [(&str, &str); 4] = [
    ("part", "By<$key$, $type$>"),
    ("borrowed_part", "By<$key$, ByRefIn<'a, $rust$>>"),
    ("bound", "By($name$, _)"),
    ("lend", "By(ByRefIn($own$), PhantomData)"),
];

static PRESENT_ON_TAG: [(&str, &str); 4] = [
    ("part", "By<$key$, When<$condition$, $payload$>>"),
    (
        "borrowed_part",
        "By<$key$, ByRefWhen<'a, $condition$, $payload$>>",
    ),
    ("bound", "By(When { value: $name$, .. }, _)"),
    (
        "lend",
        "By(ByRefWhen { value: $own$, condition: PhantomData::<$condition$> }, PhantomData)",
    ),
];

// A field that is borrowed itself stands for itself, where nothing decides it.
static BORROWED: [(&str, &str); 4] = [
    ("part", "$type$"),
    ("borrowed_part", "$rust$"),
    ("bound", "$name$"),
    ("lend", "self.$name$"),
];

impl Owner {
    /// A struct.
    pub fn of_struct(is_in_context: bool) -> Owner {
        if is_in_context {
            Owner::StructInContext
        } else {
            Owner::Struct
        }
    }

    /// Whether the fields are those of a struct.
    pub fn is_struct(self) -> bool {
        match self {
            Owner::Struct | Owner::StructInContext | Owner::AfterTags => true,
            Owner::Variant | Owner::Case => false,
        }
    }

    /// How many groups of fields it has at most: a tag is one of three.
    pub fn most(self) -> usize {
        match self {
            Owner::Variant => 2,
            _ => 3,
        }
    }

    /// How a field is declared.
    pub fn declared(self) -> &'static str {
        if self.is_struct() {
            DECLARED_IN_STRUCT
        } else {
            DECLARED_IN_VARIANT
        }
    }

    /// What is said of values of a field.
    pub fn values(self) -> &'static [(&'static str, &'static str)] {
        if self.is_struct() {
            &IN_STRUCT
        } else {
            &IN_VARIANT
        }
    }

    /// How a member is read and borrowed, which `is_borrowed` itself or not.
    pub fn parts(
        self,
        member: &Member,
        is_borrowed: bool,
    ) -> &'static [(&'static str, &'static str)] {
        let is_present = member.present_for.is_some();
        match (self, &member.decided) {
            (Owner::StructInContext | Owner::AfterTags, Decided::Alone) => &BESIDE,
            (Owner::StructInContext, _) if is_present => &PRESENT,
            (Owner::StructInContext, _) => &IN_CONTEXT,
            (Owner::AfterTags, _) if is_present => &PRESENT_ON_TAG,
            (Owner::AfterTags, _) => &ON_TAG,
            _ if is_borrowed => &BORROWED,
            _ => &ALONE,
        }
    }
}
