//! An enum of numbers that decides parts of other messages: its number, by what it stands for.

/// What a closed enum has for it.
pub static CLOSED: [(&str, &str); 6] = [
    (
        "selector",
        "
impl Selector for $name$ {
    ghost selected = { $module$_selected };

    fn selects(&self) -> u64 {
        let tag = self.code();
        $u64$
    }
}
",
    ),
    (
        "selection",
        "
-- the number of a value, from what the value stands for
abbrev pub $module$_selected : Tree → ℕ
$module$_selected (Join (Number tag) vs) = tag
$module$_selected _ = 0
",
    ),
    ("selected_use", ", $module$_selected"),
    (
        "keyed",
        "
impl Keyed for $name$ {
    type Key = u64;

    ghost is_key = { λ n c. n ≡ $module$_selected c };

    fn key(&self) -> u64 {
        self.selects()
    }
}

impl TagKeyed for $name$ {
    fn tag_of_key(key: &u64) -> u64 {
        *key
    }
}

impl TagFirst for $name$ {
    type Tag = u$bits$;

    ghost variants = { values $module$_has };

    ghost first_tag = { $module$_selected };

    ghost is_tagged = { λ d bytes v spelled. spelled };

    ghost is_first_tag = { λ d bytes tag parts spelled. refl };
}

impl ValidateKeyed for $name$ {
    fn tls_validate_keyed(whole: &[u8]) -> Result<(u64, &[u8]), Rejected<'_>> {
        validate_tag_first::<$name$>(whole)
    }
}
",
    ),
    ("keyed_use", "ghost use Rattle.std.proofs.Common.{refl};\n"),
    ("keyed_values", "values, "),
];

/// What an open one has.
pub static OPEN: [(&str, &str); 4] = [
    (
        "selector",
        "
impl Selector for $name$ {
    ghost selected = { $module$_selected };

    fn selects(&self) -> u64 {
        let tag = self.0;
        $u64$
    }
}
",
    ),
    (
        "selection",
        "
-- the number of a value, from what the value stands for
abbrev pub $module$_selected : Tree → ℕ
$module$_selected (Number tag) = tag
$module$_selected _ = 0
",
    ),
    ("selected_use", ", $module$_selected"),
    (
        "keyed",
        "
impl Keyed for $name$ {
    type Key = u64;

    ghost is_key = { λ n c. n ≡ $module$_selected c };

    fn key(&self) -> u64 {
        self.selects()
    }
}

impl TagKeyed for $name$ {
    fn tag_of_key(key: &u64) -> u64 {
        *key
    }
}

impl ValidateKeyed for $name$ {
    fn tls_validate_keyed(whole: &[u8]) -> Result<(u64, &[u8]), Rejected<'_>> {
        let (tag, rest) = <u$bits$ as FindTag>::find_tag(whole)?;
        Ok((tag, rest))
    }
}
",
    ),
];

/// What an enum has that decides no parts.
pub static NONE: [(&str, &str); 6] = [
    ("selector", ""),
    ("selection", ""),
    ("selected_use", ""),
    ("keyed", ""),
    ("keyed_use", ""),
    ("keyed_values", ""),
];
