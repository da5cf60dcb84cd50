//! A text in one layout.

use crate::source::{
    Definition, InPlace, Numbers, Signed, Source, SourceEnum, SourcePart, SourceStruct,
    SourceValue, StructKind, TypeInPlace, ValueName,
};
use crate::syntax::{Case, Constant, Field, Label, Name, Number, Part, Select, Vector};
use std::alloc::{AllocError, Global};

const INDENT: &str = "    ";

/// The text of what one says: the definitions in their order, numbers in decimal, no comments.
pub fn print(alloc: Global, source: &Source) -> Result<String, AllocError> {
    let mut out = String::new(alloc);
    for definition in &source.definitions {
        print_definition(&mut out, definition)?;
    }
    Ok(out)
}

fn print_definition(out: &mut String, definition: &Definition) -> Result<(), AllocError> {
    match definition {
        Definition::Enum(one) => print_enum(out, one),
        Definition::Struct(one) => print_struct(out, one),
        Definition::Alias(field) => print_field(out, field),
    }
}

fn print_enum(out: &mut String, item: &SourceEnum) -> Result<(), AllocError> {
    print_numbers(out, &item.numbers)?;
    let name = item.name.text.as_str();
    writeln!(out, " {name};")
}

fn print_numbers(out: &mut String, numbers: &Numbers) -> Result<(), AllocError> {
    if numbers.is_open {
        out.push_str("open ")?;
    }
    out.push_str("enum { ")?;
    print_values(out, &numbers.values)?;
    out.push_str(" }")
}

fn print_values(out: &mut String, values: &[SourceValue]) -> Result<(), AllocError> {
    let mut separator = "";
    for value in values {
        out.push_str(separator)?;
        print_value(out, value)?;
        separator = ", ";
    }
    Ok(())
}

fn print_value(out: &mut String, value: &SourceValue) -> Result<(), AllocError> {
    if let Some(name) = &value.name {
        print_value_name(out, name)?;
    }
    let number = value.number.value;
    write!(out, "({number}")?;
    if let Some(last) = &value.last {
        let last = last.value;
        write!(out, "..{last}")?;
    }
    out.push_str(")")
}

fn print_value_name(out: &mut String, name: &ValueName) -> Result<(), AllocError> {
    match name {
        ValueName::Word(name) => out.push_str(name.text.as_str()),
        ValueName::Number(number) => {
            let number = number.value;
            write!(out, "{number}")
        }
    }
}

fn print_struct(out: &mut String, one: &SourceStruct) -> Result<(), AllocError> {
    out.push_str(match one.kind {
        StructKind::Sent => "struct {\n",
        StructKind::Borrowed => "borrowed struct {\n",
        StructKind::Signed => "digitally-signed struct {\n",
    })?;
    for part in &one.parts {
        print_source_part(out, part)?;
    }
    let name = one.name.text.as_str();
    writeln!(out, "}} {name};")
}

fn print_source_part(out: &mut String, part: &SourcePart) -> Result<(), AllocError> {
    match part {
        SourcePart::Sent(part) => print_part(out, 1, part),
        SourcePart::Signed(signed) => print_signed(out, signed),
        SourcePart::InPlace(one) => print_in_place(out, one),
    }
}

fn print_in_place(out: &mut String, one: &InPlace) -> Result<(), AllocError> {
    print_indent(out, 1)?;
    match &one.of {
        TypeInPlace::Enum(numbers) => print_numbers(out, numbers)?,
        TypeInPlace::Struct(parts) => print_inner_struct(out, parts)?,
    }
    print_ending_name(out, Some(&one.name))?;
    print_vector(out, &one.vector)?;
    out.push_str(";\n")
}

// A struct in a struct, up to its closing brace.
fn print_inner_struct(out: &mut String, parts: &[Part]) -> Result<(), AllocError> {
    out.push_str("struct {\n")?;
    for part in parts {
        print_part(out, 2, part)?;
    }
    print_indent(out, 1)?;
    out.push_str("}")
}

fn print_signed(out: &mut String, signed: &Signed) -> Result<(), AllocError> {
    print_indent(out, 1)?;
    out.push_str("digitally-signed ")?;
    print_inner_struct(out, &signed.parts)?;
    print_ending_name(out, signed.name.as_ref())?;
    out.push_str(";\n")
}

// The indentation of what is inside `depth` structs and selects.
fn print_indent(out: &mut String, depth: usize) -> Result<(), AllocError> {
    for _ in 0..depth {
        out.push_str(INDENT)?;
    }
    Ok(())
}

// A space and the name after a closing brace, if there is one.
fn print_ending_name(out: &mut String, name: Option<&Name>) -> Result<(), AllocError> {
    let Some(name) = name else {
        return Ok(());
    };
    let name = name.text.as_str();
    write!(out, " {name}")
}

fn print_part(out: &mut String, depth: usize, part: &Part) -> Result<(), AllocError> {
    print_indent(out, depth)?;
    match part {
        Part::Field(field) => print_field(out, field),
        Part::Select(select) => print_select(out, depth, select),
    }
}

// A field with its semicolon, and the line's end.
fn print_field(out: &mut String, field: &Field) -> Result<(), AllocError> {
    let of = field.of.text.as_str();
    if field.is_optional {
        write!(out, "optional<{of}>")?;
    } else {
        out.push_str(of)?;
    }
    if field.is_named {
        let name = field.name.text.as_str();
        write!(out, " {name}")?;
    }
    print_vector(out, &field.vector)?;
    if let Some(constant) = &field.constant {
        out.push_str(" = ")?;
        print_constant(out, constant)?;
    }
    out.push_str(";\n")
}

fn print_constant(out: &mut String, constant: &Constant) -> Result<(), AllocError> {
    match constant {
        Constant::Named(name) => out.push_str(name.text.as_str()),
        Constant::Number(number) => {
            let number = number.value;
            write!(out, "{number}")
        }
        Constant::Elements(elements) => print_elements(out, elements),
    }
}

fn print_elements(out: &mut String, elements: &[Number]) -> Result<(), AllocError> {
    let mut separator = "{";
    for element in elements {
        let element = element.value;
        write!(out, "{separator}{element}")?;
        separator = ", ";
    }
    out.push_str("}")
}

fn print_vector(out: &mut String, vector: &Vector) -> Result<(), AllocError> {
    match vector {
        Vector::One => Ok(()),
        Vector::Array(length) => {
            let length = length.value;
            write!(out, "[{length}]")
        }
        Vector::Counted(path) => {
            out.push_str("[")?;
            print_path(out, path)?;
            out.push_str("]")
        }
        Vector::Variable => out.push_str("<V>"),
        Vector::Bounded(floor, ceiling) => {
            let floor = floor.value;
            let ceiling = ceiling.value;
            write!(out, "<{floor}..{ceiling}>")
        }
    }
}

fn print_select(out: &mut String, depth: usize, select: &Select) -> Result<(), AllocError> {
    out.push_str("select (")?;
    print_path(out, &select.path)?;
    out.push_str(") {\n")?;
    for case in &select.cases {
        print_case(out, depth.saturating_add(1), case)?;
    }
    print_indent(out, depth)?;
    out.push_str("}")?;
    print_ending_name(out, select.name.as_ref())?;
    out.push_str(if select.ends_in_semicolon {
        ";\n"
    } else {
        "\n"
    })
}

fn print_path(out: &mut String, path: &[Name]) -> Result<(), AllocError> {
    let mut separator = "";
    for name in path {
        out.push_str(separator)?;
        out.push_str(name.text.as_str())?;
        separator = ".";
    }
    Ok(())
}

fn print_case(out: &mut String, depth: usize, case: &Case) -> Result<(), AllocError> {
    for label in &case.labels {
        print_indent(out, depth)?;
        print_label(out, label)?;
    }
    print_case_fields(out, depth.saturating_add(1), &case.fields)
}

fn print_case_fields(out: &mut String, depth: usize, fields: &[Field]) -> Result<(), AllocError> {
    if fields.is_empty() {
        print_indent(out, depth)?;
        return out.push_str("struct {};\n");
    }
    for field in fields {
        print_indent(out, depth)?;
        print_field(out, field)?;
    }
    Ok(())
}

fn print_label(out: &mut String, label: &Label) -> Result<(), AllocError> {
    match label {
        Label::Name(name) => {
            let name = name.text.as_str();
            writeln!(out, "case {name}:")
        }
        Label::Number(number) => {
            let number = number.value;
            writeln!(out, "case {number}:")
        }
    }
}
