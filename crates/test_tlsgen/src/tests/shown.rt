// A plan as a text that one reads: an alias, a message or a variant a line.
use std::alloc::{AllocError, Global};
use tlsgen_model::plan::{
    Body, Context, Decided, Element, Holder, Member, Plan, Shape, Type, Variant,
};

pub fn show(alloc: Global, plan: &Plan) -> Result<String, AllocError> {
    let mut out = String::new(alloc);
    for alias in &plan.aliases {
        let name = alias.name.as_str();
        write!(&mut out, "type {name} = ")?;
        show_type(&mut out, &alias.of)?;
        out.push_str(if alias.ends {
            ", which ends it\n"
        } else {
            "\n"
        })?;
    }
    for message in &plan.messages {
        let name = message.name.as_str();
        let module = message.module.as_str();
        let borrowed = if message.is_borrowed { "borrowed " } else { "" };
        write!(&mut out, "{borrowed}{module}.{name}")?;
        if let Some(context) = &message.context {
            show_context(&mut out, context)?;
        }
        show_body(&mut out, &message.body)?;
    }
    for holder in &plan.holders {
        show_holder(&mut out, holder)?;
    }
    Ok(out)
}

fn show_holder(out: &mut String, holder: &Holder) -> Result<(), AllocError> {
    let (name, tag) = (holder.name.as_str(), holder.tag.as_str());
    let member = match &holder.member {
        Some(member) => member.as_str(),
        None => "its tag",
    };
    writeln!(out, "{name} holds {tag}: {member}")
}

fn show_context(out: &mut String, context: &Context) -> Result<(), AllocError> {
    let name = context.name.as_str();
    write!(out, " for {name} ")?;
    show_element(out, &context.of)
}

fn show_body(out: &mut String, body: &Body) -> Result<(), AllocError> {
    match body {
        Body::Values {
            width,
            is_open,
            values,
        } => {
            let open = if *is_open { "open " } else { "" };
            write!(out, " {open}values of {width}:")?;
            for value in values {
                let name = value.name.as_str();
                let number = value.number;
                write!(out, " {name} {number}")?;
            }
            out.push('\n')
        }
        Body::Fields(fields) => {
            out.push(':')?;
            show_members(out, fields)
        }
        Body::Choice { width, variants } => {
            write!(out, " by {width}:\n")?;
            show_variants(out, variants)
        }
        Body::Sum {
            width,
            length,
            variants,
        } => {
            write!(out, " sum by {width}")?;
            if let Some(length) = length {
                write!(out, ", length of {length}")?;
            }
            out.push_str(":\n")?;
            show_variants(out, variants)
        }
    }
}

fn show_variants(out: &mut String, variants: &[Variant]) -> Result<(), AllocError> {
    for variant in variants {
        show_variant(out, variant)?;
    }
    Ok(())
}

fn show_variant(out: &mut String, variant: &Variant) -> Result<(), AllocError> {
    let name = variant.name.as_str();
    let constant = variant.constant.as_str();
    let tag = variant.tag;
    let fills = if variant.fills { " fills" } else { "" };
    write!(out, "  {name} {constant} {tag}{fills}:")?;
    show_members(out, &variant.fields)
}

fn show_members(out: &mut String, members: &[Member]) -> Result<(), AllocError> {
    for member in members {
        let name = member.name.as_str();
        write!(out, " {name} ")?;
        show_type(out, &member.of)?;
        if let Some(numbers) = &member.present_for {
            show_numbers(out, numbers)?;
        }
        show_decided(out, &member.decided)?;
        out.push(',')?;
    }
    out.push('\n')
}

fn show_numbers(out: &mut String, numbers: &[u64]) -> Result<(), AllocError> {
    out.push_str(" for")?;
    for number in numbers {
        write!(out, " {number}")?;
    }
    Ok(())
}

fn show_decided(out: &mut String, decided: &Decided) -> Result<(), AllocError> {
    match decided {
        Decided::Alone => Ok(()),
        Decided::Outside => out.push('*'),
        Decided::Before(before) => {
            let (member, tag) = (before.member.as_str(), before.tag.as_str());
            write!(out, "*{member}.{tag}")
        }
    }
}

fn show_type(out: &mut String, of: &Type) -> Result<(), AllocError> {
    show_element(out, &of.element)?;
    if of.is_optional {
        out.push('?')?;
    }
    match &of.shape {
        Shape::One => Ok(()),
        Shape::Array(count) => write!(out, "[{count}]"),
        Shape::Exact(count) => write!(out, "<={count}>"),
        Shape::Variable => out.push_str("<V>"),
        Shape::Bounded { width, least, most } => write!(out, "<{width}: {least}..{most}>"),
    }
}

fn show_element(out: &mut String, element: &Element) -> Result<(), AllocError> {
    match element {
        Element::Integer(width) => write!(out, "u{width}"),
        Element::Opaque => out.push_str("opaque"),
        Element::Text => out.push_str("text"),
        Element::Message(name) => out.push_str(name.as_str()),
        Element::Alias(name) => {
            let name = name.as_str();
            write!(out, "={name}")
        }
    }
}
