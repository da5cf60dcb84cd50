// What is read of a text, and what is printed of that.
use super::{framing, inputs, same, same_at, signed};
use std::alloc::Global;
use std::process::Abort;
use std::test::Fail;
use tlsgen_syntax::lexer::lex;
use tlsgen_syntax::parser::parse_source;
use tlsgen_syntax::print::print;
use tlsgen_syntax::rejection::{Rejection, Trouble};
use tlsgen_syntax::source::Source;

fn source_of(rt: &impl Abort, alloc: Global, text: &str) -> Source {
    match parse_source(alloc, text) {
        Ok(source) => source,
        Err(Trouble::Rejected(rejection)) => panic!(rt; "{rejection}"),
        Err(Trouble::Memory) => panic!(rt; "out of memory"),
        Err(Trouble::Inconsistent) => panic!(rt; "a fault of tlsgen"),
    }
}

pub fn rejection_of(rt: &impl Abort, alloc: Global, text: &str) -> Rejection {
    match parse_source(alloc, text) {
        Ok(_) => panic!(rt; "it parses"),
        Err(Trouble::Rejected(rejection)) => rejection,
        Err(Trouble::Memory) => panic!(rt; "out of memory"),
        Err(Trouble::Inconsistent) => panic!(rt; "a fault of tlsgen"),
    }
}

// The tokens of a text without their places, one a line.
fn signs_of(rt: &impl Abort, alloc: Global, text: &str) -> Result<String, Fail> {
    let mut signs = String::new(alloc);
    let Ok(tokens) = lex(alloc, text) else {
        panic!(rt; "no tokens");
    };
    for token in &tokens {
        let kind = &token.kind;
        writeln!(signs, "{kind}")?;
    }
    Ok(signs)
}

// The printed text has the signs of the text, and so says the same, as `parse_tokens` ensures.
#[test]
fn what_is_printed_says_the_same(rt: HostRuntime) -> Result<(), Fail> {
    for text in [
        inputs::SHAPES,
        inputs::TLS13,
        framing::FRAMING_RFC,
        framing::FRAMING,
        inputs::MLS,
        inputs::ALERT,
        signed::TIMESTAMPS,
    ] {
        let source = source_of(&rt, rt.alloc(), text);
        let printed = print(rt.alloc(), &source)?;
        let signs = signs_of(&rt, rt.alloc(), text)?;
        let again = signs_of(&rt, rt.alloc(), &printed)?;
        same(&rt, signs.as_str(), again.as_str());
        let again = source_of(&rt, rt.alloc(), &printed);
        let twice = print(rt.alloc(), &again)?;
        same(&rt, printed.as_str(), twice.as_str());
    }
    Ok(())
}

#[test]
fn one_layout(rt: HostRuntime) -> Result<(), Fail> {
    let text =
        "enum{a(0x10),2^9(3),r(17..0x1f),(2^8-1)}A;open enum { b.1 ( 1 ) } B.2 ; borrowed struct{}E;opaque K<V>;optional<K>C[2];K D[A.b.c];// the end
struct{A a=b;uint8 n=0x0a;C b={1,2};optional<C>c<0..2^16-1>;select(S.a.b){case a:case 7:uint8 x;K k[2];case y:K;case z:struct{};}select(S.a){}N;}S;digitally-signed struct{A a;}F;struct{digitally-signed struct{A a;select(a){case b:K;}s;}k;digitally-signed struct{};}G;struct{enum{a(1)}k;open enum{2(1),(255)}l<V>;struct{opaque a[2];select(k){case a:K;}}i[2];struct{}j;}H;";
    let want = "enum { a(16), 512(3), r(17..31), (255) } A;
open enum { b.1(1) } B.2;
borrowed struct {
} E;
opaque K<V>;
optional<K> C[2];
K D[A.b.c];
struct {
    A a = b;
    uint8 n = 10;
    C b = {1, 2};
    optional<C> c<0..65535>;
    select (S.a.b) {
        case a:
        case 7:
            uint8 x;
            K k[2];
        case y:
            K;
        case z:
            struct {};
    }
    select (S.a) {
    } N;
} S;
digitally-signed struct {
    A a;
} F;
struct {
    digitally-signed struct {
        A a;
        select (a) {
            case b:
                K;
        } s;
    } k;
    digitally-signed struct {
    };
} G;
struct {
    enum { a(1) } k;
    open enum { 2(1), (255) } l<V>;
    struct {
        opaque a[2];
        select (k) {
            case a:
                K;
        }
    } i[2];
    struct {
    } j;
} H;
";
    let source = source_of(&rt, rt.alloc(), text);
    let printed = print(rt.alloc(), &source)?;
    same(&rt, printed.as_str(), want);
    Ok(())
}

// Each text, and what is printed of it. A comment goes on at a `*` or a `/` alone.
static COMMENTS: [(&str, &str); 6] = [
    ("/* a * b / c */ uint8 A;", "uint8 A;\n"),
    ("/* a / b * c */ uint8 A;", "uint8 A;\n"),
    ("/**/uint8 A;/***/uint8 B;", "uint8 A;\nuint8 B;\n"),
    ("/*/ uint8 A; */uint8 B;", "uint8 B;\n"),
    ("/* uint8 A; */uint8 B;/* uint8 C; */", "uint8 B;\n"),
    ("// uint8 A; /*\nuint8 B;// */ uint8 C;", "uint8 B;\n"),
];

#[test]
fn comments(rt: HostRuntime) -> Result<(), Fail> {
    for (text, want) in &COMMENTS {
        let source = source_of(&rt, rt.alloc(), text);
        let printed = print(rt.alloc(), &source)?;
        same_at(&rt, *text, printed.as_str(), *want);
    }
    Ok(())
}

#[test]
fn numbers(rt: HostRuntime) -> Result<(), Fail> {
    let source = source_of(
        &rt,
        rt.alloc(),
        "uint8 a<0x0A..2^64-1>; uint8 b<00..18446744073709551615>; uint8 c<7^2..5-5>;",
    );
    let printed = print(rt.alloc(), &source)?;
    same(
        &rt,
        printed.as_str(),
        "uint8 a<10..18446744073709551615>;\nuint8 b<0..18446744073709551615>;\nuint8 c<49..0>;\n",
    );
    Ok(())
}

#[test]
fn many_brackets_are_rejected(rt: HostRuntime) -> Result<(), Fail> {
    for (byte, found) in [('{', "{"), ('<', "<")] {
        let mut text = String::new(rt.alloc());
        for _ in 0..1 << 17 {
            text.push(byte)?;
        }
        let rejection = rejection_of(&rt, rt.alloc(), &text);
        same(&rt, rejection.place.line, 1);
        same(&rt, rejection.place.column, 1);
        same(&rt, rejection.found.as_str(), found);
    }
    Ok(())
}
