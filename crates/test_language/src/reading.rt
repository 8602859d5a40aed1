use alb_io::MemSink;
use alb_lex::tokens;
use alb_mono::Letters;
use alb_print::{write_mono, write_poly};
use alb_syntax::{SyntaxError, read_mono, read_poly};
use gf_field::Field;
use std::alloc::Global;
use std::test::Fail;

// Whether a line says the polynomial with this text, over 5 elements and the letters a, b, c.
fn says(alloc: Global, line: &str, text: &str) -> Result<bool, Fail> {
    let bytes = line.as_bytes();
    if 65536 < bytes.len() {
        return Err("the line is too long".into());
    }
    let field = Field::of(5)?;
    let letters = Letters::of(b"abc");
    let list = tokens(alloc, bytes, 0)?;
    let f = read_poly(alloc, &list, bytes.len() as u32 + 1, &letters, &field)?;
    let mut sink = MemSink::new(alloc, 100, Vec::new(alloc));
    write_poly(&mut sink, &field, &letters, &f)?;
    Ok(sink.bytes() == text.as_bytes())
}

/// Lines and the texts of their polynomials: over 5 elements 4 is -1, and 3 is -2.
const POLYNOMIALS: [(&str, &str); 39] = [
    ("a", "a"),
    ("+a", "a"),
    ("-a", "-a"),
    ("a+b", "b + a"),
    ("a-b", "-b + a"),
    ("a-a", "0"),
    ("a + 0 - b", "-b + a"),
    ("-0+a", "a"),
    ("0", "0"),
    ("0a", "0"),
    ("1a", "a"),
    ("7a", "2a"),
    ("5a", "0"),
    ("3 a", "-2a"),
    ("000000000000000007a", "2a"),
    ("999999999999999999a", "-a"),
    ("\ta\t+\r b \r", "b + a"),
    ("a b", "ab"),
    ("abc", "(ab)c"),
    ("a(bc)", "a(bc)"),
    ("((a))", "a"),
    ("a^1", "a"),
    ("a^3", "(aa)a"),
    ("ab^2", "a(bb)"),
    ("(ab)^2", "(ab)(ab)"),
    ("(a-a)^64", "0"),
    ("a*b", "ba + ab"),
    ("a*a", "2aa"),
    ("ab*c", "(ab)c + c(ab)"),
    ("a*b*c", "(ba)c + (ab)c + c(ba) + c(ab)"),
    ("(a,b,c)", "(ab)c - a(bc)"),
    ("[a,b]", "-ba + ab"),
    ("[a,b]-ab+ba", "0"),
    ("(a+b)c", "bc + ac"),
    ("2(a+b)", "2b + 2a"),
    ("(a+a)(b+b)", "-ab"),
    ("(a+b)^2", "bb + ba + ab + aa"),
    ("2ab - 3ba + ab", "2ba - 2ab"),
    ("-2a*b-c", "-2ba - 2ab - c"),
];

#[test]
fn polynomials(rt: HostRuntime) -> Result<(), Fail> {
    for (line, text) in &POLYNOMIALS {
        assert!(rt; says(rt.alloc(), line, text)?);
    }
    Ok(())
}

// The first fault of a line.
fn fault(alloc: Global, line: &str) -> Result<SyntaxError, Fail> {
    let bytes = line.as_bytes();
    if 65536 < bytes.len() {
        return Err("the line is too long".into());
    }
    let field = Field::of(5)?;
    let letters = Letters::of(b"abc");
    let list = tokens(alloc, bytes, 0)?;
    match read_poly(alloc, &list, bytes.len() as u32 + 1, &letters, &field) {
        Ok(_) => Err("the line is read".into()),
        Err(e) => Ok(e),
    }
}

const EXPECTED: [(&str, u32); 32] = [
    ("", 1),
    ("  \r", 4),
    ("+", 2),
    ("a+", 3),
    ("a++b", 3),
    ("a-*b", 3),
    ("1", 2),
    ("5+a", 2),
    ("0 0", 3),
    ("2 3a", 3),
    ("a2", 2),
    ("*a", 1),
    ("a*", 3),
    ("^2", 1),
    ("a^", 3),
    ("a^b", 3),
    ("a^d", 3),
    ("a^0", 3),
    ("a^65", 3),
    ("a^2^3", 4),
    ("()", 2),
    ("(a", 3),
    ("(a]", 3),
    ("(a,b)", 5),
    ("(a,b,c", 7),
    ("(a,b,c,a)", 7),
    ("[a]", 3),
    ("[a,b)", 5),
    ("[a,b,c]", 5),
    ("a)", 2),
    ("a,b", 2),
    ("(a^40,a^40", 11),
];

#[test]
fn what_cannot_go_on(rt: HostRuntime) -> Result<(), Fail> {
    for (line, place) in &EXPECTED {
        let wanted = SyntaxError::Expected { place: *place };
        assert!(rt; fault(rt.alloc(), line)? == wanted);
    }
    Ok(())
}

const LIMITS: [(&str, SyntaxError); 22] = [
    ("d", SyntaxError::UnknownLetter { place: 1 }),
    ("ad", SyntaxError::UnknownLetter { place: 2 }),
    ("2d+", SyntaxError::UnknownLetter { place: 2 }),
    ("a*d", SyntaxError::UnknownLetter { place: 3 }),
    ("(a,b,d)", SyntaxError::UnknownLetter { place: 6 }),
    ("a^64a", SyntaxError::TooHigh { place: 5 }),
    ("a^33(a^32)", SyntaxError::TooHigh { place: 5 }),
    ("a^40a^40)", SyntaxError::TooHigh { place: 5 }),
    ("a^40a^40d", SyntaxError::TooHigh { place: 5 }),
    ("a^40 d", SyntaxError::UnknownLetter { place: 6 }),
    ("a^40*a^40", SyntaxError::TooHigh { place: 5 }),
    ("(aa)^33", SyntaxError::TooHigh { place: 5 }),
    ("[a^40,a^40]", SyntaxError::TooHigh { place: 1 }),
    ("[a^40,a^40", SyntaxError::TooHigh { place: 1 }),
    ("(a^40,a^20,a^20)", SyntaxError::TooHigh { place: 1 }),
    ("b(a^40,a^40,a)", SyntaxError::TooHigh { place: 2 }),
    ("(a^40,a^40,a", SyntaxError::TooHigh { place: 1 }),
    ("(a^40,a^40,d)", SyntaxError::UnknownLetter { place: 12 }),
    ("(a+b)^9*(a+b)^9", SyntaxError::TooManyTerms { place: 8 }),
    (
        "((a+b)^9a^24)((a+b)^9a^24)",
        SyntaxError::TooHigh { place: 14 },
    ),
    ("a(bd", SyntaxError::UnknownLetter { place: 4 }),
    ("ad2", SyntaxError::UnknownLetter { place: 2 }),
];

#[test]
fn letters_and_limits(rt: HostRuntime) -> Result<(), Fail> {
    for (line, wanted) in &LIMITS {
        assert!(rt; fault(rt.alloc(), line)? == *wanted);
    }
    Ok(())
}

// The front n times, then the middle, then the back n times.
fn nested(alloc: Global, n: usize, front: &str, middle: &str, back: &str) -> Result<String, Fail> {
    let mut text = String::new(alloc);
    for _ in 0..n {
        text.push_str(front)?;
    }
    text.push_str(middle)?;
    for _ in 0..n {
        text.push_str(back)?;
    }
    Ok(text)
}

const DEEP: [(usize, &str, &str, &str, SyntaxError); 4] = [
    (65, "(", "a", ")", SyntaxError::TooDeep { place: 65 }),
    (64, "(", "[", "", SyntaxError::TooDeep { place: 65 }),
    (64, "(", "d", "", SyntaxError::UnknownLetter { place: 65 }),
    (32767, "a+", "", "", SyntaxError::Expected { place: 65535 }),
];

#[test]
fn nesting(rt: HostRuntime) -> Result<(), Fail> {
    let alloc = rt.alloc();
    for (n, front, middle, back, wanted) in &DEEP {
        let line = nested(alloc, *n, front, middle, back)?;
        assert!(rt; fault(alloc, line.as_str())? == *wanted);
    }
    // The deepest line, and one of the greatest length.
    let deepest = nested(alloc, 64, "(", "a", ")")?;
    assert!(rt; says(alloc, deepest.as_str(), "a")?);
    let longest = nested(alloc, 32767, "a+", "a", "")?;
    assert!(rt; says(alloc, longest.as_str(), "-2a")?);
    Ok(())
}

// What a line says as a monomial: its text, or its first fault.
fn monomial(alloc: Global, line: &str) -> Result<Result<MemSink, SyntaxError>, Fail> {
    let bytes = line.as_bytes();
    if 65536 < bytes.len() {
        return Err("the line is too long".into());
    }
    let letters = Letters::of(b"abc");
    let list = tokens(alloc, bytes, 0)?;
    match read_mono(alloc, &list, bytes.len() as u32 + 1, &letters) {
        Ok(m) => {
            let mut sink = MemSink::new(alloc, 100, Vec::new(alloc));
            write_mono(&mut sink, &letters, &m)?;
            Ok(Ok(sink))
        }
        Err(e) => Ok(Err(e)),
    }
}

const MONOMIALS: [(&str, &str); 6] = [
    ("a", "a"),
    (" a\tb ", "ab"),
    ("abc", "(ab)c"),
    ("a(bc)", "a(bc)"),
    ("((a))", "a"),
    ("(ab)(ca)", "(ab)(ca)"),
];

const NO_MONOMIALS: [(&str, SyntaxError); 12] = [
    ("", SyntaxError::Expected { place: 1 }),
    ("(", SyntaxError::Expected { place: 2 }),
    ("()", SyntaxError::Expected { place: 2 }),
    ("(a", SyntaxError::Expected { place: 3 }),
    ("a)", SyntaxError::Expected { place: 2 }),
    ("a+b", SyntaxError::Expected { place: 2 }),
    ("2a", SyntaxError::Expected { place: 1 }),
    ("a^2", SyntaxError::Expected { place: 2 }),
    ("[a,b]", SyntaxError::Expected { place: 1 }),
    ("a[b", SyntaxError::Expected { place: 2 }),
    ("d", SyntaxError::UnknownLetter { place: 1 }),
    ("a(bd", SyntaxError::UnknownLetter { place: 4 }),
];

const DEEP_MONOMIALS: [(usize, &str, &str, &str, SyntaxError); 4] = [
    (65, "(", "a", ")", SyntaxError::TooDeep { place: 65 }),
    (64, "a", "", "a", SyntaxError::TooHigh { place: 65 }),
    (32, "a", "a(", "a", SyntaxError::Expected { place: 67 }),
    (33, "a", "(", "a", SyntaxError::Expected { place: 68 }),
];

#[test]
fn monomials(rt: HostRuntime) -> Result<(), Fail> {
    for (line, text) in &MONOMIALS {
        let said = monomial(rt.alloc(), line)?;
        assert!(rt; matches!(&said, Ok(sink) if sink.bytes() == text.as_bytes()));
    }
    Ok(())
}

#[test]
fn no_monomials(rt: HostRuntime) -> Result<(), Fail> {
    for (line, wanted) in &NO_MONOMIALS {
        assert!(rt; monomial(rt.alloc(), line)?.err() == Some(*wanted));
    }
    Ok(())
}

#[test]
fn deep_monomials(rt: HostRuntime) -> Result<(), Fail> {
    let alloc = rt.alloc();
    for (n, front, middle, back, wanted) in &DEEP_MONOMIALS {
        let line = nested(alloc, *n, front, middle, back)?;
        assert!(rt; monomial(alloc, line.as_str())?.err() == Some(*wanted));
    }
    Ok(())
}
