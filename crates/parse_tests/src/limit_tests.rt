// Texts at the limits on nesting and on chains, with their refusals, by hand from the rules.
use crate::answers::refusal;
use std::alloc::Global;
use std::test::Fail;

/// A text: what it begins with, a part and how often it stands, what is inside, what closes each part, what the text
/// ends with, and its refusal, or nothing where it has a tree.
static LIMITS: [(&str, &str, u32, &str, &str, &str, &str); 41] = [
    ("", "do ", 100, "", "end ", "", ""),
    ("", "do ", 101, "", "end ", "", "syntax TooDeep at 1:101"),
    ("", "do ", 100, "", "", "", "syntax Unexpected at 1:101"),
    ("x = ", "(", 100, "y", ")", "", ""),
    ("x = ", "(", 101, "y", ")", "", "syntax TooDeep at 1:103"),
    ("x = ", "(", 100, "", "", "", "syntax Unexpected at 1:103"),
    ("x = ", "- ", 100, "y", "", "", ""),
    ("x = ", "- ", 101, "y", "", "", "syntax TooDeep at 1:103"),
    ("x = ", "{", 101, "", "", "", "syntax TooDeep at 1:103"),
    ("x = a", " .. a", 100, "", "", "", ""),
    ("x = a", " .. a", 101, "", "", "", "syntax TooDeep at 1:204"),
    ("x = a", " + a", 1000, "", "", "", ""),
    (
        "x = a",
        " + a",
        1001,
        "",
        "",
        "",
        "syntax TooDeep at 1:2004",
    ),
    ("x = a", " < a", 500, " + a * a", "", "", ""),
    ("f", "()", 1000, "", "", "", ""),
    ("f", "()", 1001, "", "", "", "syntax TooDeep at 1:2002"),
    (
        "",
        "x = 1 ",
        5000,
        "y",
        "",
        "",
        "syntax Unexpected at 1:15002",
    ),
    // the word `while` still fits where its `do` does not
    (
        "",
        "do ",
        100,
        "while x",
        "",
        "",
        "syntax Unexpected at 1:103",
    ),
    (
        "",
        "do ",
        100,
        "while x do",
        "",
        "",
        "syntax TooDeep at 1:103",
    ),
    // a function is one level: its body and the block of it
    ("x = ", "(", 99, "function() return y end", ")", "", ""),
    (
        "x = ",
        "(",
        99,
        "function() do end end",
        ")",
        "",
        "syntax TooDeep at 1:105",
    ),
    (
        "x = ",
        "(",
        100,
        "function() end",
        ")",
        "",
        "syntax TooDeep at 1:104",
    ),
    ("x = ", "(", 99, "terra() return y end", ")", "", ""),
    (
        "x = ",
        "(",
        99,
        "terra() do end end",
        ")",
        "",
        "syntax TooDeep at 1:105",
    ),
    (
        "x = ",
        "(",
        100,
        "terra() end",
        ")",
        "",
        "syntax TooDeep at 1:104",
    ),
    ("x = ", "(", 99, "quote var y in y end", ")", "", ""),
    (
        "x = ",
        "(",
        100,
        "quote end",
        ")",
        "",
        "syntax TooDeep at 1:103",
    ),
    ("x = ", "(", 100, "`y", ")", "", "syntax TooDeep at 1:103"),
    (
        "x = ",
        "(",
        100,
        "struct {}",
        ")",
        "",
        "syntax TooDeep at 1:104",
    ),
    // in Terra code
    ("terra f() ", "do ", 99, "", "end ", "end", ""),
    (
        "terra f() ",
        "do ",
        100,
        "",
        "end ",
        "end",
        "syntax TooDeep at 1:104",
    ),
    ("x = `", "@", 99, "y", "", "", ""),
    ("x = `", "@", 100, "y", "", "", "syntax TooDeep at 1:103"),
    ("x = `", "(", 100, "y", ")", "", "syntax TooDeep at 1:103"),
    ("x = `", "y{", 100, "", "}", "", "syntax TooDeep at 1:203"),
    ("x = `", "f(", 100, "", ")", "", "syntax TooDeep at 1:203"),
    ("x = `y", "+y", 1000, "", "", "", ""),
    ("x = `y", "+y", 1001, "", "", "", "syntax TooDeep at 1:2005"),
    ("x = `y", ".y", 1000, "", "", "", ""),
    ("x = `y", "^y", 1001, "", "", "", "syntax TooDeep at 1:2005"),
    ("x = `y", ".y", 1001, "", "", "", "syntax TooDeep at 1:2005"),
];

/// Adds a part so many times.
fn repeat(out: &mut String, part: &str, count: u32) -> Result<(), Fail> {
    for _ in 0..count {
        out.push_str(part)?;
    }
    Ok(())
}

fn text_with(
    alloc: Global,
    open: &str,
    part: &str,
    count: u32,
    inside: &str,
    close: &str,
    end: &str,
) -> Result<String, Fail> {
    let mut out = String::new(alloc);
    out.push_str(open)?;
    repeat(&mut out, part, count)?;
    out.push_str(inside)?;
    out.push_str(" ")?;
    repeat(&mut out, close, count)?;
    out.push_str(end)?;
    Ok(out)
}

#[test]
fn limits(rt: HostRuntime) -> Result<(), Fail> {
    let alloc = rt.alloc();
    for row in &LIMITS {
        let (open, part, count, inside, close, end, want) = *row;
        let text = text_with(alloc, open, part, count, inside, close, end)?;
        let got = match refusal(&rt, alloc, text.as_str()) {
            Some(e) => format!(in alloc; "{e}")?,
            None => String::new(alloc),
        };
        assert_eq!(rt; got.as_str(), want, "at {open}{part} {count} {inside}");
    }
    Ok(())
}
