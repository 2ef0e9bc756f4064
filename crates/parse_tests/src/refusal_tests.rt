// Texts with their refusals, by hand from the table of refusals.
use crate::answers::refusal;
use std::test::Fail;
use tl_base::Place;
use tl_lex::SyntaxKind;
use tl_parse::SyntaxError;

/// Texts, and the kind, line and word of their refusals.
static REFUSALS: [(&str, SyntaxKind, u32, u32); 84] = [
    ("local x = = 1", SyntaxKind::Unexpected, 1, 4),
    // A statement that begins with Lua code in brackets goes on with what can continue it.
    ("terra f() [a] [b] end", SyntaxKind::Unexpected, 1, 11),
    ("terra f() [a] (x) = 1 end", SyntaxKind::Unexpected, 1, 11),
    ("x = 1.5", SyntaxKind::BadNumber, 1, 3),
    ("\"abc", SyntaxKind::OpenText, 1, 1),
    ("f()\n(g)()", SyntaxKind::Ambiguous, 2, 1),
    ("x = f\n(g)", SyntaxKind::Ambiguous, 2, 1),
    ("return return", SyntaxKind::Unexpected, 1, 2),
    ("return; return", SyntaxKind::Unexpected, 1, 3),
    ("break", SyntaxKind::Unexpected, 1, 1),
    (
        "while a do function f() break end end",
        SyntaxKind::Unexpected,
        1,
        8,
    ),
    ("emit x", SyntaxKind::Unexpected, 1, 1),
    ("x = function() emit y end", SyntaxKind::Unexpected, 1, 6),
    ("x = 100000000000000", SyntaxKind::BadNumber, 1, 3),
    ("x = 0x5AF3107A4000", SyntaxKind::BadNumber, 1, 3),
    ("x = 18446744073709551617", SyntaxKind::BadNumber, 1, 3),
    ("x 100000000000000", SyntaxKind::Unexpected, 1, 2),
    ("x = 5LL", SyntaxKind::Unexpected, 1, 3),
    ("x = $", SyntaxKind::BadByte, 1, 3),
    ("x = '\\300'", SyntaxKind::BadEscape, 1, 3),
    ("function f() return ... end", SyntaxKind::Unexpected, 1, 6),
    ("x", SyntaxKind::Unexpected, 1, 2),
    ("x.y", SyntaxKind::Unexpected, 1, 4),
    ("(x) = 1", SyntaxKind::Unexpected, 1, 4),
    ("x, f() = 1", SyntaxKind::Unexpected, 1, 6),
    ("f() = 1", SyntaxKind::Unexpected, 1, 4),
    ("f(), x = 1", SyntaxKind::Unexpected, 1, 4),
    ("do", SyntaxKind::Unexpected, 1, 2),
    ("end", SyntaxKind::Unexpected, 1, 1),
    ("x = {a = b = c}", SyntaxKind::Unexpected, 1, 7),
    ("x = {,}", SyntaxKind::Unexpected, 1, 4),
    ("for i = 1 do end", SyntaxKind::Unexpected, 1, 5),
    // Terra code in Lua code
    ("terra f(", SyntaxKind::Unexpected, 1, 4),
    ("terra", SyntaxKind::Unexpected, 1, 2),
    ("terra f", SyntaxKind::Unexpected, 1, 3),
    ("terra f(x) end", SyntaxKind::Unexpected, 1, 5),
    ("terra f(x : int,) end", SyntaxKind::Unexpected, 1, 8),
    ("terra f(...) end", SyntaxKind::Unexpected, 1, 4),
    ("terra f(x : A\n[e]) end", SyntaxKind::Unexpected, 2, 1),
    ("terra f() return 1 2 end", SyntaxKind::Unexpected, 1, 7),
    ("local terra f.g() end", SyntaxKind::Unexpected, 1, 4),
    ("local terra f:g() end", SyntaxKind::Unexpected, 1, 4),
    ("local struct A.b {}", SyntaxKind::Unexpected, 1, 4),
    ("local quote end", SyntaxKind::Unexpected, 1, 2),
    ("struct A:b {}", SyntaxKind::Unexpected, 1, 3),
    ("struct A { x }", SyntaxKind::Unexpected, 1, 5),
    ("struct A { , }", SyntaxKind::Unexpected, 1, 4),
    ("struct { }", SyntaxKind::Unexpected, 1, 2),
    ("quote end", SyntaxKind::Unexpected, 1, 1),
    ("`x", SyntaxKind::Unexpected, 1, 1),
    (
        "x = quote var x = 1 in x, y end",
        SyntaxKind::Unexpected,
        1,
        10,
    ),
    (
        "x = quote return x in x, y end",
        SyntaxKind::Unexpected,
        1,
        8,
    ),
    ("x = quote local x end", SyntaxKind::Unexpected, 1, 4),
    // Terra expressions
    ("x = `2147483648", SyntaxKind::BadNumber, 1, 4),
    ("x = `9223372036854775808LL", SyntaxKind::BadNumber, 1, 4),
    ("x = `18446744073709551616ULL", SyntaxKind::BadNumber, 1, 4),
    ("x = `f\n(x)", SyntaxKind::Ambiguous, 2, 1),
    ("x = `f 'x'", SyntaxKind::Unexpected, 1, 5),
    ("x = `y\n[1]", SyntaxKind::Unexpected, 2, 1),
    ("x = `#y", SyntaxKind::Unexpected, 1, 4),
    ("x = `y{a = 1, 2}", SyntaxKind::Unexpected, 1, 10),
    ("x = `y{1, a = 2}", SyntaxKind::Unexpected, 1, 9),
    ("x = `y{,}", SyntaxKind::Unexpected, 1, 6),
    ("x = `o:m", SyntaxKind::Unexpected, 1, 7),
    ("x = `o:m{}", SyntaxKind::Unexpected, 1, 7),
    ("x = `[...]", SyntaxKind::Unexpected, 1, 5),
    // Terra statements
    ("terra f() return return end", SyntaxKind::Unexpected, 1, 6),
    ("terra f() break f() end", SyntaxKind::Unexpected, 1, 6),
    ("terra f() x end", SyntaxKind::Unexpected, 1, 6),
    ("terra f() x.y end", SyntaxKind::Unexpected, 1, 8),
    ("terra f() (x) end", SyntaxKind::Unexpected, 1, 8),
    ("terra f() @f() end", SyntaxKind::Unexpected, 1, 9),
    ("terra f() var x = = 1 end", SyntaxKind::Unexpected, 1, 8),
    ("terra f() f()\n(g)() end", SyntaxKind::Ambiguous, 2, 1),
    ("terra f() x = 2147483648 end", SyntaxKind::BadNumber, 1, 7),
    ("terra f() while x end", SyntaxKind::Unexpected, 1, 7),
    ("terra f() emit x end", SyntaxKind::Unexpected, 1, 5),
    ("terra f() local x end", SyntaxKind::Unexpected, 1, 5),
    ("terra f() f() = 1 end", SyntaxKind::Unexpected, 1, 8),
    (
        "terra f() for i in x do end end",
        SyntaxKind::Unexpected,
        1,
        7,
    ),
    (
        "while a do terra f() escape break end end end",
        SyntaxKind::Unexpected,
        1,
        9,
    ),
    (
        "terra f() escape function g() emit x end end end",
        SyntaxKind::Unexpected,
        1,
        10,
    ),
    (
        "terra f() escape return ... end end",
        SyntaxKind::Unexpected,
        1,
        7,
    ),
    ("terra f() [...] end", SyntaxKind::Unexpected, 1, 6),
];

#[test]
fn refusals(rt: HostRuntime) -> Result<(), Fail> {
    for row in &REFUSALS {
        let (text, kind, line, word) = *row;
        let want = SyntaxError::Refused {
            kind,
            place: Place { line, word },
        };
        let got = refusal(&rt, rt.alloc(), text);
        assert_eq!(rt; got, Some(want), "at {text:?}");
    }
    Ok(())
}
