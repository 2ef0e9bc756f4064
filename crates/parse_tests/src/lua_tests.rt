// Texts of Lua code with their trees, by hand from the rules of the language.
use crate::answers::answer;
use std::test::Fail;

static TREES: [(&str, &str); 39] = [
    ("", "[]"),
    (
        "x = a or b and c < d .. e .. f + g * -h ^ i ^ j",
        "[(= (x) ((or a (and b (< c (.. d (.. e (+ f (* g (neg (^ h (^ i j))))))))))))]",
    ),
    (
        "x = a + b - c * d / e % f",
        "[(= (x) ((- (+ a b) (% (/ (* c d) e) f))))]",
    ),
    ("x = -2 ^ -3 ^ 2", "[(= (x) ((neg (^ 2 (neg (^ 3 2))))))]"),
    ("x = not a == b", "[(= (x) ((== (not a) b)))]"),
    (
        "x = #a .. &b -> c -> d",
        "[(= (x) ((-> (.. (len a) (& b)) (-> c d))))]",
    ),
    (
        "x = a ~= b <= c >= d > e",
        "[(= (x) ((> (>= (<= (~= a b) c) d) e)))]",
    ),
    ("f{1, 2;}", "[(perform (call f {1 2}))]"),
    ("f\"s\"", "[(perform (call f \"s\"))]"),
    (
        "f 's' {} (1)",
        "[(perform (call (call (call f 's') {}) 1))]",
    ),
    ("a.b:c(d)[e]()", "[(perform (call ([] (: (. a b) c d) e)))]"),
    ("x = a.b:c(d)[e]", "[(= (x) (([] (: (. a b) c d) e)))]"),
    (
        "o:m{} o:m's'",
        "[(perform (: o m {})) (perform (: o m 's'))]",
    ),
    ("(f)(g)", "[(perform (call (paren f) g))]"),
    (
        "x = nil, true, false, ..., 0x1F",
        "[(= (x) (nil true false ... 0x1F))]",
    ),
    (
        "x = {a, b = c, [d] = e, (f), f.g}",
        "[(= (x) ({a (b = c) ([d] = e) (paren f) (. f g)}))]",
    ),
    (
        "a, b.c, d[e], (f).g, h().i = 1",
        "[(= (a (. b c) ([] d e) (. (paren f) g) (. (call h) i)) (1))]",
    ),
    (
        "do local a local b, c = 1, 2; end;",
        "[(do [(local (a) ()) (local (b c) (1 2))])]",
    ),
    ("while a do break end", "[(while a [break])]"),
    ("while a do break; end", "[(while a [break])]"),
    ("repeat local a until a", "[(repeat [(local (a) ())] a)]"),
    (
        "if a then elseif b then c() elseif d then else e() end",
        "[(if (a []) (b [(perform (call c))]) (d []) (else [(perform (call e))]))]",
    ),
    ("if a then end", "[(if (a []))]"),
    ("for i = 1, 2 do end", "[(for i 1 2 [])]"),
    ("for i = 1, 2, 3 do break end", "[(for i 1 2 3 [break])]"),
    ("for a, b in c, d do end", "[(for (a b) in (c d) [])]"),
    ("function a.b.c:d(x) end", "[(function a.b.c:d ((x) []))]"),
    (
        "function a.b.c:d(...) end",
        "[(function a.b.c:d ((...) []))]",
    ),
    (
        "function f(...) return ... end",
        "[(function f ((...) [(return ...)]))]",
    ),
    (
        "local function f(a, b, ...) end",
        "[(local function f ((a b ...) []))]",
    ),
    ("x = function() end", "[(= (x) ((function (() []))))]"),
    ("return", "[(return)]"),
    ("return 1, f();", "[(return 1 (call f))]"),
    ("return a + b, -c", "[(return (+ a b) (neg c))]"),
    ("# first line\nreturn", "[(return)]"),
    ("o:m\n(1)", "[(perform (: o m 1))]"),
    ("function f\n() end", "[(function f (() []))]"),
    (
        "x = 99999999999999 -- comment",
        "[(= (x) (99999999999999))]",
    ),
    ("x = a\n[b]", "[(= (x) (([] a b)))]"),
];

#[test]
fn trees_of_lua(rt: HostRuntime) -> Result<(), Fail> {
    for row in &TREES {
        let (text, want) = *row;
        let got = answer(&rt, rt.alloc(), text)?;
        assert_eq!(rt; got.as_str(), want, "at {text:?}");
    }
    Ok(())
}
