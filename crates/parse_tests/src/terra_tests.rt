// Texts of Terra code with their trees, by hand from the rules of the language.
use crate::answers::answer;
use std::test::Fail;

/// Expressions of Terra code and their trees.
static EXPRESSIONS: [(&str, &str); 34] = [
    (
        "not a == b << c + d * @p",
        "(== (not a) (<< b (+ c (* d (@ p)))))",
    ),
    (
        "a or b and c < d << e + g * -h ^ i ^ j",
        "(or a (and b (< c (<< d (+ e (* g (neg (^ (^ h i) j))))))))",
    ),
    ("a ^ b ^ c", "(^ (^ a b) c)"),
    ("a ^ -b ^ c", "(^ a (neg (^ b c)))"),
    ("-a ^ b", "(neg (^ a b))"),
    ("a - b - c", "(- (- a b) c)"),
    ("a % b / c >> d >> e", "(>> (>> (/ (% a b) c) d) e)"),
    ("a < b == c", "(== (< a b) c)"),
    ("&x.y", "(& (. x y))"),
    ("@p + 1", "(+ (@ p) 1)"),
    ("nil", "nil"),
    ("true and false", "(and true false)"),
    ("2147483647", "2147483647"),
    ("9223372036854775807LL", "9223372036854775807LL"),
    ("18446744073709551615ULL", "18446744073709551615ULL"),
    ("'s'", "'s'"),
    ("f(x, 1)(y)", "(call (call f x 1) y)"),
    ("a.b:c(d)[e]", "([] (: (. a b) c d) e)"),
    ("o.[e]", "(. o (escape e))"),
    ("o:[e](x)", "(: o (escape e) x)"),
    ("[e](x)", "(call (escape e) x)"),
    ("[f(x)].a", "(. (escape (call f x)) a)"),
    ("[a .. b ^ c ^ d]", "(escape (.. a (^ b (^ c d))))"),
    ("(a)", "(paren a)"),
    ("(a + b).c", "(. (paren (+ a b)) c)"),
    ("x{}", "(make x)"),
    ("x{1, 2}", "(make x 1 2)"),
    ("x{1; 2,}", "(make x 1 2)"),
    ("x{a = 1}", "(make x (a = 1))"),
    ("x{a = 1; b = 2}", "(make x (a = 1) (b = 2))"),
    ("x{a}", "(make x a)"),
    ("x{a, b}", "(make x a b)"),
    ("a + b", "(+ a b)"),
    ("[x] + 5LL", "(+ (escape x) 5LL)"),
];

/// Blocks of Terra code and their trees.
static BLOCKS: [(&str, &str); 31] = [
    ("", "[]"),
    ("return", "[(return)]"),
    ("return x, 1;", "[(return x 1)]"),
    ("break;", "[break]"),
    ("f(x); g()", "[(perform (call f x)) (perform (call g))]"),
    ("x, a.b, c[1] = 1, 2", "[(= (x (. a b) ([] c 1)) (1 2))]"),
    ("@p, x = 1", "[(= ((@ p) x) (1))]"),
    ("(x) = 1", "[(= ((paren x)) (1))]"),
    ("(f)(x)", "[(perform (call (paren f) x))]"),
    ("[e]", "[(splice (escape e))]"),
    ("[e], x = 1", "[(= ((escape e) x) (1))]"),
    ("[e](x)", "[(perform (call (escape e) x))]"),
    ("x = a\n[e]", "[(= (x) (a)) (splice (escape e))]"),
    ("x = a[e]", "[(= (x) (([] a e)))]"),
    ("o:[e](x)", "[(perform (: o (escape e) x))]"),
    ("do return end", "[(do [(return)])]"),
    (
        "while x do f() break end",
        "[(while x [(perform (call f)) break])]",
    ),
    ("repeat f() until x", "[(repeat [(perform (call f))] x)]"),
    (
        "if a then f() elseif b then else g() end",
        "[(if (a [(perform (call f))]) (b []) (else [(perform (call g))]))]",
    ),
    ("if a then end", "[(if (a []))]"),
    ("for i = 0, n do end", "[(for i 0 n [])]"),
    ("for [i] = 0, n do end", "[(for (escape i) 0 n [])]"),
    ("for [i] = 0, n, 2 do end", "[(for (escape i) 0 n 2 [])]"),
    ("var x : int, y = 1, 2", "[(var ((x : int) y) (1 2))]"),
    ("var x", "[(var (x) ())]"),
    (
        "var [syms] = [vals]",
        "[(var ((escape syms)) ((escape vals)))]",
    ),
    (
        "var x : int\n[e]",
        "[(var ((x : int)) ()) (splice (escape e))]",
    ),
    ("var x : int[2]", "[(var ((x : ([] int 2))) ())]"),
    (
        "var x : f(a[1])\n[e]",
        "[(var ((x : (call f ([] a 1)))) ()) (splice (escape e))]",
    ),
    ("escape end", "[(escape [])]"),
    (
        "escape emit quote end end",
        "[(escape [(emit (quote []))])]",
    ),
];

/// Texts with Terra code, and their trees.
static TEXTS: [(&str, &str); 28] = [
    (
        "local terra f(x : int) : {int} -> int return x end",
        "[(local terra f (((x : int)) : (-> {int} int) [(return x)]))]",
    ),
    (
        "terra f(self : &S, [ps]) f() end",
        "[(terra f (((self : (& S)) (splice (escape ps))) [(perform (call f))]))]",
    ),
    (
        "terra f(x : int) : int\n[e] end",
        "[(terra f (((x : int)) : int [(splice (escape e))]))]",
    ),
    (
        "terra S.methods.m(self : &S) end",
        "[(terra S.methods.m (((self : (& S))) []))]",
    ),
    ("terra S:m() end", "[(terra S:m (() []))]"),
    ("terra f :: {int} -> int", "[(terra :: f (-> {int} int))]"),
    ("local terra f :: int", "[(local terra :: f int)]"),
    (
        "struct A { x : int, y : &A; }",
        "[(struct A {(x : int) (y : (& A))})]",
    ),
    ("struct a.b {}", "[(struct a.b {})]"),
    (
        "local struct A { x : int y : int }",
        "[(local struct A {(x : int) (y : int)})]",
    ),
    (
        "struct A { x : int\n[2] }",
        "[(struct A {(x : ([] int 2))})]",
    ),
    (
        "x = struct { x : int, y : &A; }",
        "[(= (x) ((struct {(x : int) (y : (& A))})))]",
    ),
    (
        "x = { struct {}, `f(1) }",
        "[(= (x) ({(struct {}) (` (call f 1))}))]",
    ),
    (
        "x = terra(x : int) return x end",
        "[(= (x) ((terra (((x : int)) [(return x)]))))]",
    ),
    ("x = quote end", "[(= (x) ((quote [])))]"),
    (
        "x = quote f(x) end",
        "[(= (x) ((quote [(perform (call f x))])))]",
    ),
    (
        "x = quote f(x) in x end",
        "[(= (x) ((quote [(perform (call f x))] in x)))]",
    ),
    (
        "x = quote var x = 1 in x end",
        "[(= (x) ((quote [(var (x) (1))] in x)))]",
    ),
    ("return terra() end", "[(return (terra (() [])))]"),
    ("return struct {}", "[(return (struct {}))]"),
    ("return quote end", "[(return (quote []))]"),
    ("return `x", "[(return (` x))]"),
    ("x = `a .. b", "[(= (x) ((.. (` a) b)))]"),
    ("f(`a + b, c)", "[(perform (call f (` (+ a b)) c))]"),
    (
        "terra f() end f()",
        "[(terra f (() [])) (perform (call f))]",
    ),
    (
        "terra f() [function(...) return ... end] end",
        "[(terra f (() [(splice (escape (function ((...) [(return ...)]))))]))]",
    ),
    (
        "terra f() escape for i = 1, 2 do emit `i break end end end",
        "[(terra f (() [(escape [(for i 1 2 [(emit (` i)) break])])]))]",
    ),
    (
        "terra f() escape function g() return 1 end emit g end end",
        "[(terra f (() [(escape [(function g (() [(return 1)])) (emit g)])]))]",
    ),
];

#[test]
fn trees_of_terra(rt: HostRuntime) -> Result<(), Fail> {
    let alloc = rt.alloc();
    for row in &EXPRESSIONS {
        let (code, tree) = *row;
        let text = format!(in alloc; "x = `{code}")?;
        let want = format!(in alloc; "[(= (x) ((` {tree})))]")?;
        let got = answer(&rt, alloc, text.as_str())?;
        assert_eq!(rt; got.as_str(), want.as_str(), "at {code:?}");
    }
    for row in &BLOCKS {
        let (code, tree) = *row;
        let text = format!(in alloc; "terra f() {code} end")?;
        let want = format!(in alloc; "[(terra f (() {tree}))]")?;
        let got = answer(&rt, alloc, text.as_str())?;
        assert_eq!(rt; got.as_str(), want.as_str(), "at {code:?}");
    }
    for row in &TEXTS {
        let (text, want) = *row;
        let got = answer(&rt, alloc, text)?;
        assert_eq!(rt; got.as_str(), want, "at {text:?}");
    }
    Ok(())
}
