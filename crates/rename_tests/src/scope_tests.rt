// Uses of names, with what each finds.
use std::alloc::Global;
use std::process::Abort;
use std::test::Fail;
use tl_base::{NodeId, Place};
use tl_lex::LONGEST_TEXT;
use tl_parse::parse;
use tl_rename::resolve;
use tl_tree::{Node, Tree};

/// What a use finds: how many owners to go outwards, the position there, and the word of the name that is declared, or 0 for an implicit
/// `self`.
type Finds = Option<(u32, u32, u32)>;

/// A text of one line, the word at which a name stands in it, and what the name finds.
static ROWS: [(&str, u32, Finds); 50] = [
    // a local's scope begins after its statement
    (
        "local function f() return x end local x = 5 print(f())",
        7,
        None,
    ),
    (
        "local function f() return x end local x = 5 print(f())",
        15,
        Some((0, 0, 3)),
    ),
    ("local x = x", 4, None),
    ("local x = 1 local x = x return x", 8, Some((0, 0, 2))),
    ("local x = 1 local x = x return x", 10, Some((0, 1, 6))),
    ("local a, a = 1, a print(a)", 8, None),
    ("local a, a = 1, a print(a)", 11, Some((0, 1, 4))),
    ("do local x = 1 end return x", 8, None),
    (
        "local x = 1 while x do if x then x = 2 end end",
        6,
        Some((0, 0, 2)),
    ),
    (
        "local x = 1 while x do if x then x = 2 end end",
        9,
        Some((1, 0, 2)),
    ),
    (
        "local x = 1 while x do if x then x = 2 end end",
        11,
        Some((2, 0, 2)),
    ),
    // what sees itself
    ("local function f() return f end", 7, Some((1, 0, 3))),
    ("local struct S { a : &S }", 8, Some((0, 0, 3))),
    ("local terra f() return f end", 7, Some((1, 0, 3))),
    ("local terra f :: f", 5, Some((0, 0, 3))),
    // loops
    ("repeat local y = 1 until y == 1", 7, Some((0, 0, 3))),
    ("for i = i, 2 do end", 4, None),
    ("for i = 1, 2 do local j = i end", 11, Some((0, 0, 2))),
    ("for k, v in k do local k = v return k end", 6, None),
    (
        "for k, v in k do local k = v return k end",
        11,
        Some((0, 1, 4)),
    ),
    (
        "for k, v in k do local k = v return k end",
        13,
        Some((0, 2, 9)),
    ),
    // parameters
    (
        "local function f(f, a, a) return f, a end",
        12,
        Some((0, 0, 5)),
    ),
    (
        "local function f(f, a, a) return f, a end",
        14,
        Some((0, 2, 9)),
    ),
    (
        "local x = 1 terra f(x : x) : x return x end",
        10,
        Some((0, 0, 2)),
    ),
    (
        "local x = 1 terra f(x : x) : x return x end",
        13,
        Some((0, 0, 2)),
    ),
    (
        "local x = 1 terra f(x : x) : x return x end",
        15,
        Some((0, 0, 8)),
    ),
    // an implicit `self`
    ("function t:g(a) return a end", 9, Some((0, 1, 6))),
    (
        "function t:g(a) return self, function() return self end end",
        9,
        Some((0, 0, 0)),
    ),
    (
        "function t:g(a) return self, function() return self end end",
        15,
        Some((1, 0, 0)),
    ),
    (
        "function t:m() function t:n() return self end return self end",
        14,
        Some((0, 0, 0)),
    ),
    (
        "function t:m() function t:n() return self end return self end",
        17,
        Some((0, 0, 0)),
    ),
    ("function t.g() return self end", 8, None),
    (
        "local self = 1 function t:m() return self end return self",
        12,
        Some((0, 0, 0)),
    ),
    (
        "local self = 1 function t:m() return self end return self",
        15,
        Some((0, 0, 2)),
    ),
    ("terra S:m(x : int) return self end", 11, Some((0, 0, 0))),
    // Terra code in Lua code, and Lua code in it
    ("q = quote var a = 1 in a end", 9, Some((0, 0, 5))),
    (
        "q = quote var a = 1 escape local b = a emit b end in a end",
        12,
        Some((1, 0, 5)),
    ),
    (
        "q = quote var a = 1 escape local b = a emit b end in a end",
        14,
        Some((0, 0, 10)),
    ),
    (
        "q = quote var a = 1 escape local b = a emit b end in a end",
        17,
        Some((0, 0, 5)),
    ),
    ("terra f() var [s] = 1 return s end", 12, None),
    ("terra f() var s : s = s return s end", 8, None),
    ("terra f() var s : s = s return s end", 12, Some((0, 0, 6))),
    // owners that declare many names
    (MANY_AROUND, 35, Some((1, 1, 4))),
    (MANY_AROUND, 37, Some((0, 0, 33))),
    (MANY_AROUND, 39, Some((1, 13, 28))),
    (MANY_AROUND, 41, None),
    (MANY_BEFORE, 31, Some((0, 0, 2))),
    (MANY_BEFORE, 36, Some((0, 0, 2))),
    (MANY_BEFORE, 38, Some((0, 13, 34))),
    (
        "function t:g(a, b, c, d, e, f, g, h, i, j, k, l) return self end",
        31,
        Some((0, 0, 0)),
    ),
];

const MANY_AROUND: &str =
    "local a, b, c, d, e, f, g, h, i, j, k, l, m, a = 1 do local b = b return b, a, z end";

const MANY_BEFORE: &str =
    "local a, b, c, d, e, f, g, h, i, j, k, l, m = 1 print(a) local a = a return a";

/// The node of the name at this word of the first line, if one stands there.
fn name_at(tree: &Tree, word: u32) -> Option<NodeId> {
    for k in 0..=tree.root().0 {
        if let Node::Name(place, _, _) = tree.node(NodeId(k)) {
            if *place == (Place { line: 1, word }) {
                return Some(NodeId(k));
            }
        }
    }
    None
}

/// The word of a name; 0 for another node.
fn word_of(tree: &Tree, n: NodeId) -> u32 {
    match tree.node(n) {
        Node::Name(place, _, _) => place.word,
        _ => 0,
    }
}

/// What the name at a word of a text finds.
fn found(rt: &impl Abort, alloc: Global, text: &str, word: u32) -> Result<Finds, Fail> {
    assert!(rt; text.len() <= LONGEST_TEXT);
    let tree = parse(alloc, text)?;
    let slots = resolve(alloc, &tree)?;
    let Some(n) = name_at(&tree, word) else {
        assert!(rt; false, "no name");
        return Ok(None);
    };
    let path = slots.path(n);
    Ok(match slots.binder(n) {
        Some(binder) => {
            assert_eq!(rt; path, Some((binder.depth, binder.position)));
            Some((
                binder.depth,
                binder.position,
                word_of(&tree, binder.declaration),
            ))
        }
        None => {
            assert_eq!(rt; path, None);
            None
        }
    })
}

#[test]
fn uses_find_their_declarations(rt: HostRuntime) -> Result<(), Fail> {
    let alloc = rt.alloc();
    for row in &ROWS {
        let (text, word, want) = *row;
        let got = found(&rt, alloc, text, word)?;
        assert_eq!(rt; got, want, "{text} at {word}");
    }
    Ok(())
}
