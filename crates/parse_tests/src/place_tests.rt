// Texts with the places of their nodes, the offsets of their names and the places where they end, by hand from the
// rules of places.
use std::alloc::Global;
use std::process::Abort;
use std::test::Fail;
use tl_base::{NodeId, Place};
use tl_lex::LONGEST_TEXT;
use tl_parse::parse;
use tl_tree::{Node, Piece, Tree};

/// Texts, and for each node with a place, in order, its line and word, of a name with the offset of its token; last
/// where the text ends.
static PLACES: [(&str, &str); 43] = [
    ("", "end 1:1"),
    // The place of the end is that of a token there, on a line of its own behind a line end.
    (
        "terra f() end _G[\"\"] = f",
        "1:2+6 1:3 1:1 1:6+14 1:8 1:7 1:11+23 1:6 end 1:12",
    ),
    (
        "terra f() end _G[\"\"] = f\n",
        "1:2+6 1:3 1:1 1:6+14 1:8 1:7 1:11+23 1:6 end 2:1",
    ),
    (
        "function t:g(a) return self end",
        "1:2+9 1:3+11 1:6+13 1:9+23 1:8 1:1 end 1:11",
    ),
    (
        "terra S:m(x : int) end",
        "1:2+6 1:3+8 1:6+10 1:8+14 1:6 1:5 1:1 end 1:11",
    ),
    (
        "x = a.b[c](d)",
        "1:1+0 1:3+4 1:5+6 1:4 1:7+8 1:6 1:10+11 1:9 1:1 end 1:12",
    ),
    ("o:m(1)", "1:1+0 1:3+2 1:5 1:2 1:1 end 1:7"),
    ("f{1}", "1:1+0 1:3 1:2 1:2 1:1 end 1:5"),
    ("f 's'", "1:1+0 1:2 1:2 1:1 end 1:3"),
    (
        "x = a + b * -c ^ d",
        "1:1+0 1:3+4 1:5+8 1:8+13 1:10+17 1:9 1:7 1:6 1:4 1:1 end 1:11",
    ),
    ("local a, b = 1", "1:2+6 1:4+9 1:6 1:1 end 1:7"),
    ("local terra f :: int", "1:3+12 1:5+17 1:1 end 1:6"),
    (
        "struct S.T { a : int }",
        "1:2+7 1:3+9 1:6+13 1:8+17 1:1 end 1:10",
    ),
    ("for i = 1, 2 do end", "1:2+4 1:4 1:6 1:1 end 1:9"),
    ("for k, v in p do end", "1:2+4 1:4+7 1:6+12 1:1 end 1:9"),
    ("repeat local a until a", "1:3+13 1:2 1:5+21 1:1 end 1:6"),
    (
        "if a then elseif b then else end",
        "1:2+3 1:5+17 1:1 end 1:9",
    ),
    ("return function(x, ...) end", "1:4+16 1:2 1:1 end 1:9"),
    (
        "x = {a = b, [c] = d, e}",
        "1:1+0 1:4+5 1:6+9 1:9+13 1:12+18 1:14+21 1:3 1:1 end 1:16",
    ),
    (
        "return quote var a, [b] : int = 1 in a end",
        "1:4+17 1:4 1:7+21 1:6 1:10+26 1:6 1:12 1:3 1:14+37 1:2 1:1 end 1:16",
    ),
    (
        "terra f([p], q : &int) : int return @q end",
        "1:2+6 1:5+9 1:4 1:4 1:8+13 1:11+18 1:10 1:8 1:14+25 1:17+37 1:16 1:15 1:3 1:1 end 1:19",
    ),
    (
        "return `a.b{c = 1}(d)[e]",
        "1:3+8 1:5+10 1:4 1:7+12 1:9 1:6 1:12+19 1:11 1:15+22 1:14 1:2 1:1 end 1:17",
    ),
    // A first line that begins with `#` counts as a line, and its bytes count.
    ("# skip\nf()", "2:1+7 2:2 2:1 end 2:4"),
    ("--[[\n]] f()\n", "2:1+8 2:2 2:1 end 3:1"),
    // Behind a text that goes over a line end the next token has word 1.
    ("x = 'a\\\nb' y = 2", "1:1+0 1:3 1:1 2:1+11 2:3 2:1 end 2:4"),
    ("while a do break end", "1:2+6 1:4 1:1 end 1:6"),
    ("(f)(g)", "1:2+1 1:1 1:5+4 1:4 1:1 end 1:7"),
    ("return ..., nil, true", "1:2 1:4 1:6 1:1 end 1:7"),
    (
        "terra f() [a] = 1 end",
        "1:2+6 1:6+11 1:5 1:9 1:5 1:3 1:1 end 1:11",
    ),
    ("terra f() [a] end", "1:2+6 1:6+11 1:5 1:5 1:3 1:1 end 1:9"),
    (
        "terra f() escape emit `x end end",
        "1:2+6 1:8+23 1:7 1:6 1:5 1:3 1:1 end 1:11",
    ),
    ("return terra() end", "1:3 1:2 1:1 end 1:6"),
    ("return struct {}", "1:2 1:1 end 1:5"),
    ("local function f() end", "1:3+15 1:1 end 1:7"),
    ("x.y.z = 1", "1:1+0 1:3+2 1:2 1:5+4 1:4 1:7 1:1 end 1:8"),
    ("a, b[c] = d", "1:1+0 1:3+3 1:5+5 1:4 1:8+10 1:1 end 1:9"),
    ("return #a .. 'b'", "1:3+8 1:2 1:5 1:4 1:1 end 1:6"),
    ("return `[a].b", "1:4+9 1:3 1:7+12 1:6 1:2 1:1 end 1:8"),
    (
        "return `o:[m](1)",
        "1:3+8 1:6+11 1:5 1:9 1:4 1:2 1:1 end 1:11",
    ),
    ("local struct S { }", "1:3+13 1:1 end 1:6"),
    (
        "terra f() for i = 0, 2 do end end",
        "1:2+6 1:6+14 1:8 1:10 1:5 1:3 1:1 end 1:14",
    ),
    (
        "terra f() repeat until true end",
        "1:2+6 1:7 1:5 1:3 1:1 end 1:9",
    ),
    ("a()\n\tb()", "1:1+0 1:2 1:1 2:1+5 2:2 2:1 end 2:4"),
];

/// The place of a node, if it has one, as a text with a space behind it.
fn place_of(alloc: Global, node: &Node<'_>) -> Result<String, Fail> {
    let place: Place = match node {
        Node::Name(place, offset, _) => {
            return Ok(format!(in alloc; "{}:{}+{offset} ", place.line, place.word)?);
        }
        Node::Numeral(place, _) | Node::Literal(place, _) => *place,
        Node::Expression(place, _) => *place,
        Node::Statement(place, _) => *place,
        Node::TerraExpression(place, _) => *place,
        Node::TerraStatement(place, _) => *place,
        Node::Piece(Piece::TerraBody(place, _, _, _)) => *place,
        Node::Piece(Piece::Parameter(place, _, _)) => *place,
        Node::Piece(Piece::SpliceParameter(place, _)) => *place,
        Node::Piece(Piece::Variable(place, _, _)) => *place,
        Node::Piece(_) => return Ok(String::new(alloc)),
    };
    Ok(format!(in alloc; "{}:{} ", place.line, place.word)?)
}

/// The places of the nodes of a tree, and where its text ends.
fn places_of(alloc: Global, tree: &Tree<'_>) -> Result<String, Fail> {
    let mut out = String::new(alloc);
    for number in 0..=tree.root().0 {
        let place = place_of(alloc, tree.node(NodeId(number)))?;
        out.push_str(place.as_str())?;
    }
    let finish = tree.finish();
    let end = format!(in alloc; "end {}:{}", finish.line, finish.word)?;
    out.push_str(end.as_str())?;
    Ok(out)
}

#[test]
fn places_of_texts(rt: HostRuntime) -> Result<(), Fail> {
    let alloc = rt.alloc();
    for row in &PLACES {
        let (text, want) = *row;
        assert!(rt; text.len() <= LONGEST_TEXT);
        let Ok(tree) = parse(alloc, text) else {
            return Err(Fail::new("a row is refused"));
        };
        let got = places_of(alloc, &tree)?;
        assert_eq!(rt; got.as_str(), want, "at {text:?}");
    }
    Ok(())
}
