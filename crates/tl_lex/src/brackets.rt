// Long brackets.
ghost use Rattle.std.specs.Prelude.{◌≡◌, ◌+◌, ◌<◌, ◌≤◌, ◌*◌, length, Some, None, MatchOption, IfSome};
ghost use Rattle.std.specs.List.{prefix_len};
ghost use Rattle.tl_lex.specs.Brackets as brackets;

pub(crate) fn begins_with(c: u8, bytes: &[u8]) -> bool
    ensures { result ≡ brackets.begins_with c bytes.now }
{
    !bytes.is_empty() && bytes[0] == c
}

#[tactic(auto, using(crate::proofs::Prefixes::prefixes))]
fn equals_len(bytes: &[u8]) -> usize
    ensures len { result ≡ brackets.equals_len bytes.now }
    ensures within { result ≤ length bytes.now }
{
    bytes.iter().take_while(|c| **c == b'=').count()
}

/// The level of the long bracket at the front, made of the byte `c`: `c`, so many `=`, and `c` again.
#[tactic(auto, unfolding(crate::specs::Brackets::bracket_level))]
pub(crate) fn bracket_level(c: u8, bytes: &[u8]) -> Option<usize>
    ensures level { result ≡ brackets.bracket_level c bytes.now }
    ensures within { IfSome result (λ n. n + 2 ≤ length bytes.now) }
{
    if !begins_with(c, bytes) {
        return None;
    }
    let rest = &bytes[1..];
    let level = equals_len(rest);
    if begins_with(c, &rest[level..]) {
        Some(level)
    } else {
        None
    }
}

fn closes(level: usize, bytes: &[u8]) -> bool
    ensures { result ≡ brackets.closes level bytes.now }
{
    match bracket_level(b']', bytes) {
        Some(n) => n == level,
        None => false,
    }
}

/// How many bytes come before the first closing bracket of this level.
pub(crate) fn closing_place(level: usize, bytes: &[u8]) -> Option<usize>
    ensures { result ≡ brackets.closing_place level bytes.now }
{
    for at in 0..bytes.len() {
        if closes(level, &bytes[at..]) {
            return Some(at);
        }
    }
    None
}

/// The bytes between the long brackets of this level at the front, if they are closed.
pub(crate) fn inside_at(level: usize, bytes: &[u8]) -> Option<&[u8]>
    requires { level + 2 ≤ length bytes.now }
    ensures inside { MatchOption result (brackets.inside_at level bytes.now ≡ None)
        (λ s. brackets.inside_at level bytes.now ≡ Some s.now) }
    ensures within { IfSome result (λ s. length s.now + 2 * (level + 2) ≤ length bytes.now) }
{
    let behind = &bytes[level + 2..];
    match closing_place(level, behind) {
        Some(len) => Some(&behind[..len]),
        None => None,
    }
}
