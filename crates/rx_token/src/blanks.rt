ghost use Rattle.std.specs.Prelude.{◌≡◌, ◌≤◌, ℕ, List, length, drop, IfSome};
ghost use Rattle.std.specs.List.{prefix_len};
ghost use Rattle.rx_token.specs.Blank.{is_space, is_in_line, line_width, close_in, blank_at};
ghost use Rattle.rx_token.specs.Blank.{ends_dashes, is_hint, IsFirstClose, Blanks};

fn is_space(b: u8) -> bool
    ensures { result ≡ is_space b }
{
    (b >= 9 && b <= 13) || b == 32
}

fn line_width(bytes: &[u8]) -> usize
    ensures value { result ≡ line_width bytes.now }
    ensures within { result ≤ length bytes.now }
{
    bytes.iter().take_while(|b| **b != 10).count()
}

/// How many bytes lead behind the first `*/`.
fn close_in(bytes: &[u8]) -> Option<usize>
    ensures value { result ≡ close_in bytes.now }
    ensures within { IfSome result (λ width. width ≤ length bytes.now) }
{
    let mut width = 0;
    let mut rest = bytes;
    while let [_, tail @ ..] = rest {
        if rest.starts_with(b"*/") {
            return Some(width + 2);
        }
        width += 1;
        rest = tail;
    }
    None
}

fn ends_dashes(bytes: &[u8]) -> bool
    ensures { result ≡ ends_dashes bytes.now }
{
    match bytes {
        [] => true,
        [b, ..] => is_space(*b),
    }
}

fn is_hint(bytes: &[u8]) -> bool
    ensures { result ≡ is_hint bytes.now }
{
    match bytes {
        [] => false,
        [b, ..] => *b == b'!' || *b == b'+',
    }
}

/// How many bytes one white space or comment at the front takes, 0 where there is none.
#[tactic(auto, unfolding(crate::specs::Blank::blank_at))]
fn blank_at(bytes: &[u8]) -> usize
    ensures value { result ≡ blank_at bytes.now }
    ensures within { result ≤ length bytes.now }
{
    match bytes {
        [] => 0,
        [b, rest @ ..] => if is_space(*b) {
            1
        } else if *b == b'#' {
            1 + line_width(rest)
        } else if bytes.starts_with(b"--") && ends_dashes(&rest[1..]) {
            2 + line_width(&rest[1..])
        } else if bytes.starts_with(b"/*") && !is_hint(&rest[1..]) {
            match close_in(&rest[1..]) {
                None => 0,
                Some(width) => 2 + width,
            }
        } else {
            0
        },
    }
}

/// How many bytes the white space and the comments at the front take.
pub(crate) fn gap_width(bytes: &[u8]) -> usize
    ensures all { Blanks bytes.now result }
    ensures within { result ≤ length bytes.now }
{
    let mut width = 0;
    let mut rest = bytes;
    loop {
        let next = blank_at(rest);
        if next == 0 {
            return width;
        }
        let (_, after) = rest.split_at(next);
        width += next;
        rest = after;
    }
}

/// A comment ends behind the first `*/`.
pub fn comment_ends()
    ensures { (bytes : List ℕ) → IsFirstClose bytes (close_in bytes) }
{}
