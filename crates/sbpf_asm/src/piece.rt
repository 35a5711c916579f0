//! Texts cut into pieces, and blanks around them.
ghost use Rattle.std.specs.Prelude.{◌≡◌};
ghost use Rattle.sbpf_asm.specs.Words.{cut, text_behind, trim, is_blank, without_first_blanks, without_last_blanks};
ghost use Rattle.sbpf_asm.specs.Views.{cut_view, is_mark, rest_view};

/// What a text is cut at.
#[derive(Clone, Copy)]
pub enum Mark {
    Blank,
    Comma,
    Semicolon,
    LineFeed,
    Sign,
}

/// What is before the first byte of a kind, and that byte with what follows it.
#[derive(Clone, Copy)]
pub struct Cut<'a> {
    pub front: &'a [u8],
    pub rest: Option<(u8, &'a [u8])>,
}

fn is_blank(byte: u8) -> bool
    ensures { result ≡ is_blank byte }
{
    byte == b' ' || byte == b'\t'
}

fn is_mark(mark: Mark, byte: u8) -> bool
    ensures { result ≡ is_mark mark byte }
{
    match mark {
        Mark::Blank => is_blank(byte),
        Mark::Comma => byte == b',',
        Mark::Semicolon => byte == b';',
        Mark::LineFeed => byte == b'\n',
        Mark::Sign => byte == b'+' || byte == b'-',
    }
}

/// A text cut at its first byte of a kind.
pub fn cut_at<'a>(mark: Mark, text: &'a [u8]) -> Cut<'a>
    ensures { cut_view result ≡ cut (is_mark mark) text.entry.now }
{
    for at in 0..text.len() {
        if is_mark(mark, text[at]) {
            return Cut {
                front: &text[..at],
                rest: Some((text[at], &text[at + 1..])),
            };
        }
    }
    Cut {
        front: text,
        rest: None,
    }
}

/// What follows the byte that a text is cut at, or nothing.
pub fn text_behind<'a>(rest: Option<(u8, &'a [u8])>) -> &'a [u8]
    ensures { result.now ≡ text_behind (rest_view rest.entry) }
{
    match rest {
        None => &[],
        Some((_, text)) => text,
    }
}

fn without_first_blanks(text: &[u8]) -> &[u8]
    ensures { result.now ≡ without_first_blanks text.now }
{
    for at in 0..text.len() {
        if !is_blank(text[at]) {
            return &text[at..];
        }
    }
    &text[text.len()..]
}

fn without_last_blanks(text: &[u8]) -> &[u8]
    ensures { result.now ≡ without_last_blanks text.now }
{
    let mut end = text.len();
    while end > 0 && is_blank(text[end - 1]) {
        end -= 1;
    }
    &text[..end]
}

/// The text without blanks at both ends.
pub fn trim(text: &[u8]) -> &[u8]
    ensures { result.now ≡ trim text.now }
{
    without_last_blanks(without_first_blanks(text))
}
