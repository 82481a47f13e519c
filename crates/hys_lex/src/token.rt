/// What a token is. `Keyword` and `Sign` carry the place, from 0, in the list of keywords or of
/// signs: the modules `keyword` and `sign` name each of them.
#[derive(Clone, Copy, Debug, PartialEq, Eq)]
pub enum TokenKind {
    Name,
    Literal,
    Keyword(u8),
    Sign(u8),
}

/// A token and the bytes of the text that it spans, `from` up to and without `to`.
#[derive(Clone, Copy, Debug, PartialEq, Eq)]
pub struct Token {
    pub kind: TokenKind,
    pub from: u32,
    pub to: u32,
}
