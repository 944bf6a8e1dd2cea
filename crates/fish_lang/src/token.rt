//! Tokens: the words and signs of a definition.

ghost use Rattle.std.specs.Prelude.{◌≡◌, ◌==◌, ◌+◌, ◌≤◌, ◌<◌, List, [], ◌∷◌, ◌++◌, drop, take, length, slice_index};
ghost use Rattle.std.specs.Prelude.{true, false, Some, IfOk, OnOk, option_map, option_and_then};
ghost use Rattle.std.specs.Char.{is_ascii_digit};
ghost use Rattle.std.specs.List.{list_all};
ghost use Rattle.serde_json.specs.Find.{as_str};
ghost use Rattle.fish_value.specs.Json.{reading};
ghost use Rattle.fish_value.specs.Number.{is_number, is_positive};
ghost use Rattle.fish_lang.specs.Token.{is_blank, is_word_byte, begins_word, takes_equals, run_length, string_length};
ghost use Rattle.fish_lang.specs.Token.{condition_word, length_behind, literal_word, keyword_of, is_ident, plain_word, word_or_keyword, string_token};
ghost use Rattle.fish_lang.specs.Token.{sign_token, token_of, listed, tokens};

use crate::definition::Op;
use fish_value::{Text, read_int, read_json};
use std::alloc::{AllocError, Global};

/// A word that the language keeps.
#[derive(Clone, Copy, PartialEq, Eq)]
pub enum Keyword {
    Take,
    Bucket,
    Flag,
    By,
    When,
    Not,
    And,
    Or,
    Exists,
    Starts,
    True,
    False,
    Each,
}

/// One token.
#[derive(Drop)]
pub enum Token {
    /// A word that the language keeps.
    Keyword(Keyword),
    /// A word that can be a step.
    Ident(Text),
    /// A string, as read.
    Str(Text),
    /// A number.
    Number {
        /// Whether it begins with a `-`.
        negative: bool,
        /// The number, or `None` where it is outside an `i64`.
        value: Option<i64>,
    },
    /// One of the six signs of comparison.
    Compare(Op),
    /// `(`
    Open,
    /// `)`
    Close,
    /// `.`
    Dot,
    /// What fits nowhere.
    Other,
}

/// A token and the position of its first byte in the source.
#[derive(Drop)]
pub struct Placed {
    /// The token.
    pub token: Token,
    /// Its first byte, counted from 0.
    pub at: u64,
}

/// The tokens of a source. What fits nowhere is a token too.
pub fn tokens_of(alloc: Global, b: &[u8]) -> Result<Vec<Placed>, AllocError>
    ensures { IfOk result (λ found. found.items ≡ tokens b.now) }
{
    let mut found = Vec::new(alloc);
    let mut rest = b;
    let mut at: u64 = 0;
    while let Some((first, behind)) = rest.split_first() {
        let (piece, next) = rest.split_at(1 + length_behind(*first, behind));
        list(alloc, &mut found, piece, at)?;
        at += piece.len() as u64;
        rest = next;
    }
    Ok(found)
}

/// Puts the token that these bytes are after the others. A blank is none.
fn list(alloc: Global, found: &mut Vec<Placed>, piece: &[u8], at: u64) -> Result<(), AllocError>
    requires { 0 < length piece.now }
    ensures { OnOk result (found.new.items ≡ found.old.items ++ listed at (token_of piece.now) []) }
{
    if let Some(token) = read_token(alloc, piece)? {
        found.push(Placed { token, at })?;
    }
    Ok(())
}

/// How many bytes of a token come after its first. A blank has none.
#[tactic(auto, unfolding(crate::specs::Token::length_behind))]
fn length_behind(c: u8, b: &[u8]) -> usize
    ensures value { result ≡ length_behind c b.now }
    ensures bound { result ≤ length b.now }
{
    if begins_word(c) {
        return run(b);
    }
    if c == b'"' {
        return string(b);
    }
    if takes_equals(c) && !b.is_empty() && b[0] == b'=' {
        return 1;
    }
    0
}

/// Whether a byte can stand in a word.
fn is_word_byte(c: u8) -> bool
    ensures { result ≡ is_word_byte c }
{
    c.is_ascii_alphanumeric() || c == b'_' || c == b'$'
}

/// Whether a byte can begin a word or a number.
fn begins_word(c: u8) -> bool
    ensures { result ≡ begins_word c }
{
    is_word_byte(c) || c == b'-'
}

/// Whether a sign takes a `=` after it in.
fn takes_equals(c: u8) -> bool
    ensures { result ≡ takes_equals c }
{
    c == b'!' || c == b'<' || c == b'>'
}

/// How many word bytes stand at the front.
fn run(b: &[u8]) -> usize
    ensures value { result ≡ run_length b.now }
    ensures bound { result ≤ length b.now }
{
    for (i, c) in b.iter().enumerate() {
        if !is_word_byte(*c) {
            return i;
        }
    }
    b.len()
}

/// How many bytes there are to the end of a string, after its first `"`.
fn string(b: &[u8]) -> usize
    ensures value { result ≡ string_length false b.now }
    ensures bound { result ≤ length b.now }
{
    let mut odd = false;
    for (i, c) in b.iter().enumerate() {
        if *c == b'"' && !odd {
            return i + 1;
        }
        odd = *c == b'\\' && !odd;
    }
    b.len()
}

/// The token that these bytes are, or `None` where they are a blank.
#[tactic(auto, unfolding(crate::specs::Token::token_of))]
fn read_token(alloc: Global, piece: &[u8]) -> Result<Option<Token>, AllocError>
    requires { 0 < length piece.now }
    ensures { IfOk result (λ found. found ≡ token_of piece.now) }
{
    let first = piece[0];
    if first == b' ' || first == b'\t' {
        return Ok(None);
    }
    if begins_word(first) {
        return Ok(Some(word(alloc, piece)?));
    }
    if first == b'"' {
        return Ok(Some(quotation(alloc, piece)?));
    }
    Ok(Some(sign(piece)))
}

/// The token of a word: a keyword, a number, a step, or what fits nowhere.
fn word(alloc: Global, w: &[u8]) -> Result<Token, AllocError>
    ensures { IfOk result (λ token. token ≡ word_or_keyword (keyword_of w.now) w.now) }
{
    match kept_word(w) {
        Some(kept) => Ok(Token::Keyword(kept)),
        None => plain(alloc, w),
    }
}

/// The token of a word that is no keyword.
#[tactic(auto, unfolding(crate::specs::Token::plain_word))]
fn plain(alloc: Global, w: &[u8]) -> Result<Token, AllocError>
    ensures { IfOk result (λ token. token ≡ plain_word w.now) }
{
    if is_number(w) {
        return Ok(Token::Number {
            negative: w[0] == b'-',
            value: read_int(w),
        });
    }
    if is_ident(w) {
        return ident(alloc, w);
    }
    Ok(Token::Other)
}

/// The token of a word that can be a step.
fn ident(alloc: Global, w: &[u8]) -> Result<Token, AllocError>
    requires { is_ident w.now ≡ true }
    ensures { IfOk result (λ token. token ≡ Token.Ident w.now) }
{
    match Text::from_bytes(alloc, w)? {
        Some(text) => Ok(Token::Ident(text)),
        // Its bytes are ASCII.
        None => unreachable!(),
    }
}

/// Whether a word is `0` or `-?[1-9][0-9]*`.
fn is_number(b: &[u8]) -> bool
    ensures { result ≡ is_number b.now }
{
    match b {
        [b'0'] => true,
        [b'-', digits @ ..] => is_positive(digits),
        _ => is_positive(b),
    }
}

/// Whether bytes are digits, of which the first is not 0.
fn is_positive(b: &[u8]) -> bool
    ensures { result ≡ is_positive b.now }
{
    !b.is_empty() && b[0] != b'0' && has_digits(b)
}

/// Whether all bytes are digits.
fn has_digits(b: &[u8]) -> bool
    ensures { result ≡ list_all is_ascii_digit b.now }
{
    b.iter().all(|c| c.is_ascii_digit())
}

/// Whether a word can be a step as it is: it begins with no digit and is no keyword.
#[tactic(auto, unfolding(crate::specs::Token::is_ident))]
pub fn is_ident(w: &[u8]) -> bool
    ensures { result ≡ is_ident w.now }
{
    !w.is_empty() && has_word_bytes(w) && !w[0].is_ascii_digit() && kept_word(w).is_none()
}

/// Whether all bytes can stand in a word.
fn has_word_bytes(w: &[u8]) -> bool
    ensures { result ≡ list_all is_word_byte w.now }
{
    w.iter().all(|c| is_word_byte(*c))
}

/// The keyword that a word is, if it is one.
#[tactic(auto, unfolding(crate::specs::Token::keyword_of))]
fn kept_word(w: &[u8]) -> Option<Keyword>
    ensures { result ≡ keyword_of w.now }
{
    if w == b"take".as_slice() {
        return Some(Keyword::Take);
    }
    if w == b"bucket".as_slice() {
        return Some(Keyword::Bucket);
    }
    if w == b"flag".as_slice() {
        return Some(Keyword::Flag);
    }
    if w == b"by".as_slice() {
        return Some(Keyword::By);
    }
    if w == b"when".as_slice() {
        return Some(Keyword::When);
    }
    condition_word(w)
}

/// The word of a condition that a word is, or a literal.
#[tactic(auto, unfolding(crate::specs::Token::condition_word))]
fn condition_word(w: &[u8]) -> Option<Keyword>
    ensures { result ≡ condition_word w.now }
{
    if w == b"not".as_slice() {
        return Some(Keyword::Not);
    }
    if w == b"and".as_slice() {
        return Some(Keyword::And);
    }
    if w == b"or".as_slice() {
        return Some(Keyword::Or);
    }
    if w == b"exists".as_slice() {
        return Some(Keyword::Exists);
    }
    if w == b"starts".as_slice() {
        return Some(Keyword::Starts);
    }
    literal_word(w)
}

/// The literal that a word is, or the word that is kept for later.
#[tactic(auto, unfolding(crate::specs::Token::literal_word))]
fn literal_word(w: &[u8]) -> Option<Keyword>
    ensures { result ≡ literal_word w.now }
{
    if w == b"true".as_slice() {
        return Some(Keyword::True);
    }
    if w == b"false".as_slice() {
        return Some(Keyword::False);
    }
    if w == b"each".as_slice() {
        return Some(Keyword::Each);
    }
    None
}

/// A string by its reading. One without an end has none.
fn quotation(alloc: Global, b: &[u8]) -> Result<Token, AllocError>
    ensures { IfOk result (λ token. token ≡ string_token (option_and_then as_str (reading b.now))) }
{
    match read_json(alloc, b)? {
        Some(serde_json::Value::String(s)) => Ok(text_token(Text::from_string(s))),
        _ => Ok(Token::Other),
    }
}

/// The token of a string with this reading.
fn text_token(s: Text) -> Token
    ensures { result ≡ string_token (Some s) }
{
    // That the bytes are a text is known of what it lends.
    let _bytes = s.as_bytes();
    Token::Str(s)
}

/// The token of a sign, or of a byte that fits nowhere.
#[tactic(auto, unfolding(crate::specs::Token::sign_token))]
fn sign(b: &[u8]) -> Token
    ensures { result ≡ sign_token b.now }
{
    if b == b"=".as_slice() {
        return Token::Compare(Op::Eq);
    }
    if b == b"!=".as_slice() {
        return Token::Compare(Op::Ne);
    }
    if b == b"<".as_slice() {
        return Token::Compare(Op::Lt);
    }
    if b == b"<=".as_slice() {
        return Token::Compare(Op::Le);
    }
    if b == b">".as_slice() {
        return Token::Compare(Op::Gt);
    }
    if b == b">=".as_slice() {
        return Token::Compare(Op::Ge);
    }
    if b == b"(".as_slice() {
        return Token::Open;
    }
    if b == b")".as_slice() {
        return Token::Close;
    }
    if b == b".".as_slice() {
        return Token::Dot;
    }
    Token::Other
}
