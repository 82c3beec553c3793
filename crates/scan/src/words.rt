// What a token may be taken for: words, arguments, brackets and the end of a line.
ghost use Rattle.std.specs.Prelude.{◌≡◌};
ghost use Rattle.scan.specs.Words.{verb_of, layout_of, natural_of, signed_of, word_of, text_of, bind};
ghost use Rattle.scan.specs.Taking.{tok_of, closes_of, head_of, inside_of, outside_of, line_end_of};
ghost use Rattle.std.specs.Option.{option_map};

use crate::types::{Layout, Token, Verb};

fn verb(word: &[u8]) -> Option<Verb>
    ensures { result ≡ verb_of word.now }
{
    match word {
        b"open" => Some(Verb::Open),
        b"null" => Some(Verb::Null),
        b"number" => Some(Verb::Number),
        b"copy" => Some(Verb::Copy),
        b"make" => Some(Verb::Make),
        b"text" => Some(Verb::Text),
        b"name" => Some(Verb::Name),
        b"fetch" => Some(Verb::Fetch),
        b"store" => Some(Verb::Store),
        b"divide" => Some(Verb::Divide),
        b"kind" => Some(Verb::Kind),
        b"read" => Some(Verb::Read),
        b"same" => Some(Verb::Same),
        b"collect" => Some(Verb::Collect),
        _ => None,
    }
}

fn layout(word: &[u8]) -> Option<Layout>
    ensures { result ≡ layout_of word.now }
{
    match word {
        b"byte8" => Some(Layout::Byte8),
        b"sixbit" => Some(Layout::Sixbit),
        _ => None,
    }
}

pub(crate) fn natural_of<'a>(t: Token<'a>, low: u32, high: u32) -> Option<u32>
    ensures { result ≡ natural_of low high (tok_of t.entry) }
{
    match t {
        Token::Natural(n) if (low..=high).contains(&n) => Some(n),
        _ => None,
    }
}

pub(crate) fn signed_of<'a>(t: Token<'a>) -> Option<i32>
    ensures { result ≡ signed_of (tok_of t.entry) }
{
    match t {
        Token::Natural(n) => i32::try_from(n).ok(),
        Token::Negative(n) => i32::try_from(-i64::from(n)).ok(),
        _ => None,
    }
}

pub(crate) fn layout_of<'a>(t: Token<'a>) -> Option<Layout>
    ensures { result ≡ bind (word_of (tok_of t.entry)) layout_of }
{
    match t {
        Token::Word(word) => layout(word),
        _ => None,
    }
}

pub(crate) fn text_of<'a>(t: Token<'a>) -> Option<&'a [u8]>
    ensures { option_map (λ x. x.now) result ≡ text_of (tok_of t.entry) }
{
    match t {
        Token::Text(text) => Some(text),
        _ => None,
    }
}

pub(crate) fn close_of<'a>(t: Token<'a>) -> Option<()>
    ensures { result ≡ closes_of (tok_of t.entry) }
{
    matches!(t, Token::Close).then_some(())
}

// What stands behind a form's bracket: a call's word, or none for `times`.
pub(crate) fn head_of<'a>(t: Token<'a>, first: bool) -> Option<Option<Verb>>
    ensures { result ≡ head_of first (tok_of t.entry) }
{
    match t {
        Token::Word(b"times") => if first { None } else { Some(None) },
        Token::Word(word) => match verb(word) {
            Some(v) if first == matches!(v, Verb::Open) => Some(Some(v)),
            _ => None,
        },
        _ => None,
    }
}

// Inside a `times`: whether a bracket opens or closes.
pub(crate) fn inside_of<'a>(t: Token<'a>, may_open: bool, may_close: bool) -> Option<bool>
    ensures { result ≡ inside_of may_open may_close (tok_of t.entry) }
{
    match t {
        Token::Open if may_open => Some(true),
        Token::Close if may_close => Some(false),
        _ => None,
    }
}

// Where a line begins: whether a bracket opens or the line ends.
pub(crate) fn outside_of<'a>(t: Token<'a>) -> Option<bool>
    ensures { result ≡ outside_of (tok_of t.entry) }
{
    match t {
        Token::Open => Some(true),
        Token::LineEnd => Some(false),
        _ => None,
    }
}

pub(crate) fn line_end_of<'a>(t: Token<'a>) -> Option<()>
    ensures { result ≡ line_end_of (tok_of t.entry) }
{
    matches!(t, Token::LineEnd).then_some(())
}
