// The signs of a text: its tokens, with numbers for their names.
ghost use Rattle.std.specs.Prelude.{◌≡◌, ℕ, List, map, ◌≤◌, ◌<◌, ◌+◌, ◌*◌, ◌∷◌, ◌++◌, [], fold, length, codes, IfOk, OnOk, option_copied};
ghost use Rattle.std.specs.List.{All};
ghost use Rattle.self_terms.specs.Names.{with_text};
ghost use Rattle.self_tokens.specs.Tokens.{tokens};
ghost use Rattle.self_tokens.specs.Texts.{LiesIn, text_of};
ghost use Rattle.self_tokens.specs.declared.symbols.Kind.TheVariants as kind;
ghost use Rattle.self_signs.specs.Signs.{is_text, setter, reserved, role, is_restart, is_restart_keyword, unhandled, argument_name, delegate_name, named_by, needed, names_after, symbol_at, sign_of, signs, Keeps, IsClosed};
ghost use Rattle.self_signs.specs.Numbers.{Lasts, Grows};

use self_grammar::{Reserved, Role, Sign, Spot, Symbol};
use self_terms::Names;
use self_tokens::{Kind, OutOfMemory, Token, scan, text_of};
use std::alloc::Global;
use std::marker::Model;

/// Signs in their order.
#[derive(Drop)]
pub struct SignList {
    items: Vec<Sign>,
}

impl Model for SignList {
    ghost use Rattle.std.specs.Prelude.{List};
    ghost use Rattle.self_grammar.specs.declared.signs.Sign.{Sign};

    ghost Value = { List Sign };

    ghost view = { λ list. list.items.items };
}

impl SignList {
    // No signs. Takes no memory.
    fn new(alloc: Global) -> SignList
        ensures { result ≡ [] }
    {
        SignList {
            items: Vec::new(alloc),
        }
    }

    fn push(&mut self, sign: Sign) -> Result<(), OutOfMemory>
        ensures { OnOk result (self.new ≡ self.old ++ sign ∷ []) }
    {
        self.items.push(sign)?;
        Ok(())
    }

    /// The signs, in their order.
    pub fn as_slice(&self) -> &[Sign]
        ensures { result.now ≡ self.now }
    {
        self.items.as_slice()
    }
}

fn reserved(text: &[u8]) -> Reserved
    ensures { result ≡ reserved text.now }
{
    if text == b"self".as_slice() {
        return Reserved::Itself;
    }
    if text == b"resend".as_slice() {
        return Reserved::Resend;
    }
    Reserved::Free
}

fn role(text: &[u8]) -> Role
    ensures { result ≡ role text.now }
{
    match text {
        b"=" => Role::Equals,
        b"<-" => Role::Arrow,
        b"*" => Role::Star,
        _ => Role::Other,
    }
}

fn is_restart(text: &[u8]) -> bool
    ensures { result ≡ is_restart text.now }
{
    text == b"_Restart".as_slice()
}

fn is_restart_keyword(text: &[u8]) -> bool
    ensures { result ≡ is_restart_keyword text.now }
{
    text == b"_Restart:".as_slice() || text == b"_RestartIfFail:".as_slice()
}

fn is_handler(text: &[u8]) -> bool
    ensures { result ≡ is_text text.now (codes "IfFail:") }
{
    text == b"IfFail:".as_slice()
}

// A primitive keyword without the `IfFail:` with which it ends.
fn unhandled(text: &[u8]) -> Option<&[u8]>
    ensures { option_copied result ≡ unhandled text.now }
{
    if text.len() <= 8 {
        return None;
    }
    if !text.ends_with(b"IfFail:") {
        return None;
    }
    Some(&text[..text.len() - 7])
}

fn argument_name(text: &[u8]) -> &[u8]
    ensures { result.now ≡ argument_name text.now }
{
    if text.is_empty() { text } else { &text[1..] }
}

fn delegate_name(text: &[u8]) -> &[u8]
    ensures { result.now ≡ delegate_name text.now }
{
    &text[..text.len().saturating_sub(1)]
}

// A text with a colon behind it.
fn with_colon(alloc: Global, text: &[u8]) -> Result<Vec<u8>, OutOfMemory>
    ensures { IfOk result (λ bytes. bytes.items ≡ setter text.now) }
{
    let mut bytes = Vec::from_slice(alloc, text)?;
    bytes.push(b':')?;
    Ok(bytes)
}

// The number of a text, which it has or gets.
fn number(names: &mut Names, text: &[u8]) -> Result<u32, OutOfMemory>
    requires { length names.old < 500000000 }
    ensures number { IfOk result (λ n. Lasts names.new (λ number. n ≡ number text.now)) }
    ensures names { OnOk result (names.new ≡ with_text names.old text.now) }
    ensures grows { Grows 1 names.old names.new }
{
    let name = names.name(text)?;
    names.has_each_once();
    Ok(name.0)
}

// The numbers of a name and of that of its assignment slot.
fn label(alloc: Global, names: &mut Names, text: &[u8]) -> Result<(u32, u32), OutOfMemory>
    requires { length names.old + 2 ≤ 500000000 }
    ensures numbers { IfOk result (λ n. Lasts names.new (λ number. (n.0 ≡ number text.now) × (n.1 ≡ number (setter text.now)))) }
    ensures names { OnOk result (names.new ≡ fold with_text names.old (text.now ∷ setter text.now ∷ [])) }
    ensures grows { Grows 2 names.old names.new }
{
    let name = number(names, text)?;
    let setter = with_colon(alloc, text)?;
    let setter = number(names, setter.as_slice())?;
    Ok((name, setter))
}

fn name(alloc: Global, names: &mut Names, text: &[u8]) -> Result<Symbol, OutOfMemory>
    requires { length names.old + 2 ≤ 500000000 }
    ensures symbol { IfOk result (λ s. Lasts names.new (λ number. s ≡ symbol_at number kind.Name text.now 0 0)) }
    ensures names { OnOk result (names.new ≡ fold with_text names.old (named_by kind.Name text.now)) }
    ensures grows { Grows 2 names.old names.new }
{
    let (name, setter) = label(alloc, names, text)?;
    Ok(Symbol::Name {
        name,
        setter,
        reserved: reserved(text),
    })
}

fn argument(alloc: Global, names: &mut Names, text: &[u8]) -> Result<Symbol, OutOfMemory>
    requires { length names.old + 2 ≤ 500000000 }
    ensures symbol { IfOk result (λ s. Lasts names.new (λ number. s ≡ symbol_at number kind.Argument text.now 0 0)) }
    ensures names { OnOk result (names.new ≡ fold with_text names.old (named_by kind.Argument text.now)) }
    ensures grows { Grows 2 names.old names.new }
{
    let text = argument_name(text);
    let (name, setter) = label(alloc, names, text)?;
    Ok(Symbol::Argument {
        name,
        setter,
        reserved: reserved(text),
    })
}

fn delegate(names: &mut Names, text: &[u8]) -> Result<Symbol, OutOfMemory>
    requires { length names.old + 2 ≤ 500000000 }
    ensures symbol { IfOk result (λ s. Lasts names.new (λ number. s ≡ symbol_at number kind.Delegate text.now 0 0)) }
    ensures names { OnOk result (names.new ≡ fold with_text names.old (named_by kind.Delegate text.now)) }
    ensures grows { Grows 2 names.old names.new }
{
    let text = delegate_name(text);
    let name = number(names, text)?;
    Ok(Symbol::Delegate {
        name,
        reserved: reserved(text),
    })
}

fn operator(names: &mut Names, text: &[u8]) -> Result<Symbol, OutOfMemory>
    requires { length names.old + 2 ≤ 500000000 }
    ensures symbol { IfOk result (λ s. Lasts names.new (λ number. s ≡ symbol_at number kind.Operator text.now 0 0)) }
    ensures names { OnOk result (names.new ≡ fold with_text names.old (named_by kind.Operator text.now)) }
    ensures grows { Grows 2 names.old names.new }
{
    let name = number(names, text)?;
    Ok(Symbol::Operator {
        name,
        role: role(text),
    })
}

fn keyword(names: &mut Names, text: &[u8]) -> Result<Symbol, OutOfMemory>
    requires { length names.old + 2 ≤ 500000000 }
    ensures symbol { IfOk result (λ s. Lasts names.new (λ number. s ≡ symbol_at number kind.Keyword text.now 0 0)) }
    ensures names { OnOk result (names.new ≡ fold with_text names.old (named_by kind.Keyword text.now)) }
    ensures grows { Grows 2 names.old names.new }
{
    let name = number(names, text)?;
    Ok(Symbol::Keyword(name))
}

fn capital_keyword(names: &mut Names, text: &[u8]) -> Result<Symbol, OutOfMemory>
    requires { length names.old + 2 ≤ 500000000 }
    ensures symbol { IfOk result (λ s. Lasts names.new (λ number. s ≡ symbol_at number kind.CapitalKeyword text.now 0 0)) }
    ensures names { OnOk result (names.new ≡ fold with_text names.old (named_by kind.CapitalKeyword text.now)) }
    ensures grows { Grows 2 names.old names.new }
{
    let name = number(names, text)?;
    Ok(Symbol::CapitalKeyword {
        name,
        handles: is_handler(text),
    })
}

fn primitive(names: &mut Names, text: &[u8]) -> Result<Symbol, OutOfMemory>
    requires { length names.old + 2 ≤ 500000000 }
    ensures symbol { IfOk result (λ s. Lasts names.new (λ number. s ≡ symbol_at number kind.Primitive text.now 0 0)) }
    ensures names { OnOk result (names.new ≡ fold with_text names.old (named_by kind.Primitive text.now)) }
    ensures grows { Grows 2 names.old names.new }
{
    if is_restart(text) {
        return Ok(Symbol::Restart);
    }
    let name = number(names, text)?;
    Ok(Symbol::Primitive(name))
}

fn primitive_keyword(names: &mut Names, text: &[u8]) -> Result<Symbol, OutOfMemory>
    requires { length names.old + 2 ≤ 500000000 }
    ensures symbol { IfOk result (λ s. Lasts names.new (λ number. s ≡ symbol_at number kind.PrimitiveKeyword text.now 0 0)) }
    ensures names { OnOk result (names.new ≡ fold with_text names.old (named_by kind.PrimitiveKeyword text.now)) }
    ensures grows { Grows 2 names.old names.new }
{
    if is_restart_keyword(text) {
        return Ok(Symbol::RestartKeyword);
    }
    let name = number(names, text)?;
    let Some(base) = unhandled(text) else {
        return Ok(Symbol::PrimitiveKeyword {
            name,
            handled: None,
        });
    };
    let base = number(names, base)?;
    Ok(Symbol::PrimitiveKeyword {
        name,
        handled: Some(base),
    })
}

// The symbol of a token of a text.
fn symbol(
    alloc: Global,
    bytes: &[u8],
    names: &mut Names,
    token: Token,
) -> Result<Symbol, OutOfMemory>
    requires small { length bytes.now ≤ 1048576 }
    requires within { LiesIn (length bytes.now) token }
    requires room { length names.old + 2 ≤ 500000000 }
    ensures symbol { IfOk result (λ s. Lasts names.new (λ number. s ≡ symbol_at number token.kind (text_of bytes.now token) token.start token.end)) }
    ensures names { OnOk result (names.new ≡ fold with_text names.old (needed bytes.now token)) }
    ensures grows { Grows 2 names.old names.new }
{
    let text = text_of(bytes, &token);
    match token.kind {
        Kind::Integer(int) => return Ok(Symbol::Integer(int)),
        Kind::StringLiteral => {
            return Ok(Symbol::Text {
                start: token.start + 1,
                end: token.end.saturating_sub(1),
            });
        }
        Kind::Name => return name(alloc, names, text),
        Kind::Primitive => return primitive(names, text),
        Kind::Keyword => return keyword(names, text),
        Kind::PrimitiveKeyword => return primitive_keyword(names, text),
        Kind::CapitalKeyword => return capital_keyword(names, text),
        Kind::Argument => return argument(alloc, names, text),
        Kind::Delegate => return delegate(names, text),
        Kind::Operator => return operator(names, text),
        Kind::OpenParen => return Ok(Symbol::OpenParen),
        Kind::CloseParen => return Ok(Symbol::CloseParen),
        Kind::OpenBracket => return Ok(Symbol::OpenBracket),
        Kind::CloseBracket => return Ok(Symbol::CloseBracket),
        Kind::Bar => return Ok(Symbol::Bar),
        Kind::Period => return Ok(Symbol::Period),
        Kind::Caret => return Ok(Symbol::Caret),
        Kind::End => return Ok(Symbol::End),
        Kind::Bad(fault) => return Ok(Symbol::Bad(fault)),
    }
}

// The sign of a token of a text.
fn sign(alloc: Global, bytes: &[u8], names: &mut Names, token: Token) -> Result<Sign, OutOfMemory>
    requires small { length bytes.now ≤ 1048576 }
    requires within { LiesIn (length bytes.now) token }
    requires room { length names.old + 2 ≤ 500000000 }
    ensures sign { IfOk result (λ s. (more : List (List ℕ)) → s ≡ sign_of (names.new ++ more) bytes.now token) }
    ensures names { OnOk result (names.new ≡ fold with_text names.old (needed bytes.now token)) }
    ensures grows { Grows 2 names.old names.new }
{
    let symbol = symbol(alloc, bytes, names, token)?;
    Ok(Sign {
        symbol,
        spot: Spot {
            line: token.line,
            column: token.column,
        },
    })
}

// The signs of tokens of a text, in their order.
fn signs_at(
    alloc: Global,
    bytes: &[u8],
    names: &mut Names,
    tokens: &[Token],
) -> Result<SignList, OutOfMemory>
    requires small { length bytes.now ≤ 1048576 }
    requires within { All (LiesIn (length bytes.now)) tokens.now }
    requires room { length names.old + 2 * length tokens.now ≤ 500000000 }
    ensures signs { IfOk result (λ list. list ≡ map (sign_of names.new bytes.now) tokens.now) }
    ensures names { OnOk result (names.new ≡ names_after names.old bytes.now tokens.now) }
    ensures grows { Grows (2 * length tokens.now) names.old names.new }
{
    let mut list = SignList::new(alloc);
    for token in tokens {
        let sign = sign(alloc, bytes, names, *token)?;
        list.push(sign)?;
    }
    Ok(list)
}

/// The signs of a text. Each text that needs a name has one from now on, and keeps that which it had before.
pub fn signs_of(alloc: Global, bytes: &[u8], names: &mut Names) -> Result<SignList, OutOfMemory>
    requires small { length bytes.now ≤ 1048576 }
    // There is room for two names a byte, and two for the end.
    requires room { length names.old + 2 * (length bytes.now + 1) ≤ 500000000 }
    ensures exact { IfOk result (λ list. list ≡ signs names.old bytes.now) }
    ensures closed { IfOk result IsClosed }
    ensures names { OnOk result (names.new ≡ names_after names.old bytes.now (tokens bytes.now)) }
    ensures kept { Keeps names.old names.new }
    ensures few { length names.new ≤ length names.old + 2 * (length bytes.now + 1) }
{
    let tokens = scan(alloc, bytes)?;
    signs_at(alloc, bytes, names, tokens.as_slice())
}
