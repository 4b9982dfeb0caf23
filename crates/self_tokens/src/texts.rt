// What the bytes of a token stand for.
ghost use Rattle.std.specs.Prelude.{◌≡◌, ◌≤◌, length, IfOk};
ghost use Rattle.self_tokens.specs.Texts.{LiesIn, text_of, escaped_byte, unescaped};

use crate::symbols::{OutOfMemory, Token};
use std::alloc::Global;

/// The bytes of a token of this text.
pub fn text_of<'a>(bytes: &'a [u8], token: &Token) -> &'a [u8]
    requires { LiesIn (length bytes.now) token.now }
    ensures { result.now ≡ text_of bytes.now token.now }
{
    &bytes[token.start..token.end]
}

fn escaped_byte(letter: u8) -> u8
    ensures { result ≡ escaped_byte letter }
{
    match letter {
        b'n' => b'\n',
        b't' => b'\t',
        b'r' => b'\r',
        b'0' => 0,
        other => other,
    }
}

/// The bytes that the text between the quotes of a string stands for.
pub fn unescape(alloc: Global, text: &[u8]) -> Result<Vec<u8>, OutOfMemory>
    ensures { IfOk result (λ bytes. bytes.items ≡ unescaped text.now) }
{
    let mut bytes = Vec::new(alloc);
    let mut escaped = false;
    for byte in text {
        if escaped {
            bytes.push(escaped_byte(*byte))?;
            escaped = false;
            continue;
        }
        if *byte == b'\\' {
            escaped = true;
            continue;
        }
        bytes.push(*byte)?;
    }
    Ok(bytes)
}
