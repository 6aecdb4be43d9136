//! Numbers, letters and addresses as texts spell them: bytes that are appended to a text.
#![tactic(auto)]

ghost use Rattle.std.specs.Prelude.{◌≡◌, ◌++◌, ◌<◌, codes, decimal, false, OnErr, OnOk};
ghost use Rattle.std.specs.Fmt.{digit_glyph};
ghost use Rattle.decimal_text.specs.Text.{hexadecimal, letter, address, named};

use itoa::Buffer;
use op_model::{Kind, NoMemory};

/// The letter of a kind of operation.
pub fn letter_of(kind: Kind) -> &'static str
    ensures { result.now ≡ letter kind }
{
    match kind {
        Kind::Load => "L",
        Kind::Store => "S",
        Kind::Swap => "X",
        Kind::Add => "A",
    }
}

/// Appends these bytes. Where memory is wanting, nothing is appended.
pub fn put_bytes(out: &mut Vec<u8>, bytes: &[u8]) -> Result<(), NoMemory>
    ensures ok { OnOk result (out.new.items ≡ out.old.items ++ bytes.now) }
    ensures err { OnErr result (out.new.items ≡ out.old.items) }
{
    out.extend_from_slice(bytes).map_err(|_| NoMemory)
}

/// Appends a number without leading zeros. Where memory is wanting, nothing is appended.
pub fn put_decimal(out: &mut Vec<u8>, n: u64) -> Result<(), NoMemory>
    ensures ok { OnOk result (out.new.items ≡ out.old.items ++ decimal n) }
    ensures err { OnErr result (out.new.items ≡ out.old.items) }
{
    put_bytes(out, Buffer::new().format(n).as_bytes())
}

/// Appends a number in lower-case hexadecimal digits, without leading zeros. Where memory is wanting, some of its digits may have been appended.
#[tactic(auto, using(crate::proofs::Hex::hex_one, crate::proofs::Hex::hex_last))]
pub fn put_hexadecimal(out: &mut Vec<u8>, n: u64) -> Result<(), NoMemory>
    ensures { OnOk result (out.new.items ≡ out.old.items ++ hexadecimal n) }
{
    if n < 16 {
        return put_bytes(out, &[glyph(n as u8)]);
    }
    put_hexadecimal(out, n / 16)?;
    put_bytes(out, &[glyph((n % 16) as u8)])
}

fn glyph(digit: u8) -> u8
    requires { digit < 16 }
    ensures { result ≡ digit_glyph false digit }
{
    if digit < 10 {
        b'0' + digit
    } else {
        b'a' + (digit - 10)
    }
}

/// Appends a line of a name, which has the space behind it, and a number. Where memory is wanting, a part of the line may have been appended.
pub fn put_named(out: &mut Vec<u8>, name: &[u8], n: u64) -> Result<(), NoMemory>
    ensures { OnOk result (out.new.items ≡ out.old.items ++ named name.now n) }
{
    put_bytes(out, name)?;
    put_decimal(out, n)?;
    put_bytes(out, b"\n")
}

/// Appends the byte address of the word with this number. Where memory is wanting, a part of it may have been appended.
pub fn put_address(out: &mut Vec<u8>, word: u32) -> Result<(), NoMemory>
    ensures { OnOk result (out.new.items ≡ out.old.items ++ address word) }
{
    put_bytes(out, b"0x")?;
    put_hexadecimal(out, 8 * u64::from(word))
}
