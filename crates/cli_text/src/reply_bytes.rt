//! A reply as its bytes on a connection, which are shown on one line.
ghost use Rattle.std.specs.Prelude.{◌≡◌, ◌++◌, OnOk};
ghost use Rattle.std.specs.List.{flat_map};
ghost use Rattle.cli_text.specs.Escaping.{escaped};
ghost use Rattle.resp_values.specs.Reply.{reply_spelling};

use crate::hex::print_hex;
use resp_values::Reply;
use resp2::append_reply;
use std::alloc::AllocError;

/// Puts the reply behind the text, as its bytes on a connection are shown: CR as `\r`, LF as `\n`, a backslash as `\\`, and other
/// bytes outside of 32 to 126 as `\x` and two hexadecimal digits. They are spelled in the first list, whose room is used again.
pub fn print_reply(
    reply: &Reply,
    spelling: &mut Vec<u8>,
    out: &mut Vec<u8>,
) -> Result<(), AllocError>
    ensures { OnOk result
        (out.new.items ≡ out.old.items ++ flat_map escaped (reply_spelling reply.now)) }
{
    spelling.clear();
    append_reply(reply, spelling)?;
    print_escaped(spelling.as_slice(), out)
}

// The bytes, each as a line shows it.
fn print_escaped(bytes: &[u8], out: &mut Vec<u8>) -> Result<(), AllocError>
    ensures { OnOk result (out.new.items ≡ out.old.items ++ flat_map escaped bytes.now) }
{
    for byte in bytes {
        print_escaped_byte(*byte, out)?;
    }
    Ok(())
}

fn print_escaped_byte(byte: u8, out: &mut Vec<u8>) -> Result<(), AllocError>
    ensures { OnOk result (out.new.items ≡ out.old.items ++ escaped byte) }
{
    match byte {
        b'\r' => out.extend_from_slice(b"\\r"),
        b'\n' => out.extend_from_slice(b"\\n"),
        b'\\' => out.extend_from_slice(b"\\\\"),
        b' '..=b'~' => out.extend_from_slice(&[byte]),
        _ => print_hex(byte, out),
    }
}
