//! Notes that a terminal may show.
ghost use Rattle.std.specs.Prelude.{◌≡◌, ◌<◌, ◌++◌, IfOk};
ghost use Rattle.command_words.specs.Answers.{digit, escaped, is_control, printable};

use sol_base::{Blob, OutOfMemory};
use std::alloc::Global;

/// Whether a terminal acts on the byte: it is below a blank, but for the line feed, or it is delete.
fn is_control(byte: u8) -> bool
    ensures { result ≡ is_control byte }
{
    byte < 32 && byte != b'\n' || byte == 127
}

fn digit(value: u8) -> u8
    requires { value < 16 }
    ensures { result ≡ digit value }
{
    if value < 10 {
        b'0' + value
    } else {
        b'a' - 10 + value
    }
}

/// The byte, or `\x` and two hexadecimal digits for one on which a terminal acts.
fn add_escaped(out: &mut Blob, byte: u8) -> Result<(), OutOfMemory>
    ensures { IfOk result (λ _. out.new ≡ out.old ++ escaped byte) }
{
    if is_control(byte) {
        out.append(&[b'\\', b'x', digit(byte / 16), digit(byte % 16)])
    } else {
        out.append(&[byte])
    }
}

/// The notes without bytes on which a terminal acts.
pub fn printable(alloc: Global, notes: &[u8]) -> Result<Blob, OutOfMemory>
    ensures { IfOk result (λ out. out ≡ printable notes.now) }
{
    let mut out = Blob::new(alloc);
    for byte in notes {
        add_escaped(&mut out, *byte)?;
    }
    Ok(out)
}
