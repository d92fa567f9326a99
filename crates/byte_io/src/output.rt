//! Writing a text whole, or a prefix of it.
ghost use Rattle.std.specs.Prelude.{OnOk, OnErr};
ghost use Rattle.std.specs.Io.KnownBytes.{Appends};
ghost use Rattle.byte_io.specs.Output.{WritesPrefix, WritesProperPrefix};

use std::io::Write;

/// A write failed, or took nothing. It was not tried again, whatever its error says.
#[derive(Clone, Copy)]
pub struct WriteFault;

/// Writes a text. At the first write that fails it stops, with what was written before.
pub fn write_whole<W: Write>(out: &mut W, text: &[u8]) -> Result<(), WriteFault>
    ensures ok { OnOk result (Appends (W.contents out.old) (W.contents out.new) text.now) }
    ensures err { OnErr result (WritesProperPrefix (W.contents out.old) (W.contents out.new) text.now) }
{
    let mut left = text;
    while !left.is_empty() {
        match out.write(left) {
            Ok(0) | Err(_) => return Err(WriteFault),
            Ok(count) => left = &left[count..],
        }
    }
    Ok(())
}

/// Writes a text and flushes it, so that nothing of it waits in the program.
///
/// The fault says that something of the text may be missing: a write failed, or the flush did.
pub fn write_and_flush<W: Write>(out: &mut W, text: &[u8]) -> Result<(), WriteFault>
    ensures ok { OnOk result (Appends (W.contents out.old) (W.contents out.new) text.now) }
    ensures err { OnErr result (WritesPrefix (W.contents out.old) (W.contents out.new) text.now) }
{
    write_whole(out, text)?;
    if out.flush().is_err() {
        return Err(WriteFault);
    }
    Ok(())
}
