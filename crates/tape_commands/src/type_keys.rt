//! The command `type`: keys typed into a simulated console.
ghost use Rattle.std.specs.Prelude.{◌≡◌, ◌≤◌, length, OnOk, OnErr, IfOk, IfErr};
ghost use Rattle.std.specs.Io.KnownBytes.{Appends};
ghost use Rattle.byte_io.specs.Output.{WritesProperPrefix};
ghost use Rattle.request_values.specs.Change.{◌⇒◌};
ghost use Rattle.tape_commands.specs.TypedKeys.{typed_key as key_of_character, after_typing, answers_of, IsTypedToEnd, IsTypeFault};
ghost use Rattle.tape_commands.specs.Typing.{IsTypedThrough, IsTypingFailure};

use crate::output::flushed;
use arrayvec::ArrayVec;
use byte_io::{WriteFault, write_whole};
use endings::{CommandFault, Failure, FaultOutput, Output, STANDARD_INPUT, Status, Streams};
use odt_machine::{CARRIAGE_RETURN, LINE_FEED, Odt, OdtError};
use request_values::Console;
use std::alloc::Global;
use std::io::{Read, Write};

// The most keys that are typed. What stands behind them stays unread.
const KEY_LIMIT: usize = 1_048_576;

// How many keys are asked for in one read. What a terminal or a pipe has is answered at once.
const PIECE: usize = 512;

// The answers to the keys of one read, nine characters for each at most.
type Answers = ArrayVec<u8, 4608>;

/// Types the characters of an input into a console, a line feed as a carriage return, and writes
/// the answers. Answers how many keys were typed.
///
/// It ends with the input or after 1,048,576 keys. The answers to what one read gave are written
/// before the next read. `ReadKeys` is a failed read and `Write` a failed write: neither is tried
/// again, and the machine is then as the keys that were read leave it.
pub fn type_to<R: Read, W: Write>(
    odt: &mut Odt,
    keys: &mut R,
    out: &mut W,
) -> Result<u32, CommandFault>
    ensures ok { IfOk result (IsTypedToEnd (R.remaining keys.old ⇒ R.remaining keys.new) (odt.old ⇒ odt.new) (W.contents out.old ⇒ W.contents out.new)) }
    ensures err { IfErr result (IsTypeFault (R.remaining keys.old ⇒ R.remaining keys.new) (odt.old ⇒ odt.new) (W.contents out.old ⇒ W.contents out.new)) }
{
    let mut count = 0;
    let mut piece = [0u8; PIECE];
    while count < KEY_LIMIT {
        let room = (KEY_LIMIT - count).min(PIECE);
        let Ok(read) = keys.read(&mut piece[..room]) else {
            return Err(CommandFault::ReadKeys);
        };
        if read == 0 {
            break;
        }
        type_piece(odt, &piece[..read], out)?;
        count += read;
    }
    Ok(count as u32)
}

fn type_piece<W: Write>(odt: &mut Odt, keys: &[u8], out: &mut W) -> Result<(), WriteFault>
    requires { length keys.now ≤ 512 }
    ensures machine { odt.new ≡ after_typing odt.old keys.now }
    ensures ok { OnOk result (Appends (W.contents out.old) (W.contents out.new) (answers_of odt.old keys.now)) }
    ensures err { OnErr result (WritesProperPrefix (W.contents out.old) (W.contents out.new) (answers_of odt.old keys.now)) }
{
    let answers = answers_to(odt, keys);
    write_whole(out, &answers)
}

fn answers_to(odt: &mut Odt, keys: &[u8]) -> Answers
    requires { length keys.now ≤ 512 }
    ensures machine { odt.new ≡ after_typing odt.old keys.now }
    ensures answers { result.items ≡ answers_of odt.old keys.now }
{
    let mut answers = Answers::new();
    for key in keys {
        let answer = odt.take(typed_key(*key));
        answers.try_extend_from_slice(&answer).unwrap();
    }
    answers
}

// The key that a character types.
fn typed_key(character: u8) -> u8
    ensures { result ≡ key_of_character character }
{
    if character == LINE_FEED {
        CARRIAGE_RETURN
    } else {
        character
    }
}

/// Types standard input into a simulated console.
pub(crate) fn type_input<R: Read, W: Output, E: FaultOutput>(
    alloc: Global,
    console: Console,
    streams: &mut Streams<R, W, E>,
) -> Result<Status, Failure<'static>>
    ensures ok { IfOk result (λ status. IsTypedThrough console streams.old streams.new
        × (status ≡ Status.Done)) }
    ensures err { IfErr result (IsTypingFailure console streams.old streams.new) }
    ensures quiet { streams.new.err ≡ streams.old.err }
{
    let mut odt = match Odt::new(alloc, console.words, console.style) {
        Ok(odt) => odt,
        Err(OdtError::TooLarge) => return Err(Failure::TooLarge),
        Err(OdtError::Memory) => return Err(Failure::NoMemory),
    };
    match type_to(&mut odt, &mut streams.input, &mut streams.out) {
        Ok(_) => flushed(&mut streams.out, Status::Done),
        Err(fault) => Err(Failure::of(fault, &[], STANDARD_INPUT)),
    }
}
