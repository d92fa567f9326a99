//! The lines of a dialogue: keys, and what the console answered to them.
ghost use Rattle.std.specs.Prelude.{◌≡◌, ◌++◌, ◌∷◌, [], List, codes, OnOk, OnErr, IfErr};
ghost use Rattle.std.specs.Io.KnownBytes.{Appends};
ghost use Rattle.byte_io.specs.Output.{WritesPrefix};
ghost use Rattle.byte_io.specs.Text.{line};
ghost use Rattle.request_values.specs.Change.{◌⇒◌};
ghost use Rattle.tape_commands.specs.Dialogue.{IsTalkFault};
ghost use Rattle.tape_commands.specs.KeyLines.{Answered, Gathers, Holds, Notes, key_text, last_line, shown};

use byte_io::write_whole;
use endings::CommandFault;
use odt_machine::{CARRIAGE_RETURN, LINE_FEED, SPACE};
use std::alloc::{AllocError, Global};
use std::io::Write;

/// Keys that were typed since the last line, and the answers to them.
///
/// While the console merely echoes, keys are collected; the first other answer ends the line.
#[derive(Drop)]
pub(crate) struct KeyLine {
    keys: Vec<u8>,
    answers: Vec<u8>,
}

impl KeyLine {
    /// Nothing was typed yet.
    pub(crate) fn new(alloc: Global) -> KeyLine
        ensures { Gathers [] result }
    {
        KeyLine {
            keys: Vec::new(alloc),
            answers: Vec::new(alloc),
        }
    }

    /// Notes a key and its answer, and writes the line that they end, if they do.
    pub(crate) fn note<W: Write>(
        &mut self,
        key: u8,
        answer: &[u8],
        out: &mut W,
    ) -> Result<(), CommandFault>
        ensures ok { OnOk result ((gathered : List Answered) → Gathers gathered self.old →
            Notes gathered (record { key = key; answer = answer.now } ∷ []) self.new (W.contents out.old ⇒ W.contents out.new)) }
        ensures front { OnErr result ((gathered : List Answered) → Gathers gathered self.old → (more : List Answered) →
            WritesPrefix (W.contents out.old) (W.contents out.new) (key_text (gathered ++ (record { key = key; answer = answer.now } ∷ more)))) }
        ensures err { IfErr result IsTalkFault }
    {
        show(&mut self.keys, &[key])?;
        show(&mut self.answers, answer)?;
        if answer == [key].as_slice() {
            return Ok(());
        }
        self.finish(out)
    }

    /// Writes the line under way, if keys are gathered.
    pub(crate) fn finish<W: Write>(&mut self, out: &mut W) -> Result<(), CommandFault>
        ensures ok { OnOk result ((held : List Answered) → Holds held self.old →
            Appends (W.contents out.old) (W.contents out.new) (last_line held) × Holds [] self.new) }
        ensures front { OnErr result ((held : List Answered) → Holds held self.old → WritesPrefix (W.contents out.old) (W.contents out.new) (last_line held)) }
        ensures err { IfErr result IsTalkFault }
    {
        if self.keys.is_empty() {
            return Ok(());
        }
        end_line(&mut self.keys, &self.answers)?;
        write_whole(out, &self.keys)?;
        self.keys.clear();
        self.answers.clear();
        Ok(())
    }
}

// A line: the keys, and then the answers.
fn end_line(keys: &mut Vec<u8>, answers: &[u8]) -> Result<(), AllocError>
    ensures { OnOk result (keys.new.items ≡ line (keys.old.items ++ codes " -> " ++ answers.now)) }
{
    keys.extend_from_slice(b" -> ")?;
    keys.extend_from_slice(answers)?;
    keys.extend_from_slice(b"\n")
}

// Characters as a line shows them: a space, a carriage return and a line feed have signs of their own.
fn show(text: &mut Vec<u8>, characters: &[u8]) -> Result<(), AllocError>
    ensures { OnOk result (text.new.items ≡ text.old.items ++ shown characters.now) }
{
    for character in characters {
        match *character {
            SPACE => text.extend_from_slice(b"_")?,
            CARRIAGE_RETURN => text.extend_from_slice(b"<CR>")?,
            LINE_FEED => text.extend_from_slice(b"<LF>")?,
            other => text.push(other)?,
        }
    }
    Ok(())
}
