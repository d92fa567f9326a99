//! Scripts of rehearsals, read whole or refused at a line.
ghost use Rattle.std.specs.Prelude.{◌≡◌, ℕ, ◌+◌, ◌*◌, ◌<◌, ◌≤◌, ◌∷◌, List, []};
ghost use Rattle.std.specs.Prelude.{length, IfOk, MatchResult, MatchBool, position, ◌==◌};
ghost use Rattle.std.specs.List.{AllZip};
ghost use Rattle.std.specs.Str.Lines.{lines, strip_carriage_return};
ghost use Rattle.loss_scripts.specs.declared.line.ScriptLine.{ScriptLine};
ghost use Rattle.loss_scripts.specs.Line.{IsLine};
ghost use Rattle.odt_machine.specs.Machine.{largest_words};
ghost use Rattle.loss_scripts.specs.Script.{MayCome, IsInOrder, IsScript, IsScriptFault, script_limit};
ghost use Rattle.loss_scripts.specs.Law.{IsOnlyScript, IsOnlyFault};
ghost use Rattle.loss_scripts.specs.Draft.{HasNamed, Joins};

use crate::line::{ScriptLine, ScriptStep, Setting, Waiting, read_line};
use host_core::PLAIN_PATIENCE;
use odt_machine::{LARGEST_WORDS, PLAIN_STYLE, Style};
use std::alloc::{AllocError, Global};

/// The most bytes that a script may have.
pub const SCRIPT_LIMIT: usize = 1_048_576;

/// A line that puts a word into memory.
#[derive(Clone, Copy)]
pub struct PutLine {
    /// The line's number, from 1.
    pub line: u32,

    /// Where the word goes.
    pub address: u16,

    /// The word.
    pub value: u16,
}

/// An event line.
#[derive(Clone, Copy)]
pub struct StepLine {
    /// The line's number, from 1.
    pub line: u32,

    /// What it lets happen.
    pub step: ScriptStep,
}

/// A script: what it sets up, and what it lets happen.
#[derive(Drop)]
pub struct Script {
    /// The size of the machine, in words.
    pub words: u16,

    /// The machine's style.
    pub style: Style,

    /// The host's patience.
    pub patience: u32,

    /// The characters that wait for the host at the opening.
    pub waiting: Waiting,

    /// The words that are put into memory, in order.
    pub puts: Vec<PutLine>,

    /// The event lines, in order.
    pub steps: Vec<StepLine>,
}

/// Why a text was not read as a script.
#[derive(Clone, Copy)]
pub enum ScriptFault {
    /// It is refused at this line, counted from 1; 0 is a text that is too long.
    Refused(u32),

    /// A growth of memory was refused.
    Memory,
}

impl From<AllocError> for ScriptFault {
    ghost use Rattle.std.specs.Prelude.{◌≡◌};
    ghost use Rattle.loss_scripts.specs.declared.script.ScriptFault.TheVariants.{Memory};

    ghost from_gives = { λ _ error. error ≡ Memory };

    fn from(_refused: AllocError) -> ScriptFault {
        ScriptFault::Memory
    }
}

// What the lines so far have named.
#[derive(Drop)]
struct Draft {
    words: Option<u16>,
    style: Option<Style>,
    patience: Option<u32>,
    waiting: Option<Waiting>,
    puts: Vec<PutLine>,
    steps: Vec<StepLine>,
}

impl Draft {
    fn new(alloc: Global) -> Draft
        ensures { HasNamed [] result }
    {
        Draft {
            words: None,
            style: None,
            patience: None,
            waiting: None,
            puts: Vec::new(alloc),
            steps: Vec::new(alloc),
        }
    }

    // Takes what the next line says, by its number. Answers whether the line may come.
    fn add(&mut self, number: u32, said: ScriptLine) -> Result<bool, AllocError>
        ensures { IfOk result (λ added. (before : List ScriptLine) → HasNamed before self.old → number ≡ length before + 1 →
            MatchBool added (Joins before said self.new) (MayCome before said → ⊥)) }
    {
        match said {
            ScriptLine::Blank => Ok(true),
            ScriptLine::Step(step) => {
                self.steps.push(StepLine { line: number, step })?;
                Ok(true)
            }
            ScriptLine::Setting(setting) => {
                if !self.steps.is_empty() {
                    return Ok(false);
                }
                self.set(number, setting)
            }
        }
    }

    // Takes what a setup line names. Answers whether it repeats no other.
    fn set(&mut self, number: u32, setting: Setting) -> Result<bool, AllocError>
        requires { self.old.steps.items ≡ [] }
        ensures { IfOk result (λ added. (before : List ScriptLine) → HasNamed before self.old → number ≡ length before + 1 →
            MatchBool added (Joins before (ScriptLine.Setting setting) self.new) (MayCome before (ScriptLine.Setting setting) → ⊥)) }
    {
        match setting {
            Setting::Words(n) => Ok(self.words.replace(n).is_none()),
            Setting::OfStyle(style) => Ok(self.style.replace(style).is_none()),
            Setting::Patience(n) => Ok(self.patience.replace(n).is_none()),
            Setting::Wait(characters) => Ok(self.waiting.replace(characters).is_none()),
            Setting::Put(address, value) => {
                self.puts.push(PutLine {
                    line: number,
                    address,
                    value,
                })?;
                Ok(true)
            }
        }
    }

    // The script, with the defaults of what no line named.
    fn finish(self) -> Script
        ensures { (text : List ℕ) (said : List ScriptLine) → length text ≤ script_limit → AllZip IsLine (lines text) said → IsInOrder said →
            HasNamed said self → IsScript text result }
    {
        let Draft {
            words,
            style,
            patience,
            waiting,
            puts,
            steps,
        } = self;
        Script {
            words: words.unwrap_or(LARGEST_WORDS),
            style: style.unwrap_or(PLAIN_STYLE),
            patience: patience.unwrap_or(PLAIN_PATIENCE),
            waiting: waiting.unwrap_or_default(),
            puts,
            steps,
        }
    }
}

// A line that ends with a line feed loses one carriage return before it.
fn without_return(line: &[u8]) -> &[u8]
    ensures { result.now ≡ strip_carriage_return line.now }
{
    match line {
        [rest @ .., b'\r'] => rest,
        _ => line,
    }
}

// Where the first line feed stands.
fn line_end(text: &[u8]) -> Option<usize>
    ensures { result ≡ position (λ c. c == 10) text.now }
{
    text.iter().position(|c| *c == b'\n')
}

// The first line, without what ends it, and what follows.
fn first_line(text: &[u8]) -> (&[u8], &[u8])
    requires { 0 < length text.now }
    ensures lines { lines text.now ≡ result.0.now ∷ lines result.1.now }
    ensures shorter { length result.1.now < length text.now }
{
    match line_end(text) {
        Some(end) => (without_return(&text[..end]), &text[end + 1..]),
        None => (text, &text[text.len()..]),
    }
}

/// The script that a text is: it is no other, and none where it is refused, which is at one line.
///
/// `Refused` is the first line that is of no form, has a number out of range, repeats a setup line
/// or sets up after an event line; 0 where the text has more than 1,048,576 bytes. `Memory` comes
/// only where a growth was refused.
pub fn read_script(alloc: Global, text: &[u8]) -> Result<Script, ScriptFault>
    ensures read { MatchResult result (IsScript text.now) (IsScriptFault text.now) }
    ensures alone { MatchResult result (IsOnlyScript text.now) (IsOnlyFault text.now) }
    ensures size { IfOk result (λ script. script.words ≤ largest_words) }
{
    if text.len() > SCRIPT_LIMIT {
        return Err(ScriptFault::Refused(0));
    }
    let mut draft = Draft::new(alloc);
    let mut rest = text;
    let mut number = 0;
    while !rest.is_empty() {
        let (line, after) = first_line(rest);
        number += 1;
        let Some(said) = read_line(line) else {
            return Err(ScriptFault::Refused(number));
        };
        let may_come = draft.add(number, said)?;
        if !may_come {
            return Err(ScriptFault::Refused(number));
        }
        rest = after;
    }
    Ok(draft.finish())
}
