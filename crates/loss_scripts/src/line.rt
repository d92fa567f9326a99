//! The lines of a script: what each says, by its form.
ghost use Rattle.std.specs.Prelude.{◌≡◌, ℕ, ◌+◌, ◌-◌, ◌*◌, ◌<◌, ◌≤◌, ◌++◌, List, IfSome, IfNone, IsTrue, ◌↔◌, codes};
ghost use Rattle.loss_scripts.specs.Line.{IsNumber, HasNumber, field, IsWait, IsPut, IsSetting, IsCounted, BeginsWithCode, IsStep, IsLine};
ghost use Rattle.octal.specs.Octal.{IsOct6};
ghost use Rattle.odt_machine.specs.Style.{largest_style, style_number};

use arrayvec::ArrayVec;
use line_world::{Event, MOST_WAITING};
use octal::read_oct6;
use odt_machine::{LARGEST_STYLE, LARGEST_WORDS, Style};

// A number has one to ten digits.
const MOST_DIGITS: usize = 10;

// A word of memory is written as so many octal digits.
const OCTAL_DIGITS: usize = 6;

// The largest number of a style, as the numbers of a line are.
const LAST_STYLE: u32 = LARGEST_STYLE as u32;

// The last place at which a line can name a lost character.
const LAST_PLACE: u32 = 255;

// The most times that one line can ask for a step.
const MOST_TIMES: u32 = 1_000_000;

/// The characters that wait for the host at the opening, the oldest first.
pub type Waiting = ArrayVec<u8, MOST_WAITING>;

/// What a setup line says.
#[derive(Drop)]
pub(crate) enum Setting {
    /// `words N`: the size of the machine.
    Words(u16),

    /// `style N`: its style, by its number.
    OfStyle(Style),

    /// `patience N`: the host's patience.
    Patience(u32),

    /// `wait HH ..`: the characters that wait at the opening.
    Wait(Waiting),

    /// `put AAAAAA VVVVVV`: a word of memory, by its address and its value.
    Put(u16, u16),
}

/// What an event line says.
#[derive(Clone, Copy)]
pub enum ScriptStep {
    /// An event, so many times.
    Times(Event, u32),

    /// `to N`: a clean line until so many characters were sent.
    Until(u32),

    /// `clean`: a clean line to the end.
    Clean,
}

/// What a line of a script says.
#[derive(Drop)]
pub(crate) enum ScriptLine {
    /// Nothing: it is empty or a comment.
    Blank,

    /// It sets up the rehearsal.
    Setting(Setting),

    /// It lets something happen.
    Step(ScriptStep),
}

// The number that one to ten decimal digits stand for.
fn number(text: &[u8]) -> Option<u64>
    ensures found { IfSome result (IsNumber text.now) }
    ensures none { IfNone result ((n : ℕ) → IsNumber text.now n → ⊥) }
{
    if text.is_empty() || text.len() > MOST_DIGITS {
        return None;
    }
    let mut value: u64 = 0;
    for character in text {
        let digit = char::from(*character).to_digit(10)?;
        value = 10 * value + u64::from(digit);
    }
    Some(value)
}

fn is_text(text: &[u8], wanted: &[u8]) -> bool
    ensures { IsTrue result ↔ (text.now ≡ wanted.now) }
{
    text == wanted
}

// What follows a keyword.
fn rest_after<'a>(text: &'a [u8], keyword: &[u8]) -> Option<&'a [u8]>
    ensures found { IfSome result (λ rest. text.now ≡ keyword.now ++ rest.now) }
    ensures none { IfNone result ((rest : List ℕ) → text.now ≡ keyword.now ++ rest → ⊥) }
{
    text.strip_prefix(keyword)
}

// The number behind a keyword, where it lies from `low` to `high`.
fn number_after(text: &[u8], keyword: &[u8], low: u32, high: u32) -> Option<u32>
    ensures found { IfSome result (HasNumber text.now (field keyword.now low high)) }
    ensures none { IfNone result ((n : ℕ) → HasNumber text.now (field keyword.now low high) n → ⊥) }
    ensures below { IfSome result (λ n. n ≤ high) }
{
    let rest = rest_after(text, keyword)?;
    let n = number(rest)?;
    if u64::from(low) <= n && n <= u64::from(high) {
        Some(n as u32)
    } else {
        None
    }
}

// The number of times that an event line asks for: once for the keyword alone, else its count.
fn times(text: &[u8], alone: &[u8], counted: &[u8]) -> Option<u32>
    ensures found { IfSome result (IsCounted text.now alone.now counted.now) }
    ensures none { IfNone result ((n : ℕ) → IsCounted text.now alone.now counted.now n → ⊥) }
{
    if is_text(text, alone) {
        return Some(1);
    }
    number_after(text, counted, 1, MOST_TIMES)
}

// A space and two hexadecimal digits at the front, and what follows them.
fn code(text: &[u8]) -> Option<(u8, &[u8])>
    ensures found { IfSome result (λ code. BeginsWithCode text.now code.0 code.1.now) }
    ensures none { IfNone result ((c : ℕ) (rest : List ℕ) → BeginsWithCode text.now c rest → ⊥) }
{
    match text {
        [b' ', high, low, rest @ ..] => {
            let high = char::from(*high).to_digit(16)?;
            let low = char::from(*low).to_digit(16)?;
            Some(((16 * high + low) as u8, rest))
        }
        _ => None,
    }
}

// The characters of a line that lets characters wait.
fn waiting(text: &[u8]) -> Option<Waiting>
    ensures found { IfSome result (λ waiting. IsWait text.now waiting.items) }
    ensures none { IfNone result ((characters : List ℕ) → IsWait text.now characters → ⊥) }
{
    let mut rest = rest_after(text, b"wait")?;
    let mut waiting = Waiting::new();
    while let Some((character, after)) = code(rest) {
        if waiting.is_full() {
            return None;
        }
        waiting.push(character);
        rest = after;
    }
    if rest.is_empty() && !waiting.is_empty() {
        Some(waiting)
    } else {
        None
    }
}

// The word that six octal digits stand for.
fn word(text: &[u8]) -> Option<u16>
    ensures { (word : ℕ) → (result ≡ Some word) ↔ IsOct6 word text.now }
{
    match text {
        [a, b, c, d, e, f] => read_oct6(&[*a, *b, *c, *d, *e, *f]),
        _ => None,
    }
}

// The address and the value of a line that puts a word into memory.
fn put(text: &[u8]) -> Option<(u16, u16)>
    ensures found { IfSome result (λ put. IsPut text.now put.0 put.1) }
    ensures none { IfNone result ((address value : ℕ) → IsPut text.now address value → ⊥) }
{
    let rest = rest_after(text, b"put ")?;
    if rest.len() != 2 * OCTAL_DIGITS + 1 || rest[OCTAL_DIGITS] != b' ' {
        return None;
    }
    let address = word(&rest[..OCTAL_DIGITS])?;
    let value = word(&rest[OCTAL_DIGITS + 1..])?;
    Some((address, value))
}

// The style of a line that names it.
fn style(text: &[u8]) -> Option<Style>
    ensures found { IfSome result (λ style. HasNumber text.now (field (codes "style ") 0 largest_style) (style_number style)) }
    ensures none { IfNone result ((n : ℕ) → HasNumber text.now (field (codes "style ") 0 largest_style) n → ⊥) }
{
    let number = number_after(text, b"style ", 0, LAST_STYLE)?;
    Style::from_number(number as u8)
}

// What a setup line says.
fn read_setting(text: &[u8]) -> Option<Setting>
    ensures found { IfSome result (IsSetting text.now) }
    ensures none { IfNone result ((said : Setting) → IsSetting text.now said → ⊥) }
{
    if let Some(n) = number_after(text, b"words ", 0, u32::from(LARGEST_WORDS)) {
        return Some(Setting::Words(n as u16));
    }
    if let Some(style) = style(text) {
        return Some(Setting::OfStyle(style));
    }
    if let Some(n) = number_after(text, b"patience ", 0, u32::MAX) {
        return Some(Setting::Patience(n));
    }
    if let Some((address, value)) = put(text) {
        return Some(Setting::Put(address, value));
    }
    match waiting(text) {
        Some(characters) => Some(Setting::Wait(characters)),
        None => None,
    }
}

// What an event line says.
fn read_step(text: &[u8]) -> Option<ScriptStep>
    ensures found { IfSome result (IsStep text.now) }
    ensures none { IfNone result ((said : ScriptStep) → IsStep text.now said → ⊥) }
{
    if let Some(n) = times(text, b"take", b"take ") {
        return Some(ScriptStep::Times(Event::Take, n));
    }
    if let Some(n) = times(text, b"hear", b"hear ") {
        return Some(ScriptStep::Times(Event::Hear, n));
    }
    if let Some(k) = number_after(text, b"down ", 0, LAST_PLACE) {
        return Some(ScriptStep::Times(Event::LoseDown(k as u8), 1));
    }
    if let Some(k) = number_after(text, b"up ", 0, LAST_PLACE) {
        return Some(ScriptStep::Times(Event::LoseUp(k as u8), 1));
    }
    if let Some(k) = number_after(text, b"restart ", 0, u32::MAX) {
        return Some(ScriptStep::Times(Event::Restart(k), 1));
    }
    if let Some(n) = number_after(text, b"to ", 1, u32::MAX) {
        return Some(ScriptStep::Until(n));
    }
    if is_text(text, b"quiet") {
        return Some(ScriptStep::Times(Event::Quiet, 1));
    }
    if is_text(text, b"clean") {
        return Some(ScriptStep::Clean);
    }
    None
}

/// What a line says, without the characters that end it: `None` where it is of no form.
pub(crate) fn read_line(text: &[u8]) -> Option<ScriptLine>
    ensures found { IfSome result (IsLine text.now) }
    ensures none { IfNone result ((said : ScriptLine) → IsLine text.now said → ⊥) }
{
    if text.is_empty() || text[0] == b'#' {
        return Some(ScriptLine::Blank);
    }
    if let Some(said) = read_step(text) {
        return Some(ScriptLine::Step(said));
    }
    match read_setting(text) {
        Some(said) => Some(ScriptLine::Setting(said)),
        None => None,
    }
}
