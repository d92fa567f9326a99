ghost use Rattle.std.specs.Prelude.{◌≡◌, ◌≤◌, [], length, IsTrue};
ghost use Rattle.octal.specs.Octal.{is_digit, pushed as pushed_value};
ghost use Rattle.odt_machine.specs.Answer.{illegal_text, longest_answer};
ghost use Rattle.odt_machine.specs.Key.{key_of};
ghost use Rattle.odt_machine.specs.KeyTable.{digits_after, take_of, after_key};
ghost use Rattle.odt_machine.specs.Laws.{StoresOnlyTyped, is_illegal, is_running};
ghost use Rattle.odt_machine.specs.Machine.{IsMachine};

use super::{MANY_DIGITS, Odt};
use crate::answer::{Answer, echo, illegal, opened, prompt, refused, silence};
use crate::key::Key;
use crate::mode::Mode;
use octal::with_digit;

impl Odt {
    /// One typed key: the console goes by its key table, and what it prints is the answer.
    ///
    /// It never refuses: a key that no rule of the mode names is answered as illegal.
    pub fn take(&mut self, key: u8) -> Answer
        ensures machine { self.new ≡ after_key self.old key }
        ensures answer { result.items ≡ (take_of self.old key).answer }

        // Memory changes only where a return ends the typing of a value, and then only that word.
        ensures stores { StoresOnlyTyped self.old.memory self.old.mode (key_of key) self.new.memory }

        // An illegal key stores nothing and forgets what was typed; a running machine is silent.
        ensures illegal { IsTrue (is_illegal self.old.mode (key_of key))
            → (self.new ≡ record self.old { mode = Mode.Prompt }) × (result.items ≡ illegal_text self.old.style key) }
        ensures running { IsTrue (is_running self.old.mode) → (self.new ≡ self.old) × (result.items ≡ []) }
        ensures short { length result.items ≤ longest_answer }
        ensures sound { IsMachine self.new }
    {
        match self.mode {
            Mode::Prompt => self.take_at_prompt(key),
            Mode::Number(value, digits) => self.take_after_number(value, digits, key),
            Mode::Opened(address) => self.take_in_open_word(address, key),
            Mode::Typing(address, value, digits) => self.take_in_deposit(
                address, value, digits, key,
            ),
            Mode::Running(_) => silence(),
        }
    }

    fn take_at_prompt(&mut self, key: u8) -> Answer
        requires { self.old.mode ≡ Mode.Prompt }
        ensures machine { self.new ≡ after_key self.old key }
        ensures answer { result.items ≡ (take_of self.old key).answer }
    {
        match Key::of(key) {
            Key::Digit => {
                self.mode = Mode::Number(pushed(0, key), 1);
                echo(key)
            }
            Key::Return => prompt(self.style),
            Key::Slash | Key::Go | Key::Other => illegal(self.style, key),
        }
    }

    fn take_after_number(&mut self, value: u16, digits: u8, key: u8) -> Answer
        requires { self.old.mode ≡ Mode.Number value digits }
        ensures machine { self.new ≡ after_key self.old key }
        ensures answer { result.items ≡ (take_of self.old key).answer }
    {
        self.mode = Mode::Prompt;
        match Key::of(key) {
            Key::Digit => {
                self.mode = Mode::Number(pushed(value, key), one_more(digits));
                echo(key)
            }
            Key::Slash => match self.peek(value) {
                Some(word) => {
                    self.mode = Mode::Opened(value);
                    opened(self.style, key, word)
                }
                None => refused(self.style, key),
            },
            Key::Go if value % 2 == 0 => {
                self.mode = Mode::Running(value);
                echo(key)
            }
            Key::Go => refused(self.style, key),
            Key::Return => prompt(self.style),
            Key::Other => illegal(self.style, key),
        }
    }

    fn take_in_open_word(&mut self, address: u16, key: u8) -> Answer
        requires { self.old.mode ≡ Mode.Opened address }
        ensures machine { self.new ≡ after_key self.old key }
        ensures answer { result.items ≡ (take_of self.old key).answer }
    {
        self.mode = Mode::Prompt;
        match Key::of(key) {
            Key::Digit => {
                self.mode = Mode::Typing(address, pushed(0, key), 1);
                echo(key)
            }
            Key::Return => prompt(self.style),
            Key::Slash | Key::Go | Key::Other => illegal(self.style, key),
        }
    }

    fn take_in_deposit(&mut self, address: u16, value: u16, digits: u8, key: u8) -> Answer
        requires { self.old.mode ≡ Mode.Typing address value digits }
        ensures machine { self.new ≡ after_key self.old key }
        ensures answer { result.items ≡ (take_of self.old key).answer }
    {
        self.mode = Mode::Prompt;
        match Key::of(key) {
            Key::Digit => {
                self.mode = Mode::Typing(address, pushed(value, key), one_more(digits));
                echo(key)
            }
            Key::Return => {
                self.put(address, value);
                prompt(self.style)
            }
            Key::Slash | Key::Go | Key::Other => illegal(self.style, key),
        }
    }
}

// The number with one more digit typed after it.
fn pushed(value: u16, key: u8) -> u16
    requires { IsTrue (is_digit key) }
    ensures { result ≡ pushed_value value key }
{
    with_digit(value, key).unwrap_or(value)
}

// The digit count after one digit more: it stays at seven.
fn one_more(digits: u8) -> u8
    ensures { result ≡ digits_after digits }
{
    digits.saturating_add(1).min(MANY_DIGITS)
}
