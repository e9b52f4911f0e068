//! `Screen`: collects text and prints it, with escapes for what a terminal would obey. Only this
//! module prints.

ghost use Rattle.std.specs.Prelude.{◌≡◌, ◌<◌, IsTrue, IsErr, OnOk, string_bytes};
ghost use Rattle.std.specs.Char.{digit_char};
ghost use Rattle.std.specs.Io.KnownBytes.{Appends, Keeps};
ghost use Rattle.std.specs.Bool.{OnTrue};
ghost use Rattle.std.specs.Str.{chars};
ghost use Rattle.amqp_show.specs.Screens.{IsShowable, prints, all_print, is_hidden};

use crate::fault::Fault;
use std::alloc::{AllocError, Global};
use std::io;
use std::io::{IsTerminal, Write};

/// What is emphasised.
#[derive(Clone, Copy)]
pub enum Colour {
    /// A key.
    Key,
    /// What readers of the value may differ on.
    Note,
    /// The place at which a value fails.
    Failure,
}

/// A string to be printed: characters that a terminal shows and doesn't obey, line ends, and
/// colours if they are asked for. What is added to it and doesn't print is escaped.
#[derive(Drop)]
pub struct Screen {
    has_colours: bool,
    text: String,
    ghost showable: { IsShowable has_colours (string_bytes text) },
}

impl Screen {
    ghost use Rattle.std.specs.Prelude.{◌∷◌, ◌++◌, [], length};
    ghost use Rattle.std.specs.Char.{encode_utf8};
    ghost use Rattle.amqp_show.specs.Screens.{shown_character, escape, in_line};
    ghost use Rattle.amqp_show.specs.Output.{shown, AddsText};

    /// Nothing yet.
    #[tactic(auto, using(crate::proofs::Screens::nothing))]
    pub fn new(alloc: Global, has_colours: bool) -> Screen
        ensures empty { shown result ≡ [] }
        ensures colours { result.has_colours ≡ has_colours }
    {
        Screen {
            has_colours,
            text: String::new(alloc),
        }
    }

    /// How many bytes it has.
    pub fn len(&self) -> usize
        ensures { result ≡ length (shown self.now) }
    {
        self.text.len()
    }

    /// Adds words in a line. What doesn't print becomes `\u` and four digits, as in JSON's strings,
    /// the only place of a JSON text that may hold such a character.
    pub fn push(&mut self, words: &str) -> Result<(), AllocError>
        ensures { OnOk result (AddsText self.old self.new (in_line words.now)) }
    {
        // (usually all of them print)
        if all_print(words) {
            return self.append(words);
        }
        for c in words.chars() {
            self.push_character(c)?;
        }
        Ok(())
    }

    fn push_character(&mut self, c: char) -> Result<(), AllocError>
        ensures { OnOk result (AddsText self.old self.new (shown_character c)) }
    {
        if does_print(c) {
            return self.add(c);
        }
        self.push_escape(c)
    }

    // Adds a character that prints.
    fn add(&mut self, c: char) -> Result<(), AllocError>
        requires { IsTrue (prints c) }
        ensures { OnOk result (AddsText self.old self.new (encode_utf8 c)) }
    {
        self.text.push(c)
    }

    // Adds text that may be shown as it is.
    fn append(&mut self, text: &str) -> Result<(), AllocError>
        requires { IsShowable self.old.has_colours text.now }
        ensures { OnOk result (AddsText self.old self.new text.now) }
    {
        self.text.push_str(text)
    }

    /// Adds words in a colour, if there are colours.
    #[tactic(auto, using(crate::proofs::Screens::colour_end))]
    pub fn push_coloured(&mut self, words: &str, colour: Colour) -> Result<(), AllocError> {
        if !self.has_colours {
            return self.push(words);
        }
        self.begin(colour)?;
        self.push(words)?;
        self.append("\x1b[0m")
    }

    // Begins a colour.
    #[tactic(auto, using(crate::proofs::Screens::key_colour, crate::proofs::Screens::note_colour, crate::proofs::Screens::failure_colour))]
    fn begin(&mut self, colour: Colour) -> Result<(), AllocError>
        requires { IsTrue self.old.has_colours }
        ensures { OnOk result (IsTrue self.new.has_colours) }
    {
        match colour {
            Colour::Key => self.append("\x1b[36m"),
            Colour::Note => self.append("\x1b[33m"),
            Colour::Failure => self.append("\x1b[31m"),
        }
    }

    /// Ends a line.
    #[tactic(auto, using(crate::proofs::Screens::line_end))]
    pub fn end_line(&mut self) -> Result<(), AllocError>
        ensures { OnOk result (AddsText self.old self.new (10 ∷ [])) }
    {
        self.append("\n")
    }

    /// Adds words, and ends the line.
    pub fn push_line(&mut self, words: &str) -> Result<(), AllocError>
        ensures { OnOk result (AddsText self.old self.new (in_line words.now ++ 10 ∷ [])) }
    {
        self.push(words)?;
        self.end_line()
    }

    // Adds a character that doesn't print.
    fn push_escape(&mut self, c: char) -> Result<(), AllocError>
        ensures { OnOk result (AddsText self.old self.new (escape c)) }
    {
        let code = u32::from(c);
        self.append("\\u")?;
        self.push_digit(code / 4096 % 16)?;
        self.push_digit(code / 256 % 16)?;
        self.push_digit(code / 16 % 16)?;
        self.push_digit(code % 16)?;
        Ok(())
    }

    fn push_digit(&mut self, n: u32) -> Result<(), AllocError>
        requires { n < 16 }
        ensures { OnOk result (AddsText self.old self.new (digit_char n ∷ [])) }
    {
        self.add(digit_of(n))
    }

    /// Writes it to the standard output, and empties it.
    pub fn print(&mut self, rt: &HostRuntime) -> Result<(), Fault> {
        self.print_to(&mut rt.stdout()).map_err(Fault::of_output)
    }

    /// Writes it to the standard error, and empties it.
    pub fn print_error(&mut self, rt: &HostRuntime) -> Result<(), Fault> {
        self.print_to(&mut rt.stderr()).map_err(Fault::of_output)
    }

    #[tactic(auto, using(crate::proofs::Screens::nothing))]
    fn print_to<W: Write>(&mut self, writer: &mut W) -> io::Result<()>
        ensures written { OnOk result
            (Appends (W.contents writer.old) (W.contents writer.new) (shown self.old)) }
        ensures emptied { OnOk result (shown self.new ≡ []) }
    {
        writer.write_all(self.text.as_bytes())?;
        self.text.clear();
        Ok(())
    }
}

/// Writes bytes as they are to the standard output, unless it is a terminal, which would obey them.
pub fn print_raw(rt: &HostRuntime, bytes: &[u8]) -> Result<(), Fault> {
    raw_to(&mut rt.stdout(), is_terminal(rt), bytes)
}

// Writes bytes as they are, unless the writer is a terminal.
fn raw_to<W: Write>(writer: &mut W, is_terminal: bool, bytes: &[u8]) -> Result<(), Fault>
    ensures refused { IsTrue is_terminal → IsErr result }
    ensures untouched { IsTrue is_terminal → Keeps (W.contents writer.old) (W.contents writer.new) }
    ensures written { OnOk result
        (Appends (W.contents writer.old) (W.contents writer.new) bytes.now) }
{
    if is_terminal {
        return Err(Fault::Terminal);
    }
    writer.write_all(bytes).map_err(Fault::of_output)
}

/// Whether the standard output is a terminal.
pub fn is_terminal(rt: &HostRuntime) -> bool {
    rt.stdout().is_terminal()
}

// Whether a terminal shows the character and doesn't obey it.
fn does_print(c: char) -> bool
    ensures { result ≡ prints c }
{
    !c.is_control() && !is_hidden(c)
}

// Whether each character of the words does.
fn all_print(words: &str) -> bool
    ensures { OnTrue result (IsTrue (all_print (chars words.now))) }
{
    for c in words.chars() {
        if !does_print(c) {
            return false;
        }
    }
    true
}

// Whether the character can't be seen, or turns the direction of the text around it.
fn is_hidden(c: char) -> bool
    ensures { result ≡ is_hidden c }
{
    matches!(c, '\u{ad}' | '\u{34f}' | '\u{61c}' | '\u{115f}'..='\u{1160}' | '\u{17b4}'..='\u{17b5}'
        | '\u{180b}'..='\u{180f}' | '\u{200b}'..='\u{200f}' | '\u{2028}'..='\u{202e}' | '\u{2060}'..='\u{206f}'
        | '\u{3164}' | '\u{feff}' | '\u{ffa0}' | '\u{fff9}'..='\u{fffb}')
}

// The digit of a number below 16.
fn digit_of(n: u32) -> char
    requires { n < 16 }
    ensures value { result ≡ digit_char n }
    ensures shown { IsTrue (prints result) }
{
    let n = n as u8;
    char::from(if n < 10 { b'0' + n } else { b'a' + (n - 10) })
}
