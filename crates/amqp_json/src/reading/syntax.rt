//! `first_fault`: the byte at which a text stops being JSON, and what is wrong there.
//!
//! `json::Reader` tells that a text isn't JSON, but not at which byte. So `reading` scans a rejected
//! text again.

ghost use Rattle.std.specs.Prelude.{◌≡◌, ◌<◌, ◌+◌, ◌||◌, false, take, drop, length, List, IfErr, MatchResult};
ghost use Rattle.std.specs.Bool.{OnTrue};
ghost use Rattle.json.specs.Word.{is_operator, is_space as is_space_byte};
ghost use Rattle.amqp_json.specs.Conversions.{IsWithin, BeginsNoJson};
ghost use Rattle.amqp_json.specs.reading.Scans.{IsAtByte};
ghost use Rattle.amqp_json.specs.reading.Continuations.{Leads, Ends, Opens, TextLeads, TextEnds, PartLeads, PartEnds};
ghost use Rattle.amqp_json.specs.declared.reading.brackets.Bracket.{Bracket};
ghost use Rattle.amqp_json.specs.declared.reading.syntax.Next.TheVariants as next;
ghost use Rattle.amqp_json.specs.declared.reading.syntax.Place.TheVariants as places;
ghost use Rattle.amqp_json.specs.declared.error.JsonError.TheVariants.{Syntax};

use super::brackets::{Bracket, Brackets};
use crate::error::SyntaxError;

/// The first byte that can't continue the bytes before it to a JSON text, and what is wrong there; or the end, if
/// something is missing there. It is of a text that isn't JSON. A text that opens more than 127 brackets before that
/// byte isn't scanned further, and the end is returned; `reading` passes none.
pub(crate) fn first_fault(text: &str) -> (usize, SyntaxError)
    ensures within { IsWithin (Syntax result.0 result.1) (length text.now) }
    ensures none { result.0 < length text.now → BeginsNoJson (take (result.0 + 1) text.now) }
{
    let bytes = text.as_bytes();
    if let [0xef, 0xbb, 0xbf, ..] = bytes {
        return (0, SyntaxError::ByteOrderMark);
    }
    let mut scan = Scan {
        place: Place::Value(After::Other),
        brackets: Brackets::new(),
    };
    let mut at = 0;
    'bytes: while at < bytes.len() {
        match scan.place_after(bytes[at]) {
            Ok(place) => scan.place = place,
            Err(error) => return (at, error),
        }
        at += 1;
    }
    let error = match scan.place {
        Place::InString { .. } => SyntaxError::UnfinishedString,
        _ => SyntaxError::UnexpectedEnd,
    };
    (text.len(), error)
}

// How far a text is read.
#[derive(Drop)]
struct Scan {
    place: Place,
    brackets: Brackets,
}

// What may come next.
#[derive(Clone, Copy)]
enum Place {
    // A value, or after an opening bracket the closing one.
    Value(After),
    // A key, likewise.
    Key(After),
    Colon,
    // A comma, a closing bracket, or the end.
    Next,
    // The same, directly after a number or a word.
    EndOfWord,
    // These letters of a word.
    Word(&'static [u8]),
    Number(Number),
    InString { is_key: bool, next: Next },
    // More brackets than 127 are open: what follows isn't scanned.
    TooDeep,
}

// What a value or a key comes after.
#[derive(Clone, Copy)]
enum After {
    OpeningBracket,
    Comma,
    Other,
}

// What is read of a number.
#[derive(Clone, Copy)]
enum Number {
    Minus,
    Zero,
    Integer,
    Point,
    Fraction,
    E,
    Sign,
    Exponent,
}

// What may come next in a string. A character beyond U+FFFF is escaped in two halves.
#[derive(Clone, Copy)]
enum Next {
    Character,
    Escape,
    FirstDigit { is_second_half: bool },
    SecondDigit { is_second_half: bool, after_d: bool },
    ThirdDigit { is_first_half: bool },
    FourthDigit { is_first_half: bool },
    BackslashOfSecondHalf,
    UOfSecondHalf,
}

impl Scan {
    // What may come after this byte, if it may come next.
    fn place_after(&mut self, byte: u8) -> Result<Place, SyntaxError>
        ensures place { IfErr result IsAtByte }
        ensures leads { MatchResult result
            (λ place. Leads self.old.place self.old.brackets byte place self.new.brackets)
            (λ e. Ends self.old.place self.old.brackets byte) }
    {
        match self.place {
            Place::InString { is_key, next } => match after_in_string(next, byte)? {
                Some(next) => Ok(Place::InString { is_key, next }),
                None if is_key => Ok(Place::Colon),
                None => Ok(Place::Next),
            },
            Place::Number(number) => match after_in_number(number, byte)? {
                Some(number) => Ok(Place::Number(number)),
                None => self.after_word(byte),
            },
            Place::Word(letters) => after_letter(letters, byte),
            Place::EndOfWord => self.after_word(byte),
            place if is_space(byte) => Ok(place),
            Place::Value(after) => self.after_first_byte(after, byte),
            Place::Key(after) => self.after_first_byte_of_key(after, byte),
            Place::Colon if byte == b':' => Ok(Place::Value(After::Other)),
            Place::Colon => Err(SyntaxError::MissingColon),
            Place::Next => self.after_value(byte),
            Place::TooDeep => Ok(Place::TooDeep),
        }
    }

    // The byte is the first of a value, or stands where a value may begin.
    fn after_first_byte(&mut self, after: After, byte: u8) -> Result<Place, SyntaxError>
        requires solid { is_space_byte byte ≡ false }
        ensures place { IfErr result IsAtByte }
        ensures leads { MatchResult result
            (λ place. Leads (places.Value after) self.old.brackets byte place self.new.brackets)
            (λ e. Ends (places.Value after) self.old.brackets byte) }
    {
        match byte {
            b'"' => Ok(string(false)),
            b'{' => Ok(self.open(Bracket::Object)),
            b'[' => Ok(self.open(Bracket::Array)),
            b']' => match after {
                After::OpeningBracket => Ok(self.close()),
                After::Comma => Err(SyntaxError::TrailingComma),
                After::Other => Err(SyntaxError::UnexpectedCharacter),
            },
            b't' => Ok(Place::Word(b"rue")),
            b'f' => Ok(Place::Word(b"alse")),
            b'n' => Ok(Place::Word(b"ull")),
            b'-' => Ok(Place::Number(Number::Minus)),
            b'0' => Ok(Place::Number(Number::Zero)),
            b'1'..=b'9' => Ok(Place::Number(Number::Integer)),
            _ => Err(SyntaxError::UnexpectedCharacter),
        }
    }

    // The same where a key may begin.
    fn after_first_byte_of_key(&mut self, after: After, byte: u8) -> Result<Place, SyntaxError>
        requires solid { is_space_byte byte ≡ false }
        ensures place { IfErr result IsAtByte }
        ensures leads { MatchResult result
            (λ place. Leads (places.Key after) self.old.brackets byte place self.new.brackets)
            (λ e. Ends (places.Key after) self.old.brackets byte) }
    {
        match byte {
            b'"' => Ok(string(true)),
            b'}' => match after {
                After::OpeningBracket => Ok(self.close()),
                After::Comma | After::Other => Err(SyntaxError::TrailingComma),
            },
            _ => Err(SyntaxError::UnexpectedCharacter),
        }
    }

    // The byte is directly after a number or a word.
    fn after_word(&mut self, byte: u8) -> Result<Place, SyntaxError>
        ensures place { IfErr result IsAtByte }
        ensures leads { MatchResult result
            (λ place. Leads places.EndOfWord self.old.brackets byte place self.new.brackets)
            (λ e. Ends places.EndOfWord self.old.brackets byte) }
    {
        if is_of_word(byte) {
            Err(SyntaxError::UnexpectedCharacter)
        } else if is_space(byte) {
            Ok(Place::Next)
        } else {
            self.after_value(byte)
        }
    }

    // The byte is after a value, and no white space.
    fn after_value(&mut self, byte: u8) -> Result<Place, SyntaxError>
        requires solid { is_space_byte byte ≡ false }
        ensures place { IfErr result IsAtByte }
        ensures leads { MatchResult result
            (λ place. Leads places.Next self.old.brackets byte place self.new.brackets)
            (λ e. Ends places.Next self.old.brackets byte) }
    {
        let Some(bracket) = self.brackets.innermost() else {
            return Err(SyntaxError::AfterTheValue);
        };
        match bracket {
            Bracket::Array => match byte {
                b',' => Ok(Place::Value(After::Comma)),
                b']' => Ok(self.close()),
                _ => Err(instead_of_comma(byte)),
            },
            Bracket::Object => match byte {
                b',' => Ok(Place::Key(After::Comma)),
                b'}' => Ok(self.close()),
                _ => Err(instead_of_comma(byte)),
            },
        }
    }

    fn open(&mut self, bracket: Bracket) -> Place
        ensures { Opens bracket self.old.brackets result self.new.brackets }
    {
        if !self.brackets.open(bracket) {
            return Place::TooDeep;
        }
        match bracket {
            Bracket::Array => Place::Value(After::OpeningBracket),
            Bracket::Object => Place::Key(After::OpeningBracket),
        }
    }

    fn close(&mut self) -> Place
        ensures place { result ≡ places.Next }
        ensures closed { self.new.brackets ≡ drop 1 self.old.brackets }
    {
        self.brackets.close();
        Place::Next
    }
}

fn string(is_key: bool) -> Place
    ensures { result ≡ places.InString is_key next.Character }
{
    Place::InString {
        is_key,
        next: Next::Character,
    }
}

fn after_letter(letters: &'static [u8], byte: u8) -> Result<Place, SyntaxError>
    ensures place { IfErr result IsAtByte }
    ensures leads { MatchResult result
        (λ place. (bs : List Bracket) → Leads (places.Word letters.entry) bs byte place bs)
        (λ e. (bs : List Bracket) → Ends (places.Word letters.entry) bs byte) }
{
    match letters {
        [letter] if *letter == byte => Ok(Place::EndOfWord),
        [letter, rest @ ..] if *letter == byte => Ok(Place::Word(rest)),
        _ => Err(SyntaxError::UnexpectedCharacter),
    }
}

// `None` if the byte isn't of the number, which may end before it.
fn after_in_number(number: Number, byte: u8) -> Result<Option<Number>, SyntaxError>
    ensures place { IfErr result IsAtByte }
    ensures leads { MatchResult result (PartLeads number byte) (λ e. PartEnds number byte) }
{
    match (number, byte) {
        (Number::Minus, b'0') => Ok(Some(Number::Zero)),
        (Number::Minus, b'1'..=b'9') => Ok(Some(Number::Integer)),
        (Number::Integer, b'0'..=b'9') => Ok(Some(Number::Integer)),
        (Number::Zero | Number::Integer, b'.') => Ok(Some(Number::Point)),
        (Number::Point | Number::Fraction, b'0'..=b'9') => Ok(Some(Number::Fraction)),
        (Number::Zero | Number::Integer | Number::Fraction, b'e' | b'E') => Ok(Some(Number::E)),
        (Number::E, b'+' | b'-') => Ok(Some(Number::Sign)),
        (Number::E | Number::Sign | Number::Exponent, b'0'..=b'9') => Ok(Some(Number::Exponent)),
        (Number::Minus | Number::Point | Number::E | Number::Sign, _) => Err(
            SyntaxError::UnexpectedCharacter,
        ),
        _ => Ok(None),
    }
}

// `None` if the byte is the closing quote.
fn after_in_string(next: Next, byte: u8) -> Result<Option<Next>, SyntaxError>
    ensures place { IfErr result IsAtByte }
    ensures leads { MatchResult result (TextLeads next byte) (λ e. TextEnds next byte) }
{
    Ok(Some(match next {
        Next::Character => match byte {
            b'"' => return Ok(None),
            b'\\' => Next::Escape,
            0..=0x1f => return Err(SyntaxError::ControlCharacter),
            _ => Next::Character,
        },
        Next::Escape => match byte {
            b'u' => Next::FirstDigit {
                is_second_half: false,
            },
            b'"' | b'\\' | b'/' | b'b' | b'f' | b'n' | b'r' | b't' => Next::Character,
            _ => return Err(SyntaxError::UnknownEscape),
        },
        Next::BackslashOfSecondHalf if byte == b'\\' => Next::UOfSecondHalf,
        Next::UOfSecondHalf if byte == b'u' => Next::FirstDigit {
            is_second_half: true,
        },
        Next::BackslashOfSecondHalf | Next::UOfSecondHalf => {
            return Err(SyntaxError::LoneSurrogate);
        }
        _ if !byte.is_ascii_hexdigit() => return Err(SyntaxError::UnknownEscape),
        Next::FirstDigit { is_second_half } => {
            let after_d = matches!(byte, b'd' | b'D');
            if is_second_half && !after_d {
                return Err(SyntaxError::LoneSurrogate);
            }
            Next::SecondDigit {
                is_second_half,
                after_d,
            }
        }
        Next::SecondDigit {
            is_second_half,
            after_d,
        } => {
            // (0xd8 to 0xdb begin a first half, 0xdc to 0xdf a second one)
            let is_half = after_d && matches!(byte, b'8' | b'9' | b'a'..=b'f' | b'A'..=b'F');
            let is_second = is_half && matches!(byte, b'c'..=b'f' | b'C'..=b'F');
            if is_second != is_second_half {
                return Err(SyntaxError::LoneSurrogate);
            }
            Next::ThirdDigit {
                is_first_half: is_half && !is_second,
            }
        }
        Next::ThirdDigit { is_first_half } => Next::FourthDigit { is_first_half },
        Next::FourthDigit {
            is_first_half: true,
        } => Next::BackslashOfSecondHalf,
        Next::FourthDigit {
            is_first_half: false,
        } => Next::Character,
    }))
}

// What is wrong if the byte stands where a comma or a closing bracket should.
fn instead_of_comma(byte: u8) -> SyntaxError
    ensures { IsAtByte result }
{
    match byte {
        b'"' | b'[' | b'{' | b'-' | b'0'..=b'9' | b'a'..=b'z' | b'A'..=b'Z' =>
            SyntaxError::MissingComma,
        _ => SyntaxError::UnexpectedCharacter,
    }
}

// Whether the byte would be part of the number or the word that it is directly after, and so can't be there.
fn is_of_word(byte: u8) -> bool
    ensures { OnTrue result ((is_operator byte || is_space_byte byte) ≡ false) }
{
    matches!(byte, b'+' | b'-' | b'.' | b'0'..=b'9' | b'a'..=b'z' | b'A'..=b'Z')
}

fn is_space(byte: u8) -> bool
    ensures { result ≡ is_space_byte byte }
{
    matches!(byte, b' ' | b'\t' | b'\n' | b'\r')
}
