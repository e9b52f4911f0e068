//! `first_too_deep`: the bracket of a text that opens one array or object too many.
//!
//! `json::Reader` has no contract on the byte of a token. So `reading` scans a text again that nests too deep.

ghost use Rattle.std.specs.Prelude.{◌≡◌, ◌<◌, ◌^◌, ◌||◌, ℕ, ◌+◌, ◌-◌, ◌≤◌, Bool, true, false, IfSome, MatchOption};
ghost use Rattle.json.specs.Lex.{between, lex};
ghost use Rattle.json.specs.Word.{is_operator, is_space};
ghost use Rattle.amqp_json.specs.Nesting.{lexemes_fit, IsFirstTooDeep};
ghost use Rattle.amqp_json.specs.reading.Scans.{fits_byte, mode_after, mode_of};

// Where a byte of a text is.
#[derive(Clone, Copy)]
enum Place {
    Between,
    // In a number or a word.
    InWord,
    InString,
    // In a string, directly after a backslash.
    Escaped,
}

/// The bracket, outside of strings, that first opens more than `most` arrays and objects at once.
pub(crate) fn first_too_deep(text: &str, most: u32) -> Option<usize>
    ensures { MatchOption result
        (lexemes_fit most (lex between text.now) ≡ true)
        (IsFirstTooDeep most text.now) }
{
    let bytes = text.as_bytes();
    let mut place = Place::Between;
    let mut left = most as usize;
    let mut at = 0;
    'bytes: while at < bytes.len() {
        let byte = bytes[at];
        let Some(now) = levels_after(place, byte, left) else {
            return Some(at);
        };
        left = now;
        place = place_after(place, byte);
        at += 1;
    }
    None
}

// How many more may be opened after the byte; `None` if the byte opens one too many.
fn levels_after(place: Place, byte: u8, left: usize) -> Option<usize>
    requires { left < 2 ^ 64 - 1 }
    ensures decides { MatchOption result
        ((rest : ℕ → Bool) → fits_byte (mode_of place) byte left rest ≡ false)
        (λ now. (rest : ℕ → Bool) → fits_byte (mode_of place) byte left rest ≡ rest now) }
    ensures more { IfSome result (λ now. now ≤ left + 1) }
{
    match place {
        Place::Between | Place::InWord if byte == b'{' || byte == b'[' => left.checked_sub(1),
        Place::Between | Place::InWord if byte == b'}' || byte == b']' => Some(left + 1),
        _ => Some(left),
    }
}

// The place of the byte after this one.
fn place_after(place: Place, byte: u8) -> Place
    ensures { mode_of result ≡ mode_after (mode_of place) byte }
{
    match place {
        Place::Between if byte == b'"' => Place::InString,
        Place::Between | Place::InWord if ends_word(byte) => Place::Between,
        Place::Between | Place::InWord => Place::InWord,
        Place::InString if byte == b'"' => Place::Between,
        Place::InString if byte == b'\\' => Place::Escaped,
        Place::InString | Place::Escaped => Place::InString,
    }
}

fn ends_word(byte: u8) -> bool
    ensures { result ≡ (is_operator byte || is_space byte) }
{
    byte == b'{'
        || byte == b'}'
        || byte == b'['
        || byte == b']'
        || byte == b':'
        || byte == b','
        || byte == b' '
        || byte == b'\t'
        || byte == b'\n'
        || byte == b'\r'
}
