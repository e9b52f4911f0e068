//! `Brackets`: the brackets that are open at a byte of a text, for `syntax`.

ghost use Rattle.std.specs.Prelude.{◌≡◌, ◌∷◌, [], drop, MatchOption};
ghost use Rattle.std.specs.Bool.{OnTrue};

use std::marker::Model;

// No text nests deeper.
const LEVELS: usize = 127;

/// What an opening bracket begins.
#[derive(Clone, Copy)]
pub(crate) enum Bracket {
    Array,
    Object,
}

/// The brackets that are open, the innermost first.
#[derive(Drop)]
pub(crate) struct Brackets {
    // The first `depth` of these are open, the innermost last.
    open: [Bracket; LEVELS],
    depth: usize,
}

impl Model for Brackets {
    ghost use Rattle.std.specs.Prelude.{List, ◌≤◌};
    ghost use Rattle.amqp_json.specs.reading.Scans.{innermost_first};
    ghost use Rattle.amqp_json.specs.declared.reading.brackets.Bracket.{Bracket};

    ghost Value = { List Bracket };

    ghost view = { λ s. innermost_first s.open s.depth };

    ghost invariant = { λ s. s.depth ≤ 127 };
}

impl Brackets {
    /// No bracket is open.
    pub(crate) fn new() -> Self
        ensures { result ≡ [] }
    {
        Brackets {
            open: [Bracket::Array; LEVELS],
            depth: 0,
        }
    }

    /// Opens a bracket and returns true, or returns false if 127 are open.
    pub(crate) fn open(&mut self, bracket: Bracket) -> bool
        ensures { OnTrue result (self.new ≡ bracket ∷ self.old) }
    {
        if self.depth == LEVELS {
            return false;
        }
        self.open[self.depth] = bracket;
        self.depth += 1;
        true
    }

    /// Closes the innermost bracket.
    pub(crate) fn close(&mut self)
        ensures { self.new ≡ drop 1 self.old }
    {
        self.depth = self.depth.saturating_sub(1);
    }

    /// The innermost bracket, if one is open.
    pub(crate) fn innermost(&self) -> Option<Bracket>
        ensures { MatchOption result (self.now ≡ []) (λ b. self.now ≡ b ∷ drop 1 self.now) }
    {
        self.open.get(self.depth.checked_sub(1)?).copied()
    }
}
