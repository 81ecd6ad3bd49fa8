//! The place of a character in a text.

ghost use Rattle.std.specs.Prelude.{◌≡◌, ℕ, ◌+◌, ◌^◌, ◌<◌, ◌≤◌, List, [], ◌∷◌, ◌++◌, length};
ghost use Rattle.std.specs.Str.{chars};

// The log has no lines and columns: each run would count them, and programs read the log's form. A
// column counts characters, as an index of the log does.
/// Where a character stands in a text. A line ends with U+000A, and with nothing else.
#[derive(Clone, Copy, PartialEq, Eq, Debug)]
pub struct Place {
    /// How many characters are before it.
    pub index: u64,
    /// Its line, counted from 1.
    pub line: u64,
    /// Its column in its line, in characters, counted from 1.
    pub column: u64,
    ghost few_lines: { line ≤ index + 1 },
    ghost few_columns: { column ≤ index + 1 },
}

impl Place {
    ghost use Rattle.recode_places.specs.Places.{IsPlaceAfter};

    /// The place of the first character.
    pub fn first() -> Place
        ensures { IsPlaceAfter result [] }
    {
        Place {
            index: 0,
            line: 1,
            column: 1,
        }
    }

    /// Goes past a character: to the place of the next one. The condition, that `index` is below
    /// 2^63, is tested by reading it.
    pub fn pass(&mut self, c: char)
        requires { self.old.index < 2 ^ 63 }
        ensures place { (t : List ℕ) → IsPlaceAfter self.old t
            → IsPlaceAfter self.new (t ++ (c ∷ [])) }
        ensures index { self.new.index ≡ self.old.index + 1 }
    {
        let place = *self;
        if c == '\n' {
            *self = Place {
                index: place.index + 1,
                line: place.line + 1,
                column: 1,
            };
        } else {
            *self = Place {
                index: place.index + 1,
                line: place.line,
                column: place.column + 1,
            };
        }
    }

    /// Goes past a text: to the place of the character after it. The condition is that `index` and
    /// the text's length in bytes have a sum of at most 2^63.
    pub fn pass_text(&mut self, text: &str)
        requires { self.old.index + length text.now ≤ 2 ^ 63 }
        ensures place { (t : List ℕ) → IsPlaceAfter self.old t
            → IsPlaceAfter self.new (t ++ chars text.now) }
        ensures index { self.new.index ≡ self.old.index + length (chars text.now) }
    {
        for c in text.chars() {
            self.pass(c);
        }
    }
}
