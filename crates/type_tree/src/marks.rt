//! Marks: why the offsets of an entry are not those of its bytes.

ghost use Rattle.std.specs.Prelude.{◌≡◌, ◌++◌, Some};
ghost use Rattle.type_tree.specs.Marks.{marks_within, is_any, word_text, words_text, marks_text};

use flags::type_flags::AdsTypeFlags;
use std::fmt;

/// Why an entry's offsets are not those of its bytes: by its own flags, and by those of what it stands in.
#[derive(Clone, Copy, Debug)]
pub struct Marks {
    /// The entry's own flags.
    pub own: AdsTypeFlags,
    /// All flags of what it stands in.
    pub around: AdsTypeFlags,
}

impl Marks {
    /// Those of what stands in this entry, with flags of its own.
    pub fn within(self, own: AdsTypeFlags) -> Marks
        ensures { result ≡ marks_within self own }
    {
        Marks {
            own,
            around: AdsTypeFlags(self.around.0 | self.own.0),
        }
    }
}

/// What stands between marks, and on either side of each.
#[derive(Clone, Copy)]
pub struct Style {
    /// Between two.
    pub between: &'static str,
    /// Before and after each.
    pub quote: &'static str,
}

/// Marks, with what stands between them.
#[derive(Clone, Copy)]
pub struct Marked {
    /// The marks.
    pub marks: Marks,
    /// How they are told.
    pub style: Style,
}

impl fmt::Display for Marked {
    ghost output = { λ m. Some (marks_text m.style.between.now m.style.quote.now m.marks) };

    fn fmt<W: fmt::Write>(&self, f: &mut fmt::Formatter<W>) -> fmt::Result {
        let own = Words {
            flags: self.marks.own,
            prefix: "",
            style: self.style,
            follows: false,
        };
        let around = Words {
            flags: self.marks.around,
            prefix: "in ",
            style: self.style,
            follows: own.is_any(),
        };
        write!(f, "{own}{around}")
    }
}

// The words of one flag word, behind others or not.
#[derive(Clone, Copy)]
struct Words {
    flags: AdsTypeFlags,
    prefix: &'static str,
    style: Style,
    follows: bool,
}

impl Words {
    #[tactic(auto, unfolding(crate::specs::Marks::is_any))]
    fn is_any(self) -> bool
        ensures { result ≡ is_any self.flags.0 }
    {
        let flags = self.flags;
        flags.is_bit_values() | flags.is_static() | flags.is_reference_to() | flags.is_prop_item()
    }
}

impl fmt::Display for Words {
    ghost output = { λ w. Some (words_text w.follows w.style.between.now w.style.quote.now w.prefix.now w.flags.0) };

    fn fmt<W: fmt::Write>(&self, f: &mut fmt::Formatter<W>) -> fmt::Result {
        let flags = self.flags;
        let is_bits = flags.is_bit_values();
        let is_static = flags.is_static();
        let is_reference = flags.is_reference_to();
        let bits = Word(self, is_bits, self.follows, "bits");
        let fixed = Word(self, is_static, self.follows | is_bits, "static");
        let follows = self.follows | is_bits | is_static;
        let reference = Word(self, is_reference, follows, "reference");
        let property = Word(
            self,
            flags.is_prop_item(),
            follows | is_reference,
            "property",
        );
        write!(f, "{bits}{fixed}{reference}{property}")
    }
}

// One of them: whether it is set, whether it is behind another, and its text.
#[derive(Clone, Copy)]
struct Word<'a>(&'a Words, bool, bool, &'static str);

impl fmt::Display for Word<'_> {
    ghost output = { λ w. Some (word_text w.2 w.1 w.0.now.style.between.now w.0.now.style.quote.now (w.0.now.prefix.now ++ w.3.now)) };

    #[tactic(auto, unfolding(crate::specs::Marks::word_text))]
    fn fmt<W: fmt::Write>(&self, f: &mut fmt::Formatter<W>) -> fmt::Result {
        let Word(words, is_set, follows, text) = *self;
        if !is_set {
            return write!(f, "");
        }
        let between = if follows { words.style.between } else { "" };
        let quote = words.style.quote;
        let prefix = words.prefix;
        write!(f, "{between}{quote}{prefix}{text}{quote}")
    }
}
