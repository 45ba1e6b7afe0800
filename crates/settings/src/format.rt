//! Formats.

ghost use Rattle.std.specs.Prelude.{◌≡◌, ◌≢◌, IfNone, IfSome};
ghost use Rattle.settings.specs.Formats.{format_word};

/// The formats in which something is told.
#[derive(Clone, Copy, Debug, PartialEq, Eq)]
pub enum Format {
    /// Lines for people; those of solutions a check reads again.
    Text,
    /// One JSON document, for programs.
    Json,
}

impl Format {
    /// The format that a word names.
    pub fn named(word: &str) -> Option<Format>
        ensures says { IfSome result (λ format. word.now ≡ format_word format) }
        ensures none { IfNone result ((format : _) → word.now ≢ format_word format) }
    {
        match word {
            "text" => Some(Format::Text),
            "json" => Some(Format::Json),
            _ => None,
        }
    }
}
