//! How a value is printed, and which words ask for it.

ghost use Rattle.std.specs.Prelude.{◌≡◌};
ghost use Rattle.jb_tool.specs.Style.{style_asked, style_named};

/// How a value is printed.
#[derive(Clone, Copy, Debug, PartialEq, Eq)]
pub enum Style {
    /// Without any white space.
    Compact,
    /// Over several lines, two spaces deeper for each level.
    Pretty,
}

/// The style that the words ask for: its name alone.
pub(crate) fn style_asked(words: &[String]) -> Option<Style>
    ensures { result ≡ style_asked words.now }
{
    match words {
        [word] => style_named(word.as_str()),
        _ => None,
    }
}

fn style_named(word: &str) -> Option<Style>
    ensures { result ≡ style_named word.now }
{
    if word == "compact" {
        Some(Style::Compact)
    } else if word == "pretty" {
        Some(Style::Pretty)
    } else {
        None
    }
}
