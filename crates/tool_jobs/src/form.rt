ghost use Rattle.std.specs.Prelude.{List, ℕ, IfOk, string_bytes};

use std::alloc::{AllocError, Global};

/// How a value is shown as text.
pub trait Form<T> {
    /// Which texts show a value.
    ghost shows: { Self → T → List ℕ → Type 0 };

    /// A text that shows the value.
    fn text(&self, alloc: Global, shown: &T) -> Result<String, AllocError>
        ensures { IfOk result (λ text. shows self.now shown.now (string_bytes text)) };
}

/// A text with a line feed after it.
pub(crate) fn as_line(text: String) -> Result<String, AllocError> {
    let mut text = text;
    text.push('\n')?;
    Ok(text)
}
