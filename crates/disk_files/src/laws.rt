//! What holds of all lines and blocks. Each function carries one law as its contract, and does nothing.

ghost use Rattle.std.specs.Prelude.{◌≡◌, ℕ, ◌*◌, List, ◌∷◌, ◌++◌, Some, length};
ghost use Rattle.std.specs.List.{AllByRecursion, concat};
ghost use Rattle.hex.specs.Hex.{IsBytes};
ghost use Rattle.disk_files.specs.Line.{NoFeed, after_line, feed, first_line};
ghost use Rattle.disk_files.specs.RawLine.{raw_answer, raw_line, raw_reply_text, raw_text};
ghost use Rattle.disk_files.specs.Reply.{as_blocks};
ghost use Rattle.disk_files.specs.TraceLaws.{SaysEachCall};

/// A line that is written with its line feed is read again.
pub fn line_again()
    ensures first { (line rest : List ℕ) → NoFeed line → first_line (line ++ feed ∷ rest) ≡ line }
    ensures after { (line rest : List ℕ) → NoFeed line → after_line (line ++ feed ∷ rest) ≡ rest }
{}

/// A line of a trace that is written is read again: for each call there is one.
pub fn trace_line_again()
    ensures { SaysEachCall }
{}

/// A raw line with and without data is read again, and so is a reply to one.
pub fn raw_line_again()
    ensures line { (entry bytes : List ℕ) → IsBytes entry → length entry ≡ 64 → IsBytes bytes →
        raw_line (raw_text entry bytes) ≡ Some (entry, bytes) }
    ensures reply { (completion bytes : List ℕ) →
        IsBytes completion → length completion ≡ 16 → IsBytes bytes →
        raw_answer (first_line (raw_reply_text completion bytes)) ≡ Some (completion, bytes) }
{}

/// Blocks of one size that are joined are cut apart again.
pub fn blocks_again()
    ensures long { (size : ℕ) (blocks : List (List ℕ))
        → AllByRecursion (λ block. length block ≡ size) blocks →
        length (concat blocks) ≡ length blocks * size }
    ensures blocks { (size : ℕ) (blocks : List (List ℕ))
        → AllByRecursion (λ block. length block ≡ size) blocks →
        as_blocks size (length blocks) (concat blocks) ≡ blocks }
{}
