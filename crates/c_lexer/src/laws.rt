//! Laws of the definitions alone, each the contract of a function that does nothing.

ghost use Rattle.std.specs.Prelude.{List, ℕ};
ghost use Rattle.c_lexer.specs.Laws.{CommentLaw, OpenCommentLaw, TextLaw, MarkLaw, NoMarkLaw, NameLaw, NumberLaw, EachHasReading, OneReading};

/// A comment ends with the first `*/`, and is open where there is none.
pub fn comment_law()
    ensures end { CommentLaw }
    ensures none { OpenCommentLaw }
{}

/// The bytes of a text are those that it spells, byte by byte and escape by escape.
pub fn text_law()
    ensures { TextLaw }
{}

/// The mark that is read is the longest of the table that stands there, and the longest is read.
/// Where no mark is read, none stands.
pub fn mark_law()
    ensures found { MarkLaw }
    ensures none { NoMarkLaw }
{}

/// A name and a number go on as far as they can. A name has at most 63 bytes, and a number is a constant.
pub fn word_law()
    ensures names { NameLaw }
    ensures numbers { NumberLaw }
{}

/// Each text is spelled by one list of tokens, or refused by one fault.
pub fn reading_law()
    ensures some { EachHasReading }
    ensures one { (text : List ℕ) → OneReading text }
{}
