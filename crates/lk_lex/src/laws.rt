//! Laws of the definitions, as contracts of functions that do nothing.
ghost use Rattle.lk_lex.specs.Laws.{HasOneList, NeverBoth, HasOneStop, AlwaysOne, HasOneAnswer, AreLongest, NothingBegins, KeywordsAreRead, PunctuatorsAreRead, NumbersAreConstants};

/// A source has one list of tokens, or its split stops at one place with one code; so it has one answer.
pub fn one_split()
    ensures always { AlwaysOne }
    ensures list { HasOneList }
    ensures never_both { NeverBoth }
    ensures stop { HasOneStop }
    ensures answer { HasOneAnswer }
{}

/// Each word, number and punctuator is the longest that can stand at its place, and
/// a word begins with no digit.
pub fn longest_tokens()
    ensures { AreLongest }
{}

/// Nothing stands in front exactly where no blank, comment, line with `#`, word,
/// number, quote or punctuator begins.
pub fn beginnings()
    ensures { NothingBegins }
{}

/// The spelling of each keyword and of each punctuator is read as that one.
pub fn spellings()
    ensures keywords { KeywordsAreRead }
    ensures punctuators { PunctuatorsAreRead }
{}

/// A number is refused exactly where it is no integer constant, and else read as that constant.
pub fn constants()
    ensures { NumbersAreConstants }
{}
