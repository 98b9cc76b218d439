//! Which type words name, and which type a typedef name stands for (C99 6.7.2, 6.7.7).
ghost use Rattle.std.specs.Prelude.{◌≡◌, ◌<◌, All, None, Some, map, length, IfSome};
ghost use Rattle.std.specs.Option.{option_copied, option_map};
ghost use Rattle.lk_types.specs.Table.{Table, IsKnown};
ghost use Rattle.lk_typed.specs.Meaning.{meaning, IsReady};
ghost use Rattle.lk_typed.specs.Names.{declared_in, IsKnownName};
ghost use Rattle.lk_typed.specs.Told as told;
ghost use Rattle.lk_typed.specs.TypeWords as spec;
ghost use Rattle.lk_names.specs.Words.{rules_type, rules_row};

use lk_base::Kind;
use lk_tree::TypeWord;
use lk_typed::{Declared, Meaning};
use lk_types::TypeId;

/// What words alone can name.
#[derive(Clone, Copy)]
enum WordType {
    Void,
    Integer(Kind),
}

/// The combinations of words that name a type, in any order (C99 6.7.2, 2).
const ROWS: [(&[TypeWord], WordType); 28] = [
    (&[TypeWord::Void], WordType::Void),
    (&[TypeWord::Char], WordType::Integer(Kind::Char)),
    (
        &[TypeWord::Signed, TypeWord::Char],
        WordType::Integer(Kind::SChar),
    ),
    (
        &[TypeWord::Unsigned, TypeWord::Char],
        WordType::Integer(Kind::UChar),
    ),
    (&[TypeWord::Short], WordType::Integer(Kind::Short)),
    (
        &[TypeWord::Signed, TypeWord::Short],
        WordType::Integer(Kind::Short),
    ),
    (
        &[TypeWord::Short, TypeWord::Int],
        WordType::Integer(Kind::Short),
    ),
    (
        &[TypeWord::Signed, TypeWord::Short, TypeWord::Int],
        WordType::Integer(Kind::Short),
    ),
    (
        &[TypeWord::Unsigned, TypeWord::Short],
        WordType::Integer(Kind::UShort),
    ),
    (
        &[TypeWord::Unsigned, TypeWord::Short, TypeWord::Int],
        WordType::Integer(Kind::UShort),
    ),
    (&[TypeWord::Int], WordType::Integer(Kind::Int)),
    (&[TypeWord::Signed], WordType::Integer(Kind::Int)),
    (
        &[TypeWord::Signed, TypeWord::Int],
        WordType::Integer(Kind::Int),
    ),
    (&[TypeWord::Unsigned], WordType::Integer(Kind::UInt)),
    (
        &[TypeWord::Unsigned, TypeWord::Int],
        WordType::Integer(Kind::UInt),
    ),
    (&[TypeWord::Long], WordType::Integer(Kind::Long)),
    (
        &[TypeWord::Signed, TypeWord::Long],
        WordType::Integer(Kind::Long),
    ),
    (
        &[TypeWord::Long, TypeWord::Int],
        WordType::Integer(Kind::Long),
    ),
    (
        &[TypeWord::Signed, TypeWord::Long, TypeWord::Int],
        WordType::Integer(Kind::Long),
    ),
    (
        &[TypeWord::Unsigned, TypeWord::Long],
        WordType::Integer(Kind::ULong),
    ),
    (
        &[TypeWord::Unsigned, TypeWord::Long, TypeWord::Int],
        WordType::Integer(Kind::ULong),
    ),
    (
        &[TypeWord::Long, TypeWord::Long],
        WordType::Integer(Kind::LLong),
    ),
    (
        &[TypeWord::Signed, TypeWord::Long, TypeWord::Long],
        WordType::Integer(Kind::LLong),
    ),
    (
        &[TypeWord::Long, TypeWord::Long, TypeWord::Int],
        WordType::Integer(Kind::LLong),
    ),
    (
        &[
            TypeWord::Signed,
            TypeWord::Long,
            TypeWord::Long,
            TypeWord::Int,
        ],
        WordType::Integer(Kind::LLong),
    ),
    (
        &[TypeWord::Unsigned, TypeWord::Long, TypeWord::Long],
        WordType::Integer(Kind::ULLong),
    ),
    (
        &[
            TypeWord::Unsigned,
            TypeWord::Long,
            TypeWord::Long,
            TypeWord::Int,
        ],
        WordType::Integer(Kind::ULLong),
    ),
    (&[TypeWord::Bool], WordType::Integer(Kind::Bool)),
];

/// The place of a word among the words.
fn place(word: TypeWord) -> u32
    ensures { result ≡ spec.place word }
{
    match word {
        TypeWord::Void => 0,
        TypeWord::Char => 1,
        TypeWord::Short => 2,
        TypeWord::Int => 3,
        TypeWord::Long => 4,
        TypeWord::Signed => 5,
        TypeWord::Unsigned => 6,
        TypeWord::Bool => 7,
    }
}

/// How often a word stands among these.
fn count(word: TypeWord, words: &[TypeWord]) -> usize
    ensures { result ≡ spec.count word words.now }
{
    let mut times = 0;
    for other in words {
        if place(word) == place(*other) {
            times += 1;
        }
    }
    times
}

/// Whether a word stands as often among the ones as among the others.
fn is_as_often(us: &[TypeWord], vs: &[TypeWord], word: TypeWord) -> bool
    ensures { result ≡ spec.is_as_often us.now vs.now word }
{
    count(word, us) == count(word, vs)
}

/// Whether two lists have the same words, each as often.
fn are_same_words(us: &[TypeWord], vs: &[TypeWord]) -> bool
    ensures { result ≡ spec.are_same_words us.now vs.now }
{
    is_as_often(us, vs, TypeWord::Void)
        && is_as_often(us, vs, TypeWord::Char)
        && is_as_often(us, vs, TypeWord::Short)
        && is_as_often(us, vs, TypeWord::Int)
        && is_as_often(us, vs, TypeWord::Long)
        && is_as_often(us, vs, TypeWord::Signed)
        && is_as_often(us, vs, TypeWord::Unsigned)
        && is_as_often(us, vs, TypeWord::Bool)
}

/// What the first of these rows names that has the same words.
fn find_row(words: &[TypeWord], rows: &[(&[TypeWord], WordType)]) -> Option<WordType>
    ensures { option_map rules_type result ≡ spec.find_row words.now (map rules_row rows.now) }
{
    for (others, names) in rows {
        if are_same_words(words, others) {
            return Some(*names);
        }
    }
    None
}

/// What words name, if they are one of the combinations.
#[tactic(auto, unfolding(lk_typed::specs::TypeWords::type_of_words))]
fn named_by(words: &[TypeWord]) -> Option<WordType>
    ensures { option_map rules_type result ≡ spec.type_of_words words.now }
{
    find_row(words, &ROWS)
}

/// The type that words name, if they are one of the combinations of C99 6.7.2.
#[tactic(auto, using(lk_typed::proofs::FirstTypes::kind_known, lk_typed::proofs::FirstTypes::kind_means, lk_typed::proofs::FirstTypes::void_known, lk_typed::proofs::FirstTypes::void_means))]
pub fn type_of_words(words: &[TypeWord]) -> Option<TypeId>
    ensures named { (table : Table) → IsReady table →
        option_map (meaning table) result ≡ told.type_of_word (spec.type_of_words words.now) }
    ensures known { (table : Table) → IsReady table → IfSome result (IsKnown table) }
{
    match named_by(words) {
        Some(WordType::Void) => Some(TypeId::VOID),
        Some(WordType::Integer(kind)) => Some(TypeId::of_kind(kind)),
        None => None,
    }
}

/// What words name where no other type stands beside them.
fn words_alone(words: &[TypeWord]) -> Option<Option<TypeId>>
    ensures named { (table : Table) → IsReady table → option_map (option_map (meaning table)) result ≡
        told.with_optional None (λ t. Some (Some t)) (told.type_of_word (spec.type_of_words words.now)) }
    ensures known { (table : Table) → IsReady table → IfSome result (λ t. IfSome t (IsKnown table)) }
{
    match type_of_words(words) {
        Some(t) => Some(Some(t)),
        None => None,
    }
}

/// What other types name where there is one at least: it is alone, and no word stands beside it.
fn type_alone(words: &[TypeWord], types: &[Option<TypeId>]) -> Option<Option<TypeId>>
    requires { 0 < length types.now }
    ensures named { (table : Table) → option_map (option_map (meaning table)) result ≡
        told.named_type words.now (map (option_map (meaning table)) types.now) }
    ensures known { (table : Table) → All (λ t. IfSome t (IsKnown table)) types.now →
        IfSome result (λ t. IfSome t (IsKnown table)) }
{
    if words.len() == 0 && types.len() == 1 {
        Some(types[0])
    } else {
        None
    }
}

/// The type that words and other types name together, or nothing where they name none, which is
/// `Code::Mismatch`: the words are one of the combinations and there is no other type, or there is one other
/// type and no word (C99 6.7.2, 2). A type that is missing, since it is faulty, counts as one.
pub fn named_type(words: &[TypeWord], types: &[Option<TypeId>]) -> Option<Option<TypeId>>
    ensures named { (table : Table) → IsReady table → option_map (option_map (meaning table)) result ≡
        told.named_type words.now (map (option_map (meaning table)) types.now) }
    ensures known { (table : Table) → IsReady table → All (λ t. IfSome t (IsKnown table)) types.now →
        IfSome result (λ t. IfSome t (IsKnown table)) }
{
    if types.is_empty() {
        words_alone(words)
    } else {
        type_alone(words, types)
    }
}

/// The type that a name stands for, where it is a typedef name (C99 6.7.7, 3).
pub fn typedef_of(found: Option<&Declared>) -> Option<TypeId>
    ensures named { (table : Table) → option_map (meaning table) result ≡
        told.typedef_of (option_map (declared_in table) (option_copied found.entry)) }
    ensures known { (table : Table) →
        IfSome (option_copied found.entry) (IsKnownName table) → IfSome result (IsKnown table) }
{
    match found {
        Some(declared) => match declared.meaning {
            Meaning::Typedef(t) => Some(t),
            Meaning::Object(..)
            | Meaning::Function(_)
            | Meaning::Enumerator(_)
            | Meaning::InitialiserWord(_)
            | Meaning::Faulty => None,
        },
        None => None,
    }
}
