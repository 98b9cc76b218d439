//! The tokens that are left to be read, with the names in scope.
ghost use Rattle.std.specs.Prelude.{if◌then◌else◌, ◌≤◌, Ok, ◌≡◌, ◌≢◌, ◌++◌, [], length, take, drop, IfOk, IfErr, OnOk};
ghost use Rattle.lk_lex.specs.Texts.{text_value};
ghost use Rattle.lk_parse_expr.specs.Input as spec;
ghost use Rattle.lk_parse_expr.specs.Input.{AreInside};
ghost use Rattle.lk_parse_expr.specs.Readers as reader;
ghost use Rattle.lk_parse_expr.specs.Readers.{Gives};
ghost use Rattle.lk_base.specs.declared.fault.Fault.TheVariants as fault;
ghost use Rattle.lk_parse_expr.specs.Reading as reading;
ghost use Rattle.lk_parse_expr.specs.Words as words;
ghost use Rattle.lk_parse_expr.specs.Heads as heads;
ghost use Rattle.lk_lex.specs.declared.token.TokenKind.TheVariants as word;
ghost use Rattle.lk_parse_expr.specs.Parts as part;
ghost use Rattle.lk_parse_expr.specs.Parts.{close_parameters};

use crate::naming::{Head, Naming};
use crate::words::{is_close_brace, is_ellipsis, is_specifier_word, qualifier_of};
use lk_base::{Code, Fault, Name, NoMemory, Refusal, Seq, Spot};
use lk_lex::{Keyword, Punct, Token, TokenKind, push_text, text_of};
use lk_scopes::Declarations;
use lk_tree::Qualifier;
use std::alloc::Global;
use std::marker::Model;

/// The tokens that are left of a source, and the names in scope. A contract sees it as an `Input`.
#[derive(Drop)]
pub struct Cursor<'t> {
    alloc: Global,
    source: &'t [u8],
    tokens: &'t [Token],
    /// How many of the tokens were taken.
    taken: usize,
    names: Declarations<(Name, bool)>,
}

impl<'t> Model for Cursor<'t> {
    ghost use Rattle.std.specs.Prelude.{◌≤◌, drop, length};
    ghost use Rattle.lk_parse_expr.specs.Input.{Input, input_code, AreInside};

    ghost Value = { Input };

    ghost coded = { input_code };

    ghost view = { λ c. record { source = c.source.now; tokens = drop c.taken c.tokens.now; names = c.names } };

    ghost invariant = { λ c. (c.taken ≤ length c.tokens.now) × AreInside c.source.now c.tokens.now };
}

impl<'t> Cursor<'t> {
    /// A cursor at the first of the tokens of a source, with no name in scope.
    pub fn new(alloc: Global, source: &'t [u8], tokens: &'t [Token]) -> Cursor<'t>
        requires { AreInside source.now tokens.now }
        ensures { result ≡ record { source = source.entry.now; tokens = tokens.entry.now; names = [] } }
    {
        Cursor {
            alloc,
            source,
            tokens,
            taken: 0,
            names: Declarations::new(alloc),
        }
    }

    /// What the next token is. At the end of the tokens it is the end.
    #[tactic(auto, unfolding(crate::specs::Input::peek))]
    pub fn peek(&self) -> TokenKind
        ensures { result ≡ spec.peek self.now }
    {
        match self.tokens.get(self.taken) {
            Some(token) => token.kind,
            None => TokenKind::End,
        }
    }

    /// What the token behind the next one is.
    #[tactic(auto, unfolding(crate::specs::Input::peek, crate::specs::Input::next))]
    pub fn second(&self) -> TokenKind
        ensures { result ≡ spec.peek (spec.next self.now) }
    {
        match self.tokens.get(self.taken + 1) {
            Some(token) => token.kind,
            None => TokenKind::End,
        }
    }

    /// The place of the next token.
    #[tactic(auto, unfolding(crate::specs::Input::here))]
    pub fn spot(&self) -> Spot
        ensures { result ≡ spec.here self.now }
    {
        match self.tokens.get(self.taken) {
            Some(token) => token.spot,
            None => Spot {
                file: 0,
                line: 0,
                col: 0,
            },
        }
    }

    /// The bytes of the next token.
    #[tactic(auto, unfolding(crate::specs::Input::text))]
    pub fn text(&self) -> &'t [u8]
        ensures { result.now ≡ spec.text self.now }
    {
        match self.tokens.get(self.taken) {
            Some(token) => text_of(self.source, token),
            None => &[],
        }
    }

    /// The bytes of the token behind the next one.
    #[tactic(auto, unfolding(crate::specs::Input::text, crate::specs::Input::next))]
    fn second_text(&self) -> &'t [u8]
        ensures { result.now ≡ spec.text (spec.next self.now) }
    {
        match self.tokens.get(self.taken + 1) {
            Some(token) => text_of(self.source, token),
            None => &[],
        }
    }

    /// How many tokens are left.
    #[tactic(auto, unfolding(crate::specs::Readers::left))]
    pub fn left(&self) -> usize
        ensures { result ≡ reader.left self.now }
    {
        self.tokens.len() - self.taken
    }

    /// Takes the next token.
    #[tactic(auto, unfolding(crate::specs::Input::next))]
    pub fn take(&mut self)
        ensures { self.new ≡ spec.next self.old }
    {
        if self.taken < self.tokens.len() {
            self.taken += 1;
        }
    }

    /// Why nothing goes on here.
    fn fault(&self, code: Code) -> Fault
        ensures { result ≢ fault.NoMemory → result ≡ reader.fault_at code self.now }
    {
        match Name::from_bytes(self.alloc, b"") {
            Ok(name) => Fault::Refused(Refusal {
                code,
                spot: self.spot(),
                name,
            }),
            Err(_) => Fault::NoMemory,
        }
    }

    /// No tree goes on with the next token.
    pub fn refuse(&self) -> Fault
        ensures { result ≢ fault.NoMemory → result ≡ reader.syntax_at self.now }
    {
        self.fault(Code::Syntax)
    }

    /// Only trees that are too deep go on with the next token.
    pub fn exhaust(&self) -> Fault
        ensures { result ≢ fault.NoMemory → result ≡ reader.too_deep_at self.now }
    {
        self.fault(Code::TooDeep)
    }

    /// Why nothing is read where no level is left: too deep where something begins here.
    pub fn exhausted(&self, begins: bool) -> Fault
        ensures { result ≢ fault.NoMemory → result
            ≡ (if begins then reader.too_deep_at self.now else reader.syntax_at self.now) }
    {
        if begins {
            self.exhaust()
        } else {
            self.refuse()
        }
    }

    /// Whether this punctuator is next.
    #[tactic(auto, unfolding(crate::specs::Readers::sees, crate::specs::Readers::same_punct))]
    pub fn sees(&self, punct: Punct) -> bool
        ensures { result ≡ reader.sees punct self.now }
    {
        match self.peek() {
            TokenKind::Punct(found) => found == punct,
            TokenKind::Word
            | TokenKind::Key(_)
            | TokenKind::Number(_, _)
            | TokenKind::Char(_)
            | TokenKind::Text
            | TokenKind::End => false,
        }
    }

    /// Whether this keyword is next.
    #[tactic(auto, unfolding(crate::specs::Readers::sees_key, crate::specs::Readers::same_keyword))]
    pub fn sees_key(&self, keyword: Keyword) -> bool
        ensures { result ≡ reader.sees_key keyword self.now }
    {
        match self.peek() {
            TokenKind::Key(found) => found == keyword,
            TokenKind::Word
            | TokenKind::Punct(_)
            | TokenKind::Number(_, _)
            | TokenKind::Char(_)
            | TokenKind::Text
            | TokenKind::End => false,
        }
    }

    /// Takes this punctuator.
    #[tactic(auto, unfolding(crate::specs::Readers::expect))]
    pub fn expect(&mut self, punct: Punct) -> Result<(), Fault>
        ensures { Gives (reader.expect punct self.old) result self.new }
    {
        if !self.sees(punct) {
            return Err(self.refuse());
        }
        self.take();
        Ok(())
    }

    /// Takes this punctuator, and gives back what was read before it.
    #[tactic(auto, unfolding(crate::specs::Readers::expect))]
    pub fn closed<B: Drop>(&mut self, before: B, punct: Punct) -> Result<B, Fault>
        ensures { Gives (part.closed before punct self.old) result self.new }
    {
        self.expect(punct)?;
        Ok(before)
    }

    /// Takes this keyword.
    #[tactic(auto, unfolding(crate::specs::Readers::expect_key))]
    pub fn expect_key(&mut self, keyword: Keyword) -> Result<(), Fault>
        ensures { Gives (reader.expect_key keyword self.old) result self.new }
    {
        if !self.sees_key(keyword) {
            return Err(self.refuse());
        }
        self.take();
        Ok(())
    }

    /// Takes this keyword, and gives back what was read before it.
    #[tactic(auto, unfolding(crate::specs::Readers::expect_key))]
    pub fn closed_by_key<B: Drop>(&mut self, before: B, keyword: Keyword) -> Result<B, Fault>
        ensures { Gives (part.closed_by_key before keyword self.old) result self.new }
    {
        self.expect_key(keyword)?;
        Ok(before)
    }

    /// The next token, which is a word, as a name.
    fn name(&self) -> Result<Name, Fault>
        requires { spec.peek self.now ≡ word.Word }
        ensures ok { IfOk result (λ name. name ≡ spec.text self.now) }
        ensures err { IfErr result (λ e. e ≡ fault.NoMemory) }
    {
        match Name::from_bytes(self.alloc, self.text()) {
            Ok(name) => Ok(name),
            Err(_) => Err(Fault::NoMemory),
        }
    }

    /// Takes a name.
    #[tactic(auto, unfolding(crate::specs::Readers::word))]
    pub fn word(&mut self) -> Result<Name, Fault>
        ensures { Gives (reader.word self.old) result self.new }
    {
        if self.peek() != TokenKind::Word {
            return Err(self.refuse());
        }
        let name = self.name()?;
        self.take();
        Ok(name)
    }

    /// Takes a name, and gives back what was read before it as well.
    pub fn word_behind<B: Drop>(&mut self, before: B) -> Result<(B, Name), Fault>
        ensures { Gives (part.behind before reader.word self.old) result self.new }
    {
        let name = self.word()?;
        Ok((before, name))
    }

    /// Asks for so many levels, where there are `room`.
    #[tactic(auto, unfolding(crate::specs::Readers::need))]
    pub fn need(&self, least: usize, room: usize) -> Result<(), Fault>
        ensures { Gives (reader.need least room self.now) result self.now }
    {
        if least <= room {
            Ok(())
        } else {
            Err(self.exhaust())
        }
    }

    /// Takes a token above what was read, which leaves `room` levels and is given
    /// back: one of them has to be left.
    #[tactic(auto, unfolding(crate::specs::Readers::need))]
    pub fn rise<B: Drop>(&mut self, before: B, room: usize) -> Result<B, Fault>
        ensures { Gives (part.rise before room self.old) result self.new }
    {
        self.need(1, room)?;
        self.take();
        Ok(before)
    }

    /// How many names are in scope.
    pub fn mark(&self) -> usize
        ensures { result ≡ length self.now.names }
    {
        self.names.len()
    }

    /// Declares a name.
    #[tactic(auto, unfolding(crate::specs::Input::declare))]
    pub fn declare(&mut self, name: Name, typedef: bool) -> Result<(), NoMemory>
        ensures { OnOk result (self.new ≡ spec.declare name typedef self.old) }
    {
        self.names.push((name, typedef))?;
        Ok(())
    }

    /// Ends the scopes of the names that were declared since there were so many.
    pub fn leave(&mut self, mark: usize)
        ensures { self.new ≡ record self.old { names = take mark self.old.names } }
    {
        self.names.truncate(mark);
    }

    /// Whether the innermost declaration of a word is a typedef.
    fn is_typedef(&self, word: &[u8]) -> bool
        ensures { result ≡ spec.is_typedef self.now.names word.now }
    {
        match self.names.look_up(word) {
            Some(declared) => declared.1,
            None => false,
        }
    }

    /// Whether the next token begins a specifier, where `typed` says that a type came before it.
    #[tactic(auto, unfolding(crate::specs::Words::continues_specifiers))]
    pub fn continues_specifiers(&self, typed: bool) -> bool
        ensures { result ≡ words.continues_specifiers typed self.now }
    {
        let kind = self.peek();
        is_specifier_word(kind)
            || (kind == TokenKind::Word && !typed && self.is_typedef(self.text()))
    }

    /// Whether the token behind the next one begins specifiers.
    #[tactic(auto, unfolding(crate::specs::Words::continues_specifiers, crate::specs::Input::next))]
    pub fn second_begins_specifiers(&self) -> bool
        ensures { result ≡ words.begins_specifiers (spec.next self.now) }
    {
        let kind = self.second();
        is_specifier_word(kind) || (kind == TokenKind::Word && self.is_typedef(self.second_text()))
    }

    /// Whether a `(` is next that opens a type name.
    #[tactic(auto, unfolding(crate::specs::Readers::sees, crate::specs::Readers::same_punct))]
    pub fn opens_type_name(&self) -> bool
        ensures { result ≡ words.opens_type_name self.now }
    {
        self.peek() == TokenKind::Punct(Punct::OpenParen) && self.second_begins_specifiers()
    }

    /// Puts the bytes that the next token, a text, stands for at the end of `bytes`.
    #[tactic(auto, unfolding(crate::specs::Input::text, crate::specs::Input::peek))]
    fn push_value(&self, bytes: &mut Vec<u8>) -> Result<(), NoMemory>
        requires { spec.peek self.now ≡ word.Text }
        ensures { OnOk result (bytes.new.items ≡ bytes.old.items ++ text_value (spec.text self.now)) }
    {
        match self.tokens.get(self.taken) {
            Some(token) => push_text(self.source, token, bytes),
            None => Ok(()),
        }
    }

    /// Takes texts one after another, by the bytes that they stand for together.
    pub fn texts(&mut self) -> Result<Seq<u8>, Fault>
        ensures { Gives (reading.texts self.old) result self.new }
    {
        let mut bytes = Vec::new(self.alloc);
        for _turn in 0..self.left() {
            if self.peek() != TokenKind::Text {
                return Ok(Seq::new(bytes));
            }
            self.push_value(&mut bytes)?;
            self.take();
        }
        Ok(Seq::new(bytes))
    }

    /// Takes qualifiers one after another.
    #[tactic(auto, unfolding(crate::specs::Reading::qualifiers))]
    pub fn qualifiers(&mut self) -> Result<Seq<Qualifier>, Fault>
        ensures { Gives (reading.qualifiers self.old) result self.new }
    {
        let mut found = Vec::new(self.alloc);
        for _turn in 0..self.left() {
            let Some(qualifier) = qualifier_of(self.peek()) else {
                return Ok(Seq::new(found));
            };
            found.push(qualifier)?;
            self.take();
        }
        Ok(Seq::new(found))
    }

    /// Takes a tag, where there is one.
    #[tactic(auto, unfolding(crate::specs::Reading::tag))]
    pub fn tag(&mut self) -> Result<Option<Name>, Fault>
        ensures { Gives (reading.tag self.old) result self.new }
    {
        if self.peek() != TokenKind::Word {
            return Ok(None);
        }
        let name = self.name()?;
        self.take();
        Ok(Some(name))
    }

    /// Takes a comma, where there is one.
    #[tactic(auto, unfolding(crate::specs::Reading::comma_if_any))]
    pub fn comma_if_any(&mut self)
        ensures { reading.comma_if_any self.old ≡ Ok (tt, self.new) }
    {
        if self.sees(Punct::Comma) {
            self.take();
        }
    }

    /// Whether a comma is next that goes on in a list in braces, which one before a `}` does not.
    #[tactic(auto, unfolding(crate::specs::Readers::goes_on))]
    pub fn goes_on_in_braces(&self) -> bool
        ensures { result ≡ reader.goes_on words.is_close_brace self.now }
    {
        self.sees(Punct::Comma) && !is_close_brace(self.second())
    }

    /// Whether a comma is next that goes on in a list of parameters, which one before a `...` does not.
    #[tactic(auto, unfolding(crate::specs::Readers::goes_on))]
    pub fn goes_on_in_parameters(&self) -> bool
        ensures { result ≡ reader.goes_on reading.is_ellipsis self.now }
    {
        self.sees(Punct::Comma) && !is_ellipsis(self.second())
    }

    /// Takes `, ...`, where a comma is next, and tells whether it was, with what was read before it.
    #[tactic(auto, unfolding(crate::specs::Reading::dots))]
    pub fn dots<B: Drop>(&mut self, before: B) -> Result<(B, bool), Fault>
        ensures { Gives (part.behind before reading.dots self.old) result self.new }
    {
        if !self.sees(Punct::Comma) {
            return Ok((before, false));
        }
        self.take();
        self.expect(Punct::Ellipsis)?;
        Ok((before, true))
    }

    /// Whether a declarator begins here, where it has a name by this rule.
    pub fn begins_declarator(&self, naming: Naming) -> bool
        ensures { result ≡ reading.begins_declarator naming self.now }
    {
        (self.sees(Punct::Star) || self.sees(Punct::OpenParen))
            || ((self.peek() == TokenKind::Word && naming.may_name())
                || (self.sees(Punct::OpenBracket) && naming.may_omit()))
    }

    /// Whether the next token, a `(`, opens a Group, where a declarator has a name by this rule.
    pub fn opens_group(&self, naming: Naming) -> bool
        ensures { result ≡ heads.is_group naming (spec.next self.now) }
    {
        match naming {
            Naming::Named => true,
            Naming::Abstract | Naming::Either => {
                self.second() != TokenKind::Punct(Punct::CloseParen)
                    && !self.second_begins_specifiers()
            }
        }
    }

    /// Declares the name of a declarator, where it has one.
    pub fn declare_head(&mut self, head: Head, typedef: bool) -> Result<(), NoMemory>
        ensures { OnOk result (self.new ≡ heads.declare_head head typedef self.old) }
    {
        match head {
            Head::Abstract => Ok(()),
            Head::Bare(name) => self.declare(name, typedef),
            Head::Function(name, _) => self.declare(name, typedef),
            Head::Other(name) => self.declare(name, typedef),
        }
    }

    /// Declares the name of a declarator, where it has one, and gives back what was read before.
    pub fn declared<B: Drop>(&mut self, before: B, head: Head, typedef: bool) -> Result<B, NoMemory>
        ensures given { IfOk result (λ given. given ≡ before) }
        ensures names { OnOk result (self.new ≡ heads.declare_head head typedef self.old) }
    {
        self.declare_head(head, typedef)?;
        Ok(before)
    }

    /// Declares names one after another.
    #[tactic(auto, unfolding(crate::specs::Input::with_names))]
    pub fn declare_all(&mut self, names: Seq<(Name, bool)>) -> Result<(), NoMemory>
        ensures { OnOk result (self.new ≡ spec.with_names names self.old) }
    {
        self.names.push_all(names.into_vec())
    }

    /// Ends the scopes of the names that were declared since there were so many, and hands them out.
    pub fn leave_with_names(&mut self, mark: usize) -> Result<Seq<(Name, bool)>, NoMemory>
        ensures names { IfOk result (λ names. names ≡ drop mark self.old.names) }
        ensures rest { OnOk result (self.new ≡ record self.old { names = take mark self.old.names }) }
    {
        let mut names = self.names.room(self.alloc, mark)?;
        self.names.split_into(mark, &mut names);
        Ok(Seq::new(names))
    }

    /// Takes the `)` behind parameters, where the scopes end of the names that were declared since there were
    /// `mark` of them, and hands those out, with what was read before.
    #[tactic(auto, unfolding(crate::specs::Readers::expect, crate::specs::Input::next))]
    pub fn close_parameters<B: Drop>(
        &mut self,
        mark: usize,
        before: B,
    ) -> Result<(B, Seq<(Name, bool)>), Fault>
        ensures { Gives (part.behind before (close_parameters mark) self.old) result self.new }
    {
        if !self.sees(Punct::CloseParen) {
            return Err(self.refuse());
        }
        self.take();
        let names = self.leave_with_names(mark)?;
        Ok((before, names))
    }
}
