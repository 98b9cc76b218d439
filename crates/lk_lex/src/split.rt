//! The split of a source into tokens, with blanks, comments and line marks between them.
ghost use Rattle.std.specs.Prelude.{◌≡◌, ◌+◌, ◌<◌, ◌≤◌, length, IfOk, IfErr, OnOk, OnErr};
ghost use Rattle.lk_lex.specs.Tokens as spec;
ghost use Rattle.lk_lex.specs.Tokens.{Splits, start_of, names_with};
ghost use Rattle.lk_lex.specs.Lengths.{IsFaultOf, IsStop};
ghost use Rattle.lk_lex.specs.Answer.{Extends, refusal};

use crate::front::{Front, cut};
use crate::mark::Mark;
use crate::place::{Place, after, start_of};
use crate::token::{Token, TokenKind};
use lk_base::{Code, Fault, Files, Name, NoMemory, Refusal, Spot};
use std::alloc::Global;

/// The refusal with this code at this place, which has this name of at most 255 bytes.
pub fn refused(alloc: Global, code: Code, spot: Spot, name: &[u8]) -> Fault
    requires { length name.now ≤ 255 }
    ensures { IsFaultOf (refusal code spot name.now) result }
{
    match Name::from_bytes(alloc, name) {
        Ok(name) => Fault::Refused(Refusal { code, spot, name }),
        Err(_) => Fault::NoMemory,
    }
}

/// The number of the file that a mark names, or of the file that it stands in.
fn file_of(files: &mut Files, place: Place, name: Option<Name>) -> Result<u32, NoMemory>
    requires { length files.old < 4294967295 }
    ensures value { IfOk result (λ file. file ≡ spec.file_of files.old place name) }
    ensures ok { OnOk result (files.new ≡ names_with files.old name) }
    ensures err { OnErr result (files.new ≡ files.old) }
{
    match name {
        Some(name) => files.put(name),
        None => Ok(place.spot.file),
    }
}

/// A place behind a mark, whose next line is the one that the mark says.
fn marked(place: Place, file: u32, line: u32) -> Place
    ensures { result ≡ record place { next = record { file = file; line = line; col = 1 } } }
{
    Place {
        next: Spot { file, line, col: 1 },
        ..place
    }
}

/// The token between two places.
fn token_at(first: Place, behind: Place, kind: TokenKind) -> Token
    ensures { result ≡ spec.token_at first behind kind }
{
    Token {
        kind,
        from: first.at,
        to: behind.at,
        spot: first.spot,
    }
}

/// The tokens of a source, refused words among them. The names of its line marks are put into `files`.
pub fn split(alloc: Global, source: &[u8], own: u32, files: &mut Files) -> Result<Vec<Token>, Fault>
    requires few { length source.now ≤ 1048576 }
    requires names { length files.old < 2147483648 }
    ensures ok { IfOk result (λ list. Splits files.old (start_of own) source.now list.items files.new) }
    ensures err { IfErr result (IsStop files.old (start_of own) source.now files.new) }
    ensures names { Extends files.old files.new }
    ensures few_names { length files.new ≤ length files.old + length source.now }
{
    let mut found = Vec::new(alloc);
    let mut place = start_of(own);
    let mut rest = source;
    while !rest.is_empty() {
        match cut(alloc, place.fresh, rest)? {
            Front::Nothing => return Err(refused(alloc, Code::Byte, place.spot, b"")),
            Front::Broken => return Err(refused(alloc, Code::Token, place.spot, b"")),
            Front::Gap(len) => {
                let (text, others) = rest.split_at(len);
                place = after(place, text);
                rest = others;
                continue;
            }
            Front::Mark(len, mark) => {
                let (text, others) = rest.split_at(len);
                let behind = after(place, text);
                let file = file_of(files, behind, mark.name)?;
                place = marked(behind, file, mark.line);
                rest = others;
                continue;
            }
            Front::Token(len, kind) => {
                let (text, others) = rest.split_at(len);
                let behind = after(place, text);
                found.push(token_at(place, behind, kind))?;
                place = behind;
                rest = others;
                continue;
            }
        }
    }
    found.push(token_at(place, place, TokenKind::End))?;
    Ok(found)
}
