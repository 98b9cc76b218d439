//! The words of steps: what is read from outside, and whether there is memory.

use crate::dice::Dice;
use lk_base::NoMemory;
use lk_facts::{Action, Points};
use std::alloc::Global;

/// How many words there are.
const WORDS: i128 = 1 << 64;

/// The words that runs may take.
#[derive(Drop)]
pub(crate) struct Words {
    /// The constants of the program.
    constants: Vec<u64>,
}

/// Puts the word of a constant behind the words.
fn put_word(words: &mut Vec<u64>, number: i128) -> Result<(), NoMemory> {
    if let Ok(word) = u64::try_from(number.rem_euclid(WORDS)) {
        words.push(word)?;
    }
    Ok(())
}

/// Puts the constants of an action behind the words.
fn put_constants(words: &mut Vec<u64>, action: &Action) -> Result<(), NoMemory> {
    if let Action::Value { number, ty: _ } = action {
        put_word(words, *number)?;
    }
    if let Action::Switch { a: _, cases } = action {
        for case in cases.list() {
            put_word(words, *case)?;
        }
    }
    Ok(())
}

impl Words {
    /// Those of a program.
    pub(crate) fn of(alloc: Global, points: &Points) -> Result<Words, NoMemory> {
        let mut constants = Vec::new(alloc);
        for point in 0..points.count() {
            put_constants(&mut constants, points.action(point))?;
        }
        Ok(Words { constants })
    }

    /// A constant of the program, and 0 where there is none.
    fn constant(&self, dice: &mut Dice) -> u64 {
        let count = u32::try_from(self.constants.len()).unwrap_or(u32::MAX);
        let at = dice.below(count) as usize;
        self.constants.get(at).copied().unwrap_or(0)
    }

    /// The word of a step that reads from outside: mostly 1, now and then 0, a constant of the program, or
    /// another number, small or large.
    pub(crate) fn read(&self, dice: &mut Dice) -> u64 {
        match dice.below(16) {
            0 | 1 => 0,
            2 | 3 | 4 => self.constant(dice),
            5 => dice.below(256) as u64,
            6 => dice.word(),
            _ => 1,
        }
    }
}

/// The word of a step that makes an object or a thread: seldom 0, so that memory is mostly found.
pub(crate) fn making(dice: &mut Dice) -> u64 {
    if dice.is_one_in(32) { 0 } else { 1 }
}
