//! Which thread moves next.

use crate::dice::Dice;
use crate::running::Running;
use lk_base::NoMemory;
use std::alloc::Global;

/// After so many steps threads that waited are asked again.
const ASKED_AFTER: u32 = 16;

/// Priorities that threads begin with are above those that they are turned down to.
const FIRST_PRIORITY: u32 = 1 << 16;

/// How a thread stands in a run.
#[derive(Clone, Copy, PartialEq, Eq)]
enum Stand {
    /// It may be chosen.
    Ready,
    /// It is about to touch the target, and is held back.
    Held,
    /// It waited when it was last chosen.
    Waits,
    /// It has ended.
    Ended,
}

/// What is known of a thread.
#[derive(Clone, Copy)]
struct Hand {
    stand: Stand,
    /// The higher it is the sooner the thread is chosen, where priorities count.
    priority: u32,
    /// Whether it is let go, though it is about to touch the target.
    free: bool,
}

/// How the threads of a run take turns.
#[derive(Clone, Copy)]
pub(crate) struct Style {
    /// Whether the thread of the highest priority moves, or any.
    by_priority: bool,
    /// In one of so many steps another thread is chosen, or the priority of the one that moves is turned down.
    change: u32,
    /// In one of so many steps a thread is let go that is held back.
    patience: u32,
}

impl Style {
    /// That of the run of this number.
    pub(crate) fn of_run(number: u32) -> Style {
        match number % 4 {
            0 => Style {
                by_priority: false,
                change: 16,
                patience: 256,
            },
            1 => Style {
                by_priority: true,
                change: 64,
                patience: 2048,
            },
            2 => Style {
                by_priority: false,
                change: 1,
                patience: 64,
            },
            _ => Style {
                by_priority: true,
                change: 512,
                patience: 65536,
            },
        }
    }
}

/// What chooses the threads of a run.
#[derive(Drop)]
pub(crate) struct Chooser {
    target: u32,
    style: Style,
    hands: Vec<Hand>,
    /// The thread that moved last.
    last: u32,
    /// How many steps were taken since threads that wait were asked.
    since: u32,
    /// How often threads that wait may be asked again before one moves.
    tries: u32,
}

/// Whether a thread stands so.
fn stands(hand: Option<&Hand>, stand: Stand) -> bool {
    match hand {
        Some(found) => found.stand == stand,
        None => false,
    }
}

impl Chooser {
    /// That of a run which looks for a race at the target.
    pub(crate) fn new(alloc: Global, target: u32, style: Style) -> Chooser {
        Chooser {
            target,
            style,
            hands: Vec::new(alloc),
            last: 0,
            since: 0,
            tries: 1,
        }
    }

    /// Knows of the threads that are new.
    pub(crate) fn know(&mut self, dice: &mut Dice, running: &Running) -> Result<(), NoMemory> {
        for _new in self.hands.len()..running.ahead.len() {
            let priority = dice.below(FIRST_PRIORITY).saturating_add(FIRST_PRIORITY);
            self.hands.push(Hand {
                stand: Stand::Ready,
                priority,
                free: false,
            })?;
        }
        Ok(())
    }

    /// How many threads stand so.
    fn count(&self, stand: Stand) -> u32 {
        let mut count: u32 = 0;
        for hand in self.hands.as_slice() {
            if hand.stand == stand {
                count = count.saturating_add(1);
            }
        }
        count
    }

    /// The thread that stands so behind so many others that do.
    fn number(&self, stand: Stand, skipped: u32) -> Option<u32> {
        let mut left = skipped;
        let mut number: u32 = 0;
        for hand in self.hands.as_slice() {
            if hand.stand == stand {
                if left == 0 {
                    return Some(number);
                }
                left = left.saturating_sub(1);
            }
            number = number.saturating_add(1);
        }
        None
    }

    /// Any thread that stands so.
    fn any(&self, dice: &mut Dice, stand: Stand) -> Option<u32> {
        let count = self.count(stand);
        self.number(stand, dice.below(count))
    }

    /// The thread of the highest priority of those that may be chosen.
    fn first(&self) -> Option<u32> {
        let mut found = None;
        let mut most: u32 = 0;
        let mut number: u32 = 0;
        for hand in self.hands.as_slice() {
            if hand.stand == Stand::Ready && hand.priority >= most {
                most = hand.priority;
                found = Some(number);
            }
            number = number.saturating_add(1);
        }
        found
    }

    /// The thread that moved last, where it may be chosen.
    fn same(&self) -> Option<u32> {
        if stands(self.hands.get(self.last as usize), Stand::Ready) {
            Some(self.last)
        } else {
            None
        }
    }

    /// One of the threads that may be chosen.
    fn ready(&self, dice: &mut Dice) -> Option<u32> {
        if self.style.by_priority {
            return self.first();
        }
        if dice.is_one_in(self.style.change) {
            return self.any(dice, Stand::Ready);
        }
        match self.same() {
            Some(last) => Some(last),
            None => self.any(dice, Stand::Ready),
        }
    }

    /// Changes what is known of a thread.
    fn set(&mut self, thread: u32, hand: Hand) {
        let at = thread as usize;
        if at < self.hands.len() {
            self.hands[at] = hand;
        }
    }

    /// Lets one of the threads go that are held back. False where there is none.
    fn release(&mut self, dice: &mut Dice) -> bool {
        match self.any(dice, Stand::Held) {
            Some(thread) => {
                self.put(thread, Stand::Ready, true);
                true
            }
            None => false,
        }
    }

    /// A thread stands so from now on.
    fn put(&mut self, thread: u32, stand: Stand, free: bool) {
        if let Some(hand) = self.hands.get(thread as usize) {
            let priority = hand.priority;
            self.set(
                thread,
                Hand {
                    stand,
                    priority,
                    free,
                },
            );
        }
    }

    /// Threads that wait may be chosen again.
    fn wake(&mut self) {
        self.since = 0;
        for at in 0..self.hands.len() {
            let hand = self.hands[at];
            if hand.stand == Stand::Waits {
                self.hands[at] = Hand {
                    stand: Stand::Ready,
                    priority: hand.priority,
                    free: hand.free,
                };
            }
        }
    }

    /// The thread that is to move, or nothing where the run is at its end.
    pub(crate) fn pick(&mut self, dice: &mut Dice) -> Option<u32> {
        if let Some(thread) = self.ready(dice) {
            return Some(thread);
        }
        if self.release(dice) {
            return self.ready(dice);
        }
        if self.tries == 0 {
            return None;
        }
        self.tries -= 1;
        self.wake();
        self.ready(dice)
    }

    /// Whether a thread is held back, since it is about to touch the target.
    pub(crate) fn holds(&mut self, running: &Running, thread: u32) -> bool {
        if running.location_of(thread) != Some(self.target) {
            return false;
        }
        match self.hands.get(thread as usize) {
            Some(hand) => {
                if hand.free {
                    return false;
                }
                self.put(thread, Stand::Held, false);
                true
            }
            None => false,
        }
    }

    /// A thread moved.
    pub(crate) fn moved(&mut self, dice: &mut Dice, thread: u32) {
        self.last = thread;
        self.tries = 1;
        self.put(thread, Stand::Ready, false);
        if self.style.by_priority && dice.is_one_in(self.style.change) {
            let priority = dice.below(FIRST_PRIORITY);
            self.set(
                thread,
                Hand {
                    stand: Stand::Ready,
                    priority,
                    free: false,
                },
            );
        }
        self.since = self.since.saturating_add(1);
        if self.since >= ASKED_AFTER {
            self.wake();
        }
        if dice.is_one_in(self.style.patience) {
            self.release(dice);
        }
    }

    /// A thread waits.
    pub(crate) fn waits(&mut self, thread: u32) {
        self.put(thread, Stand::Waits, false);
    }

    /// A thread has ended.
    pub(crate) fn ended(&mut self, thread: u32) {
        self.put(thread, Stand::Ended, false);
    }
}
