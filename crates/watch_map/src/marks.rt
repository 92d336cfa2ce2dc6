//! Marks: how far saturations came, so that a later one goes on from there.
//!
//! Where a saturation ends with all clauses settled, each watch that the trail makes false stands beside one that the
//! trail makes true. That isn't lost by entries that are added behind, and a saturation that begins there needs no look
//! at the entries before. But it is lost where the true one of two such watches is taken back, where a clause is let
//! watch a literal that is false, and where a new clause does. So the marks are a stack, the newest last:
//!
//! ```text
//! entries       a@1  b@1  c@2  d@3  e@3  f@3  g@4
//! marks              ^1   ^2             ^3
//! ```
//!
//! Under each mark stands the highest level of the entries before it. An undo to five entries forgets the last mark,
//! which needs `f`, and leaves the others. A new clause that watches `not c` forgets those of level 2 and above: before
//! the first mark `c` has no value. The next saturation goes on from the newest mark that is left.
//!
//! A mark is worth time alone: one that is forgotten, or was left out as memory for it was refused, makes the next
//! saturation longer, and changes no answer. What a mark says is in `specs/Marks`.
ghost use Rattle.std.specs.Prelude.{◌≡◌, ◌↔◌, IsTrue, ◌⊎◌, ◌+◌, ◌-◌, ◌&&◌, ◌++◌, ◌∷◌, [], nat_lt, length, take, All};
ghost use Rattle.watch_map.specs.Marks.{newest_mark, marks_below, is_from, not_false_at, none_false_at, IsBehind};
ghost use Rattle.watch_map.specs.Marks.{IsRemembered, AreRising};

use crate::saturation::is_false;
use decisions::{DecisionTracker, Literal};
use std::alloc::Allocator;
use std::marker::Model;

/// How far a saturation had come that found all clauses settled.
#[derive(Clone, Copy)]
pub struct Mark {
    /// How many entries the trail had.
    pub(crate) place: usize,
    /// A bound of ids: each clause below it that watches nothing was true.
    pub(crate) clauses: usize,
    /// The highest level of an entry.
    pub(crate) level: u32,
}

/// From where on marks are forgotten.
#[derive(Clone, Copy)]
pub enum Limit {
    /// Those of this number of entries and more.
    Place(usize),
    /// Those of this level and above.
    Level(u32),
}

/// The marks of a trail, the newest last.
#[derive(Drop)]
pub struct Marks<A: Allocator + Copy> {
    marks: Vec<Mark, A>,
}

impl<A: Allocator + Copy> Model for Marks<A> {
    ghost use Rattle.std.specs.Prelude.{List};
    ghost use Rattle.watch_map.specs.Marks.{AreRising};
    ghost use Rattle.watch_map.specs.declared.marks.Mark.{Mark};

    ghost Value = { List Mark };

    ghost view = { λ m. m.marks.items };

    ghost invariant = { λ m. AreRising m.marks.items };
}

impl<A: Allocator + Copy> Marks<A> {
    ghost use Rattle.watch_map.specs.declared.marks.Limit.TheVariants.{Place};

    /// No marks. Takes no memory.
    pub fn new(alloc: A) -> Self
        ensures { result ≡ [] }
    {
        Marks {
            marks: Vec::new(alloc),
        }
    }

    /// Whether there are no marks.
    pub fn is_empty(&self) -> bool
        ensures { IsTrue result ↔ (self.now ≡ []) }
    {
        self.marks.is_empty()
    }

    /// Forgets all. Takes no memory.
    pub fn clear(&mut self)
        ensures { self.new ≡ [] }
    {
        self.marks.clear();
    }

    /// Forgets the marks of more entries than the trail has. Takes no memory, and time for these alone.
    pub fn cut_to(&mut self, trail: &DecisionTracker<A>)
        ensures { self.new ≡ marks_below (Place (length trail.now.entries + 1)) self.old }
    {
        self.forget(Limit::Place(trail.assignments().len() + 1));
    }

    /// Forgets the marks under whose entries one of the literals may be false, judged by levels. Takes no memory, and
    /// time for these alone.
    pub fn forget_false(&mut self, literals: &[Literal], trail: &DecisionTracker<A>)
        ensures { self.new ≡ none_false_at trail.now.entries self.old literals.now }
    {
        for literal in literals {
            self.forget_literal(*literal, trail);
        }
    }

    /// The newest mark, that of the beginning if there is none.
    pub(crate) fn newest(&self) -> Mark
        ensures { result ≡ newest_mark self.now }
    {
        match self.marks.last() {
            Some(mark) => *mark,
            None => Mark {
                place: 0,
                clauses: 0,
                level: 0,
            },
        }
    }

    /// Remembers a mark, in the place of one of as many entries. Where memory for it is refused it is left out.
    pub(crate) fn push(&mut self, mark: Mark)
        requires { IsBehind (newest_mark self.old) mark }
        ensures { IsRemembered mark self.old self.new }
    {
        // What is true of each stack is true of this one: a look at its field tells it.
        let _marks = &self.marks;
        self.forget(Limit::Place(mark.place));
        self.push_behind(mark);
    }

    /// Adds a mark behind the others, if there is memory.
    fn push_behind(&mut self, mark: Mark)
        requires { All (λ other. IsBehind other mark) self.old }
        ensures { (self.new ≡ self.old ++ mark ∷ []) ⊎ (self.new ≡ self.old) }
    {
        if self.marks.reserve(1).is_ok() {
            self.marks.push_reserved(mark);
        }
    }

    /// Forgets the marks under whose entries the literal may be false.
    fn forget_literal(&mut self, literal: Literal, trail: &DecisionTracker<A>)
        ensures { self.new ≡ not_false_at trail.now.entries self.old literal }
    {
        if is_false(trail.map(), literal) {
            self.forget(Limit::Level(trail.level(literal.variable())));
        }
    }

    /// Forgets the marks from the limit on.
    fn forget(&mut self, limit: Limit)
        ensures { self.new ≡ marks_below limit self.old }
    {
        while self.is_newest_from(limit) {
            self.drop_newest();
        }
    }

    /// Whether there is a mark, and the newest is one from the limit on.
    fn is_newest_from(&self, limit: Limit) -> bool
        ensures value { result ≡ (nat_lt 0 (length self.now) && is_from limit (newest_mark self.now)) }
        ensures rising { AreRising self.now }
    {
        match self.marks.last() {
            Some(mark) => match limit {
                Limit::Place(place) => place <= mark.place,
                Limit::Level(level) => level <= mark.level,
            },
            None => false,
        }
    }

    /// Forgets the newest mark, if there is one.
    fn drop_newest(&mut self)
        ensures { self.new ≡ take (length self.old - 1) self.old }
    {
        self.marks.pop();
    }
}
