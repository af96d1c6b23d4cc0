//! A pile: a stack over lent slots. It is written once, for every kind of slot.
ghost use Rattle.std.specs.Prelude.{◌≡◌, ◌+◌, ◌<◌, List, [], ◌∷◌, length};

use std::marker::Model;

/// The first `depth` slots hold the pile, the newest last. A contract sees what the pile holds and how much it can hold.
// lent slots and a depth in place of a `Vec`: the pad uses no heap
// how many values a call takes is asked of its caller, since a pile that holds fewer is a pile too
#[derive(Drop)]
pub struct Pile<'a, T> {
    slots: &'a mut [T],
    depth: usize,
}

impl<'a, T> Model for Pile<'a, T> {
    ghost use Rattle.std.specs.Prelude.{◌≤◌, length, reverse, take};
    ghost use Rattle.pad.specs.Piles.{Stack};

    ghost Value = { Stack T };

    ghost view = { λ p. record { held = reverse (take p.depth p.slots.now); room = length p.slots.now } };

    ghost invariant = { λ p. p.depth ≤ length p.slots.now };
}

impl<'a, T: Copy> Pile<'a, T> {
    /// An empty pile over the slots.
    pub(crate) fn over(slots: &'a mut [T]) -> Pile<'a, T>
        ensures { result ≡ record { held = []; room = length slots.old } }
    {
        Pile { slots, depth: 0 }
    }

    /// Puts a value on top.
    pub(crate) fn push(&mut self, x: T)
        requires { length self.old.held < self.old.room }
        ensures { self.new ≡ record self.old { held = x ∷ self.old.held } }
    {
        self.slots[self.depth] = x;
        self.depth += 1;
    }

    /// Takes the top value.
    pub(crate) fn pop(&mut self) -> T
        requires { 0 < length self.old.held }
        ensures taken { self.old ≡ record self.new { held = result ∷ self.new.held } }
        ensures less { length self.new.held < self.new.room }
    {
        self.depth -= 1;
        self.slots[self.depth]
    }

    /// Takes the top value and the one below it; the deeper one comes first.
    pub(crate) fn pop_two(&mut self) -> (T, T)
        requires { 1 < length self.old.held }
        ensures taken { self.old ≡ record self.new { held = result.1 ∷ (result.0 ∷ self.new.held) } }
        ensures less { length self.new.held + 1 < self.new.room }
    {
        let y = self.pop();
        let x = self.pop();
        (x, y)
    }

    /// Puts what `f` makes of the top value in its place.
    pub(crate) fn replace<F: FnOnce(T) -> T>(&mut self, f: F)
        requires operand { 0 < length self.old.held }
        requires callable { F.IsAlwaysCallable f }
        ensures { (y r : T) × (rest : List T) × (self.old.held ≡ y ∷ rest) × F.post f y r × (self.new ≡ record self.old { held = r ∷ rest }) }
    {
        let y = self.pop();
        self.push(f(y));
    }

    /// Takes the two top values for what `f` makes of them; the deeper one comes first.
    pub(crate) fn take_two<U, F: FnOnce(T, T) -> U>(&mut self, f: F) -> U
        requires operands { 1 < length self.old.held }
        requires callable { F.IsAlwaysCallable f }
        ensures made { (x y : T) × (self.old ≡ record self.new { held = y ∷ (x ∷ self.new.held) }) × F.post f x y result }
        ensures less { length self.new.held + 1 < self.new.room }
    {
        let (x, y) = self.pop_two();
        f(x, y)
    }

    /// Puts what `f` makes of the two top values in their place.
    pub(crate) fn replace_two<F: FnOnce(T, T) -> T>(&mut self, f: F)
        requires operands { 1 < length self.old.held }
        requires callable { F.IsAlwaysCallable f }
        ensures { (x y r : T) × (rest : List T) × (self.old.held ≡ y ∷ (x ∷ rest)) × F.post f x y r × (self.new ≡ record self.old { held = r ∷ rest }) }
    {
        let r = self.take_two(f);
        self.push(r);
    }
}
