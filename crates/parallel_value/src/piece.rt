// What one worker does.
ghost use Rattle.std.specs.Prelude.{ℕ};

/// A worker that computes the value of one item after another. What it keeps from one item to the next, such as a
/// cache, changes neither which items it takes nor which values it may give.
pub trait Piece<I, O> {
    /// It takes this item.
    ghost takes: { Self → I → Type 0 };

    /// This may be its value of the item.
    ghost gives: { Self → I → O → Type 0 };

    /// The value of an item.
    fn one(&mut self, item: &I) -> O
        requires { takes self.old item.now }
        ensures value { gives self.old item.now result }
        ensures takes { (x : I) → takes self.old x → takes self.new x }
        ensures gives { (x : I) (value : O) → gives self.new x value → gives self.old x value };
}
