// What bytes of a page can be put into.
ghost use Rattle.std.specs.Prelude.{ℕ, List, [], ◌∷◌};
ghost use Rattle.page.specs.Sinks.{Joins};

// A trait of its own, since every writer of the library may fail, and a sink may not.
pub trait Sink {
    // What becomes of a sink when these bytes are put into it, one after the other.
    ghost took: { Self → List ℕ → Self → Type 0 };

    // Nothing put leaves it as it was, and bytes put after others are put together.
    ghost joins: { Joins took };

    fn put(&mut self, byte: u8)
        ensures { took self.old (byte ∷ []) self.new };
}
