// The working values of a fold, in a lent slice.

ghost use Rattle.std.specs.Prelude.{◌≡◌, ◌≤◌, length};

// Values in the first places of a slice, the last of them on top.
#[derive(Drop)]
pub(crate) struct Stack<'w, V> {
    places: &'w mut [V],
    height: usize,
    ghost within: { height ≤ length places.now },
}

impl<'w, V: Copy> Stack<'w, V> {
    ghost use Rattle.std.specs.Prelude.{[], ◌∷◌, ◌+◌, MatchOption};
    ghost use Rattle.models.specs.Turns.{held};

    // No value, over the places of the slice.
    pub(crate) fn on(places: &'w mut [V]) -> Stack<'w, V>
        ensures empty { result.height ≡ 0 }
        ensures places { result.places.now ≡ places.old }
    {
        Stack { places, height: 0 }
    }

    // Puts a value on top, if there is a place for it.
    pub(crate) fn push(&mut self, value: V) -> Option<()>
        ensures room { length self.new.places.now ≡ length self.old.places.now }
        ensures answer { MatchOption result (length self.old.places.now ≤ self.old.height) (λ _. held self.new.places.now self.new.height ≡ value ∷ held self.old.places.now self.old.height) }
    {
        if self.height >= self.places.len() {
            return None;
        }
        self.places[self.height] = value;
        self.height += 1;
        Some(())
    }

    // Takes the value on top away, if there is one.
    pub(crate) fn pop(&mut self) -> Option<V>
        ensures room { self.new.places.now ≡ self.old.places.now }
        ensures lower { MatchOption result (self.old.height ≡ 0) (λ _. self.old.height ≡ self.new.height + 1) }
        ensures answer { MatchOption result (held self.old.places.now self.old.height ≡ []) (λ value. held self.old.places.now self.old.height ≡ value ∷ held self.new.places.now self.new.height) }
    {
        self.height = self.height.checked_sub(1)?;
        Some(self.places[self.height])
    }
}
