// What a fold computes: a value for each form of expression, made from the values of its members.

ghost use Rattle.std.specs.Prelude.{◌≡◌, ℕ};
ghost use Rattle.models.specs.Folds.{Operations};

// An algebra over expressions. Its one ghost record says what each method answers.
pub trait Algebra<Atom: Copy> {
    type Value: Copy;

    ghost operations: { Self → Operations Atom Self.Value };

    fn empty_word(&self) -> Self::Value
        ensures { result ≡ (operations self.now).empty_word };

    fn single(&self, number: u8, atom: Atom) -> Self::Value
        ensures { result ≡ (operations self.now).single number atom };

    fn both(&self, left: Self::Value, right: Self::Value) -> Self::Value
        ensures { result ≡ (operations self.now).both left right };

    fn either(&self, left: Self::Value, right: Self::Value) -> Self::Value
        ensures { result ≡ (operations self.now).either left right };

    fn any(&self, inside: Self::Value) -> Self::Value
        ensures { result ≡ (operations self.now).any inside };

    fn some(&self, inside: Self::Value) -> Self::Value
        ensures { result ≡ (operations self.now).some inside };

    fn maybe(&self, inside: Self::Value) -> Self::Value
        ensures { result ≡ (operations self.now).maybe inside };
}
