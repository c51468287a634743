// A finite field as far as the ciphers need it: numbers of four bytes with a product.
#![tactic(auto)]

ghost use Rattle.std.specs.Prelude.{◌≡◌};
ghost use Rattle.field.specs.Field.{FieldMeaning, FieldLaws};

pub trait Field {
    ghost meaning: { Self → FieldMeaning };

    // The largest number; the others are all below it.
    fn last(&self) -> u32
        ensures { result ≡ (meaning self.now).last };

    fn times(&self, a: u32, b: u32) -> u32
        ensures { result ≡ (meaning self.now).times a b };

    // The number n by which keys are reckoned: any number to the power n + 1 is itself.
    fn order(&self) -> u32
        ensures { result ≡ (meaning self.now).order };

    fn base(&self) -> u32
        ensures { result ≡ (meaning self.now).base };

    fn mark(&self) -> u8
        ensures { result ≡ (meaning self.now).mark };

    ghost lawful: { (s : Self) → FieldLaws (meaning s) };
}
