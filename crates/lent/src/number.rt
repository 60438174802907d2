// The unsigned numbers, of any width, that a lent slice of u64 has room for.
ghost use Rattle.std.specs.Prelude.{◌≡◌, ℕ};

pub trait Number: Copy {
    ghost number: { Self → ℕ };

    fn number(self) -> u64
        ensures { result ≡ number self };
}

impl Number for u8 {
    ghost number = { λ x. x };

    fn number(self) -> u64 {
        u64::from(self)
    }
}

impl Number for u16 {
    ghost number = { λ x. x };

    fn number(self) -> u64 {
        u64::from(self)
    }
}

impl Number for u64 {
    ghost number = { λ x. x };

    fn number(self) -> u64 {
        self
    }
}
