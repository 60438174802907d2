// The types in which a record holds an element's number.
ghost use Rattle.std.specs.Prelude.{◌≡◌, ℕ, ◌≤◌, ◌<◌, ◌^◌};
ghost use Rattle.std.proofs.Common.{rules};

pub trait Unsigned: Copy {
    // How many bits it has room for.
    ghost room: { ℕ };

    ghost number: { Self → ℕ };

    // That number, which fits.
    fn of(coded: u32) -> Self
        requires { coded < 2 ^ room }
        ensures { number result ≡ coded };

    ghost at_most_32: { room ≤ 32 };

    // Two of one number are one.
    ghost tells: { (x y : Self) → number x ≡ number y → x ≡ y };
}

impl Unsigned for u8 {
    ghost room = { 8 };

    ghost number = { λ x. x };

    ghost at_most_32 = { Prim.search rules };

    ghost tells = { λ x y e. e };

    fn of(coded: u32) -> u8 {
        coded as u8
    }
}

impl Unsigned for u16 {
    ghost room = { 16 };

    ghost number = { λ x. x };

    ghost at_most_32 = { Prim.search rules };

    ghost tells = { λ x y e. e };

    fn of(coded: u32) -> u16 {
        coded as u16
    }
}

impl Unsigned for u32 {
    ghost room = { 32 };

    ghost number = { λ x. x };

    ghost at_most_32 = { Prim.search rules };

    ghost tells = { λ x y e. e };

    fn of(coded: u32) -> u32 {
        coded
    }
}
