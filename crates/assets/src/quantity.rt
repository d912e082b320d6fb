ghost use Rattle.std.specs.Prelude.{◌≡◌};
ghost use Rattle.assets.specs.Quantities.{burned_of, minted_of};

/// A quantity of an asset. Which quantities a list may hold, `is_quantity` says.
pub trait Quantity: Copy + Drop {
    ghost use Rattle.std.specs.Prelude.{Bool};

    ghost is_quantity: { Self → Bool };

    /// Whether a list may hold it.
    fn is_quantity(self) -> bool
        ensures { result ≡ is_quantity self };
}

impl Quantity for u64 {
    ghost use Rattle.assets.specs.Quantities.{is_held};

    ghost is_quantity = { is_held };

    fn is_quantity(self) -> bool {
        self > 0
    }
}

impl Quantity for i64 {
    ghost use Rattle.assets.specs.Quantities.{is_moved};

    ghost is_quantity = { is_moved };

    fn is_quantity(self) -> bool {
        self != 0
    }
}

/// How much is minted; 0 if some is burned.
pub fn minted(quantity: i64) -> u64
    ensures { result ≡ minted_of quantity }
{
    if quantity > 0 {
        quantity.unsigned_abs()
    } else {
        0
    }
}

/// How much is burned; 0 if some is minted.
pub fn burned(quantity: i64) -> u64
    ensures { result ≡ burned_of quantity }
{
    if quantity < 0 {
        quantity.unsigned_abs()
    } else {
        0
    }
}
