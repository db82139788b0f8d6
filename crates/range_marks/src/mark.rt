ghost use Rattle.std.specs.Prelude.{◌≡◌, true};

/// What a place can be marked with. Marks are copied freely, and two marks that `==` answers `true` for are the same
/// value: that is the law `exact`, which each `impl` proves.
pub trait Mark: Copy + Eq {
    ghost exact: { (a b : Self) → Self.eq a b ≡ true → a ≡ b };
}

impl Mark for bool {
    ghost use Rattle.std.proofs.Common.{rules};

    ghost exact = { Prim.search rules };
}

impl Mark for u8 {
    ghost use Rattle.std.proofs.Common.{rules};

    ghost exact = { Prim.search rules };
}

impl Mark for u64 {
    ghost use Rattle.std.proofs.Common.{rules};

    ghost exact = { Prim.search rules };
}
