//! Types with one default.
ghost use Rattle.std.specs.Prelude.{◌≡◌, false, refl};

/// A type whose default is one known value. Maps that store their values ask for it: the contract of `Default` alone
/// doesn't say that two calls agree.
pub trait DefaultValue: Copy + Default {
    /// The default.
    ghost default_value: { Self };

    /// It is a default.
    ghost default_is: { Self.is_default default_value };

    /// `default` answers no other value.
    ghost only_default: { (x : Self) → Self.is_default x → x ≡ default_value };
}

impl DefaultValue for bool {
    ghost default_value = { false };

    ghost default_is = { refl };

    ghost only_default = { λ x h. h };
}

impl DefaultValue for u8 {
    ghost default_value = { 0 };

    ghost default_is = { refl };

    ghost only_default = { λ x h. h };
}

impl DefaultValue for u16 {
    ghost default_value = { 0 };

    ghost default_is = { refl };

    ghost only_default = { λ x h. h };
}

impl DefaultValue for u32 {
    ghost default_value = { 0 };

    ghost default_is = { refl };

    ghost only_default = { λ x h. h };
}

impl DefaultValue for u64 {
    ghost default_value = { 0 };

    ghost default_is = { refl };

    ghost only_default = { λ x h. h };
}

impl DefaultValue for usize {
    ghost default_value = { 0 };

    ghost default_is = { refl };

    ghost only_default = { λ x h. h };
}
