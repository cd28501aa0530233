//! Names in one of two registries.

ghost use Rattle.std.specs.Prelude.{◌≡◌};
ghost use Rattle.std.specs.Option.{option_map};
ghost use Rattle.krb_explain.specs.Named.{first_name};

/// Returns the first name that there is of two.
pub(crate) fn first_name(
    one: Option<&'static str>,
    other: Option<&'static str>,
) -> Option<&'static str>
    ensures { option_map (λ name. name.now) result
        ≡ first_name (option_map (λ name. name.now) one.entry) (option_map (λ name. name.now) other.entry) }
{
    match one {
        Some(name) => Some(name),
        None => other,
    }
}
