//! Numbers that have names in a registry.

ghost use Rattle.std.specs.Prelude.{◌≡◌, map};
ghost use Rattle.std.specs.Option.{option_map};
ghost use Rattle.std.specs.Str.{str_eq_ignore_ascii_case};
ghost use Rattle.krb_readable.specs.Named.{name_in, number_called, number_in, row_of};

/// A row of a registry: a number, and its name.
#[derive(Clone, Copy)]
pub struct Named(pub i32, pub &'static str);

/// Returns the name that a registry gives the number: that of the first row with this number. `None` if there is no such row.
pub fn name_in(registry: &[Named], number: i32) -> Option<&'static str>
    ensures { option_map (λ name. name.now) result ≡ name_in (map row_of registry.now) number }
{
    for row in registry {
        if row.0 == number {
            return Some(row.1);
        }
    }
    None
}

/// Returns the number that a registry gives the name: that of the first row with this name. `None` if there is no such row.
pub fn number_in(registry: &[Named], name: &str) -> Option<i32>
    ensures { result ≡ number_in (map row_of registry.now) name.now }
{
    for row in registry {
        if row.1 == name {
            return Some(row.0);
        }
    }
    None
}

/// Returns the number of the first row that has this name if the case of letters is ignored. `None` if there is no such row.
pub fn number_called(registry: &[Named], name: &str) -> Option<i32>
    ensures { result ≡ number_called (map row_of registry.now) name.now }
{
    for row in registry {
        if is_called(row, name) {
            return Some(row.0);
        }
    }
    None
}

fn is_called(row: &Named, name: &str) -> bool
    ensures { result ≡ str_eq_ignore_ascii_case row.now.1.now name.now }
{
    row.1.eq_ignore_ascii_case(name)
}
