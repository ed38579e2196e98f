//! Which functions of a package an advisory names.
ghost use Rattle.std.specs.Prelude.{◌≡◌};
ghost use Rattle.alarms.specs.Affected as affected;

use advisory_reader::Selector;

// Whether a text of a selector is `*` or the other text.
fn fits(pattern: &str, text: &str) -> bool
    ensures { result ≡ affected.fits pattern.now text.now }
{
    pattern == "*" || pattern == text
}

// Whether a selector names the function with this name in the file at this path inside the package.
fn names(inside: &str, name: &str, selector: &Selector) -> bool
    ensures { result ≡ affected.names inside.now name.now selector.now }
{
    fits(selector.file.as_str(), inside) && fits(selector.name.as_str(), name)
}

/// Whether one of the selectors does.
pub(crate) fn names_any(inside: &str, name: &str, selectors: &[Selector]) -> bool
    ensures { result ≡ affected.names_any inside.now name.now selectors.now }
{
    selectors
        .iter()
        .any(|selector| names(inside, name, selector))
}

/// The path of a module inside the package at a location, which owns it.
pub(crate) fn inside<'p>(location: &str, path: &'p str) -> &'p str
    ensures { result.now ≡ affected.inside location.now path.now }
{
    match lock_reader::within(location, path) {
        Some(rest) => rest,
        None => "",
    }
}
