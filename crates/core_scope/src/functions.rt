//! Names of functions.
ghost use Rattle.std.specs.Prelude.{◌≡◌};
ghost use Rattle.core_scope.specs.Names as spec;

/// A function's name without `fn:`. It takes no memory.
pub fn plain_name(name: &[u8]) -> &[u8]
    ensures { result.now ≡ spec.plain_name name.now }
{
    match name.strip_prefix(b"fn:") {
        Some(rest) => rest,
        None => name,
    }
}
